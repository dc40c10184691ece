//! The bytes of a block of a view.
ghost use Rattle.std.specs.Prelude.{◌≡◌, ◌≤◌, ◌<◌, ◌+◌, ◌-◌, ◌*◌, ◌^◌, ◌++◌, true, min, length, vec_len, IfOk, OnOk};
ghost use Rattle.bcv_base.specs.Image.{is_base};
ghost use Rattle.bcv_pages.specs.Held.{CanView};
ghost use Rattle.bcv_upload.specs.BlockText.{has_base, page_over, per_block, view_block};
ghost use Rattle.bcv_upload.specs.State.{IsBase, size_in, view_in};

use bcv_base::TxnBase;
use bcv_pages::{PageAt, PageSet};
use std::alloc::{AllocError, Global};

/// Whether a block of a view, by its number from 0, holds a page of the base.
pub(crate) fn has_base(base: &TxnBase, pages: &PageSet, number: u32) -> bool
    requires base { IsBase base.now }
    requires view { CanView pages.now base.now.from base.now.to }
    requires inside { number * per_block base.now < size_in pages.now base.now }
    ensures { result ≡ has_base base.now (view_in pages.now base.now) number }
{
    let (before, count) = page_span(base, pages, number);
    for place in 0..count {
        if is_base(base, pages, before + place + 1) {
            return true;
        }
    }
    false
}

/// The bytes of a block of a view, by its number from 0: its pages, and zeros past the view's size. Where the block
/// holds a page of the base, `old` has its bytes there.
pub(crate) fn view_block(
    alloc: Global,
    base: &TxnBase,
    pages: &PageSet,
    number: u32,
    old: &[u8],
) -> Result<Vec<u8>, AllocError>
    requires base { IsBase base.now }
    requires view { CanView pages.now base.now.from base.now.to }
    requires page_size { pages.now.page_size ≡ base.now.entry.page_size }
    requires inside { number * per_block base.now < size_in pages.now base.now }
    requires old { has_base base.now (view_in pages.now base.now) number ≡ true
        → length old.now ≡ base.now.block }
    ensures bytes { IfOk result (λ bytes.
        bytes.items ≡ view_block base.now (view_in pages.now base.now) old.now number) }
    ensures whole { IfOk result (λ bytes. length bytes.items ≡ base.now.block) }
{
    let (before, count) = page_span(base, pages, number);
    let mut bytes = Vec::with_capacity(alloc, base.block as usize)?;
    for place in 0..count {
        push_page(&mut bytes, base, pages, before + place + 1, place, old)?;
    }
    bytes.resize(base.block as usize, 0)?;
    Ok(bytes)
}

// Whether a page of a view is the base's.
fn is_base(base: &TxnBase, pages: &PageSet, page: u32) -> bool
    requires view { CanView pages.now base.now.from base.now.to }
    requires first { 1 ≤ page }
    requires last { page ≤ size_in pages.now base.now }
    ensures { result ≡ is_base base.now.entry.pages (view_in pages.now base.now) page }
{
    match pages.find(base.entry.pages, base.from, base.to, page) {
        PageAt::Base => true,
        PageAt::Zeros => false,
        PageAt::Local(_) => false,
    }
}

// How many pages of a view stand before a block, and how many it holds.
fn page_span(base: &TxnBase, pages: &PageSet, number: u32) -> (u32, u32)
    requires base { IsBase base.now }
    requires view { CanView pages.now base.now.from base.now.to }
    requires inside { number * per_block base.now < size_in pages.now base.now }
    ensures before { result.0 ≡ number * per_block base.now }
    ensures count { result.1
        ≡ min (per_block base.now) (size_in pages.now base.now - number * per_block base.now) }
    ensures within { result.0 + result.1 ≤ size_in pages.now base.now }
    ensures small { result.0 + result.1 < 2 ^ 32 }
{
    let per_block = base.block / base.entry.page_size;
    let size = pages.size(base.entry.pages, base.from, base.to);
    let before = number * per_block;
    (before, per_block.min(size - before))
}

// Adds a page of a view, which stands at this place, from 0, in its block.
fn push_page(
    bytes: &mut Vec<u8>,
    base: &TxnBase,
    pages: &PageSet,
    page: u32,
    place: u32,
    old: &[u8],
) -> Result<(), AllocError>
    requires view { CanView pages.now base.now.from base.now.to }
    requires page_size { pages.now.page_size ≡ base.now.entry.page_size }
    requires first { 1 ≤ page }
    requires last { page ≤ size_in pages.now base.now }
    requires short { vec_len bytes.old + base.now.entry.page_size ≤ 16777216 }
    requires old { is_base base.now.entry.pages (view_in pages.now base.now) page ≡ true →
        (place + 1) * base.now.entry.page_size ≤ length old.now }
    ensures added { OnOk result (bytes.new.items
        ≡ bytes.old.items ++ page_over base.now (view_in pages.now base.now) old.now place page) }
    ensures longer { OnOk result (vec_len bytes.new
        ≡ vec_len bytes.old + base.now.entry.page_size) }
{
    let page_size = base.entry.page_size as usize;
    match pages.find(base.entry.pages, base.from, base.to, page) {
        PageAt::Local(written) => bytes.extend_from_slice(written),
        PageAt::Zeros => bytes.resize(bytes.len() + page_size, 0),
        PageAt::Base => {
            let at = place as usize * page_size;
            bytes.extend_from_slice(&old[at..at + page_size])
        }
    }
}
