//! The blocks of a new database: how many there are, and the bytes of each.
ghost use Rattle.std.specs.Prelude.{◌≡◌, ◌≤◌, ◌<◌, ◌-◌, ◌^◌, ℕ, length, IfOk};
ghost use Rattle.std.specs.List.{AllByRecursion};
ghost use Rattle.bcv_base.specs.Image.{Page};
ghost use Rattle.bcv_base.specs.ManifestRules.{blocks_needed};
ghost use Rattle.bcv_dbcopy.specs.State.{FitsBlock, needed, put_ids, padded, block_text, pages_text};

use bcv_base::Seq;
use bcv_dbmap::EditPlan;
use std::alloc::{AllocError, Global};

/// How many blocks of a size the edit is still to put.
pub(crate) fn blocks_left(block: u32, edit: &EditPlan) -> u32
    requires size { 512 ≤ block }
    requires fits { FitsBlock block edit.now }
    ensures { result ≡ needed block edit.now - length (put_ids edit.now) }
{
    match edit {
        EditPlan::New(entry) => {
            let bytes = entry.pages as u64 * entry.page_size as u64;
            let needed = (bytes + (block as u64 - 1)) / block as u64;
            needed as u32 - entry.blocks.items().len() as u32
        }
        _ => 0,
    }
}

/// The bytes of the block of a number, from 0: its pages, and zeros after the last one.
pub(crate) fn block_bytes(
    alloc: Global,
    block: u32,
    page_size: u32,
    pages: &[Seq<u8>],
    number: usize,
) -> Result<Vec<u8>, AllocError>
    requires size { 512 ≤ page_size }
    requires few { number < 2 ^ 20 }
    requires pages { AllByRecursion (λ (p : Page). length p ≡ page_size) pages.now }
    ensures { IfOk result (λ bytes. bytes.items ≡ block_text block page_size pages.now number) }
{
    let many = (block / page_size) as usize;
    let from = (number * many).min(pages.len());
    let to = (from + many).min(pages.len());
    filled(alloc, block, page_size, &pages[from..to])
}

// These pages, and zeros after them up to a size.
fn filled(
    alloc: Global,
    block: u32,
    page_size: u32,
    pages: &[Seq<u8>],
) -> Result<Vec<u8>, AllocError>
    requires pages { AllByRecursion (λ (p : Page). length p ≡ page_size) pages.now }
    requires fits { length (pages_text pages.now) ≤ block }
    ensures { IfOk result (λ bytes. bytes.items ≡ padded block (pages_text pages.now)) }
{
    let mut bytes = Vec::with_capacity(alloc, block as usize)?;
    for page in pages {
        bytes.extend_from_slice(page.items())?;
    }
    bytes.resize(block as usize, 0)?;
    Ok(bytes)
}
