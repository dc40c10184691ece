//! The pages of a commit, filled up to a page size.
ghost use Rattle.std.specs.Prelude.{◌≡◌, ◌≤◌, IfOk, Some, length};
ghost use Rattle.std.specs.Option.{option_map};
ghost use Rattle.bcv_base.specs.Padded.{padded};
ghost use Rattle.bcv_runner.specs.CommandAsks.{filled_pages};

use bcv_base::Seq;
use std::alloc::{AllocError, Global};

// The pages, each filled with zeros up to a page size, where one is known. A longer one stays as it is.
pub fn filled_pages(
    alloc: Global,
    page_size: Option<u32>,
    pages: Seq<(u32, Seq<u8>)>,
) -> Result<Seq<(u32, Seq<u8>)>, AllocError>
    ensures { IfOk result (λ ps. ps ≡ filled_pages page_size pages) }
{
    match page_size {
        Some(size) => all_filled(alloc, size, pages),
        None => Ok(pages),
    }
}

fn all_filled(
    alloc: Global,
    page_size: u32,
    pages: Seq<(u32, Seq<u8>)>,
) -> Result<Seq<(u32, Seq<u8>)>, AllocError>
    ensures { IfOk result (λ ps. ps ≡ filled_pages (Some page_size) pages) }
{
    let mut whole = Vec::new(alloc);
    for (page, bytes) in pages.into_vec() {
        whole.push((page, padded(page_size, bytes)?))?;
    }
    Ok(Seq::of(whole))
}

// Bytes filled up with zeros, where they are fewer.
fn padded(page_size: u32, bytes: Seq<u8>) -> Result<Seq<u8>, AllocError>
    ensures { IfOk result (λ p. p ≡ padded page_size bytes) }
{
    let mut page = bytes.into_vec();
    if page.len() < page_size as usize {
        page.resize(page_size as usize, 0)?;
    }
    Ok(Seq::of(page))
}
