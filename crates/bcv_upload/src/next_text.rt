//! What there is of a block before its request.
ghost use Rattle.std.specs.Prelude.{◌≡◌, ◌*◌, ◌<◌, length, IfSome};
ghost use Rattle.std.specs.Option.{option_map};
ghost use Rattle.bcv_pages.specs.Held.{CanView};
ghost use Rattle.bcv_upload.specs.Inside.{IsNext, made_text};
ghost use Rattle.bcv_upload.specs.BlockText.{per_block};
ghost use Rattle.bcv_upload.specs.State.{IsBase, size_in, view_in};
ghost use Rattle.bcv_upload.specs.UploadWork.{cache_asked};

use crate::block_text::{has_base, view_block};
use bcv_base::{Id16, TxnBase};
use bcv_cache::BlockCache;
use bcv_pages::PageSet;
use std::alloc::{AllocError, Global};

/// The bytes of a block, or the id of old bytes that it needs and that are not there.
#[derive(Drop)]
pub(crate) enum NextText {
    Made(Vec<u8>),
    Missing(Id16),
    NoMemory,
}

/// Makes the bytes of a block of a view, by its number from 0. Old bytes that it needs and that no get brought are
/// looked for in the cache.
pub(crate) fn next_text(
    alloc: Global,
    base: &TxnBase,
    pages: &PageSet,
    number: u32,
    fetched: &Option<Vec<u8>>,
    cache: &mut BlockCache,
) -> NextText
    requires base { IsBase base.now }
    requires view { CanView pages.now base.now.from base.now.to }
    requires page_size { pages.now.page_size ≡ base.now.entry.page_size }
    requires inside { number * per_block base.now < size_in pages.now base.now }
    requires fetched { IfSome fetched.now (λ old. length old.items ≡ base.now.block) }
    requires block { cache.old.block ≡ base.now.block }
    ensures next { IsNext base.now (view_in pages.now base.now) number
        (option_map (λ b. b.items) fetched.now)
        cache.old.entries result }
    ensures cache { cache.new ≡ cache_asked base.now (view_in pages.now base.now) number
        (option_map (λ b. b.items) fetched.now) cache.old }
{
    if !has_base(base, pages, number) {
        return made(view_block(alloc, base, pages, number, &[]));
    }
    if let Some(old) = fetched {
        return made(view_block(alloc, base, pages, number, old));
    }
    let id = base.entry.blocks.items()[number as usize];
    match cache.find(&id) {
        Some(slot) => made(view_block(alloc, base, pages, number, cache.lend(slot))),
        None => NextText::Missing(id),
    }
}

// The bytes of a block, where there was memory for them.
fn made(bytes: Result<Vec<u8>, AllocError>) -> NextText
    ensures { result ≡ made_text bytes }
{
    match bytes {
        Ok(bytes) => NextText::Made(bytes),
        Err(_) => NextText::NoMemory,
    }
}
