//! The fetch of a block into the cache.
ghost use Rattle.std.specs.Prelude.{◌≡◌, ◌≢◌, None, true, vec_len};
ghost use Rattle.bcv_cache.specs.Cache.{slot_of, has_room, IsCache, IsSlotOf, KeepsPinned};
ghost use Rattle.bcv_snapshot.specs.BlockFetch.{BytesTaken, FetchAnswered, BlockFetches, IfIn};

use crate::fetched::Fetched;
use bcv_base::{Id16, ObjName};
use bcv_cache::BlockCache;
use bcv_store::{Got, Store};
use std::alloc::Global;

/// Brings the block of an id into the cache, whose blocks have `block` bytes, and makes it the most recent one there. A
/// block that is in the cache is found without a request, and so is a cache without room. Else this is one get, or
/// none where memory for the block's bytes was not had. The cache is as it was after every answer but `In`.
pub fn fetch<S: Store>(
    alloc: Global,
    store: &mut S,
    cache: &mut BlockCache,
    id: Id16,
    block: u32,
) -> Fetched
    requires block { cache.old.block ≡ block }
    ensures fetches { BlockFetches (slot_of id cache.old.entries) (has_room cache.old) S.told
        (S.shown store.old)
        (S.shown store.new) id cache.old result cache.new }
    ensures entry { IfIn result (λ slot. IsSlotOf slot id cache.new.entries) }
    ensures pinned_stay { KeepsPinned cache.old.entries cache.new.entries }
    ensures cache { IsCache cache.new }
    ensures same_block { cache.new.block ≡ block }
    ensures reached { S.reaches store.old store.new }
{
    if let Some(slot) = cache.find(&id) {
        return Fetched::In(slot);
    }
    if !cache.room() {
        return Fetched::CacheFull;
    }
    let mut bytes = match Vec::with_capacity(alloc, block as usize) {
        Ok(bytes) => bytes,
        Err(_) => return Fetched::NoMemory,
    };
    let got = store.get(alloc, &ObjName::Block(id), None, &mut bytes, block as usize);
    take_answer(alloc, cache, id, block, got, bytes)
}

// The answer to a fetch that follows from an answer of the store, with the bytes that it left.
fn take_answer(
    alloc: Global,
    cache: &mut BlockCache,
    id: Id16,
    block: u32,
    got: Got,
    bytes: Vec<u8>,
) -> Fetched
    requires cache { IsCache cache.old }
    requires block { cache.old.block ≡ block }
    requires room { has_room cache.old ≡ true }
    requires absent { slot_of id cache.old.entries ≡ None }
    requires asked { got ≢ Got.Same }
    ensures answered { FetchAnswered got bytes.items id cache.old result cache.new }
    ensures entry { IfIn result (λ slot. IsSlotOf slot id cache.new.entries) }
    ensures pinned_stay { KeepsPinned cache.old.entries cache.new.entries }
    ensures cache { IsCache cache.new }
    ensures same_block { cache.new.block ≡ block }
{
    match got {
        Got::Found(_) => take_bytes(alloc, cache, id, block, bytes),
        Got::Same => unreachable!(),
        Got::Missing => Fetched::Gone,
        Got::TooLong(len) => Fetched::BadBlock { len },
        Got::Failed => Fetched::StoreFault,
        Got::NoMemory => Fetched::NoMemory,
    }
}

// Puts bytes of a block's length into the cache.
fn take_bytes(
    alloc: Global,
    cache: &mut BlockCache,
    id: Id16,
    block: u32,
    bytes: Vec<u8>,
) -> Fetched
    requires cache { IsCache cache.old }
    requires block { cache.old.block ≡ block }
    requires room { has_room cache.old ≡ true }
    requires absent { slot_of id cache.old.entries ≡ None }
    ensures taken { BytesTaken bytes.items id cache.old result cache.new }
    ensures entry { IfIn result (λ slot. IsSlotOf slot id cache.new.entries) }
    ensures pinned_stay { KeepsPinned cache.old.entries cache.new.entries }
    ensures cache { IsCache cache.new }
    ensures same_block { cache.new.block ≡ block }
{
    if bytes.len() != block as usize {
        return Fetched::BadBlock {
            len: bytes.len() as u64,
        };
    }
    match cache.fill(alloc, id, bytes) {
        Ok(slot) => Fetched::In(slot),
        Err(_) => Fetched::NoMemory,
    }
}
