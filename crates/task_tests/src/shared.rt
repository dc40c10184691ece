//! Two databases that share a block, each read by a transaction, over one cache.
ghost use Rattle.std.specs.Prelude.{◌≡◌, ◌+◌, ◌<◌, ◌≤◌, [], IsSomeAnd};
ghost use Rattle.bcv_base.specs.declared.id.Id16.{Id16};
ghost use Rattle.bcv_cache.specs.Cache.{IsSlotOf, entry_in};
ghost use Rattle.bcv_pages.specs.Held.{CanView};
ghost use Rattle.bcv_snapshot.specs.Opened.{block_id};
ghost use Rattle.bcv_snapshot.specs.Pins.{KeepsPins};

use crate::snapshot::{NEVER_PUT, WHOLE, entry_of};
use bcv_base::TxnBase;
use bcv_cache::{BlockCache, Slot};
use bcv_memstore::MemStore;
use bcv_pages::PageSet;
use bcv_snapshot::{Fetched, Look, Txn, fetch};
use std::alloc::Global;
use std::process::Abort;
use std::test::*;

// Holds the block of page 2 in a slot that has so many pins at most; whether it is held.
fn hold(txn: &mut Txn, cache: &mut BlockCache, slot: Slot, pins: u32) -> bool
    requires block { cache.old.block ≡ txn.old.base.block }
    requires pages { 2 ≤ txn.old.base.entry.pages }
    requires entry { IsSomeAnd (block_id txn.old.base 2) (λ id. IsSlotOf slot id cache.old.entries) }
    requires few { IsSomeAnd (entry_in slot cache.old.entries) (λ e. e.count ≤ pins) }
    requires small { pins < 100 }
    ensures block { cache.new.block ≡ cache.old.block }
    ensures base { txn.new.base ≡ txn.old.base }
    ensures entry { (id : Id16) → IsSlotOf slot id cache.old.entries
        → IsSlotOf slot id cache.new.entries }
    ensures few { IsSomeAnd (entry_in slot cache.new.entries) (λ e. e.count ≤ pins + 1) }
    ensures pins { KeepsPins txn.old.held cache.old.entries txn.new.held cache.new.entries }
{
    txn.hold(cache, 2, slot).is_ok()
}

// The first transaction holds the block twice, and the second one once. One free is enough for the first one, and leaves
// the second one's pin: the cache of one slot is full until that one ends.
fn share(
    rt: &impl Abort,
    alloc: Global,
    mut first: Txn,
    mut second: Txn,
    pages: &PageSet,
    cache: &mut BlockCache,
    slot: Slot,
)
    requires view { CanView pages.now second.base.from second.base.to }
    requires first_block { cache.old.block ≡ first.base.block }
    requires second_block { cache.old.block ≡ second.base.block }
    requires first_none { first.held ≡ [] }
    requires second_none { second.held ≡ [] }
    requires first_pages { 2 ≤ first.base.entry.pages }
    requires second_pages { 2 ≤ second.base.entry.pages }
    requires first_entry { IsSomeAnd (block_id first.base 2)
        (λ id. IsSlotOf slot id cache.old.entries) }
    requires second_entry { IsSomeAnd (block_id second.base 2)
        (λ id. IsSlotOf slot id cache.old.entries) }
    requires few { IsSomeAnd (entry_in slot cache.old.entries) (λ e. e.count ≤ 0) }
{
    let mut store = MemStore::new(alloc);
    let block = first.base().block;
    assert!(rt; hold(&mut first, cache, slot, 0));
    assert!(rt; hold(&mut first, cache, slot, 1));
    assert!(rt; hold(&mut second, cache, slot, 2));
    assert!(rt; first.free(cache, 1));
    assert!(rt; !first.free(cache, 2));
    let full = fetch(alloc, &mut store, cache, NEVER_PUT, block);
    assert_eq!(rt; full, Fetched::CacheFull);
    assert!(rt; matches!(second.look(pages, cache, 1), Look::Page(_)));
    second.end(cache);
    let gone = fetch(alloc, &mut store, cache, NEVER_PUT, block);
    assert_eq!(rt; gone, Fetched::Gone);
    first.end(cache);
}

#[test]
fn a_block_of_two_databases(rt: HostRuntime) -> Result<(), Fail> {
    let alloc = rt.alloc();
    let pages = PageSet::new(alloc, 512);
    let one = entry_of(alloc, b"a", WHOLE)?;
    let other = entry_of(alloc, b"b", WHOLE)?;
    let mut cache = BlockCache::new(alloc, 1, 1024)?;
    assert_eq!(rt; cache.find(&WHOLE), None);
    assert!(rt; cache.room());
    let Ok(slot) = cache.fill(alloc, WHOLE, vec![in alloc; 7; 1024]?) else {
        return Err(Fail::from("memory for the block"));
    };
    let first = TxnBase {
        entry: one,
        number: 2,
        block: 1024,
        from: 0,
        to: 0,
    };
    let second = TxnBase {
        entry: other,
        number: 2,
        block: 1024,
        from: 0,
        to: 0,
    };
    let first = Txn::begin(alloc, first, &pages);
    let second = Txn::begin(alloc, second, &pages);
    share(&rt, alloc, first, second, &pages, &mut cache, slot);
    Ok(())
}
