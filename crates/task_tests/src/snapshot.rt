ghost use Rattle.std.specs.Prelude.{◌≡◌, ◌+◌, ◌<◌, ◌≤◌, [], ◌∷◌, IfOk, OnOk, IsSomeAnd};
ghost use Rattle.bcv_base.specs.Ids.{IsId};
ghost use Rattle.bcv_base.specs.ManifestRules.{MeetsEntryRules};
ghost use Rattle.bcv_cache.specs.Cache.{IsPinnable, IsSlotOf};
ghost use Rattle.bcv_pages.specs.Held.{CanView, last_of};
ghost use Rattle.bcv_snapshot.specs.Opened.{block_id};

use bcv_base::{DbEntry, DbName, Id16, ObjName, Outcome, Seq, TxnBase};
use bcv_cache::{BlockCache, Slot};
use bcv_memstore::MemStore;
use bcv_pages::{PageSet, WriteTxn};
use bcv_snapshot::{Fetched, Look, Place, Txn, fetch};
use bcv_store::{Cond, Store};
use std::alloc::Global;
use std::process::Abort;
use std::test::*;

pub(crate) const WHOLE: Id16 = Id16([1; 16]);

const LONG: Id16 = Id16([2; 16]);

pub(crate) const NEVER_PUT: Id16 = Id16([3; 16]);

// Fetches of blocks of four bytes: each answer but a full cache, and a block that is found at a failing store.
#[test]
fn blocks_are_fetched(rt: HostRuntime) -> Result<(), Fail> {
    let alloc = rt.alloc();
    let mut store = MemStore::new(alloc);
    let mut cache = BlockCache::new(alloc, 1, 4)?;
    let _ = store.put(alloc, &ObjName::Block(WHOLE), Cond::Absent, b"four");
    let _ = store.put(alloc, &ObjName::Block(LONG), Cond::Absent, b"fives");
    let gone = fetch(alloc, &mut store, &mut cache, NEVER_PUT, 4);
    assert_eq!(rt; gone, Fetched::Gone);
    let bad = fetch(alloc, &mut store, &mut cache, LONG, 4);
    assert_eq!(rt; bad, Fetched::BadBlock { len: 5 });
    store.plan(Outcome::Fail);
    let failed = fetch(alloc, &mut store, &mut cache, WHOLE, 4);
    assert_eq!(rt; failed, Fetched::StoreFault);
    let first = fetch(alloc, &mut store, &mut cache, WHOLE, 4);
    assert!(rt; matches!(first, Fetched::In(_)));
    store.plan(Outcome::Fail);
    let again = fetch(alloc, &mut store, &mut cache, WHOLE, 4);
    assert_eq!(rt; again, first);
    Ok(())
}

// A cache without slots is full.
#[test]
fn a_cache_without_slots_is_full(rt: HostRuntime) -> Result<(), Fail> {
    let alloc = rt.alloc();
    let mut store = MemStore::new(alloc);
    let mut cache = BlockCache::new(alloc, 0, 4)?;
    let full = fetch(alloc, &mut store, &mut cache, NEVER_PUT, 4);
    assert_eq!(rt; full, Fetched::CacheFull);
    Ok(())
}

// Holds the block of page 2 in a slot, looks at the page while the cache is full, and frees the block by page 1, which
// lies in it too.
fn hold_and_free(
    rt: &impl Abort,
    alloc: Global,
    mut txn: Txn,
    pages: &PageSet,
    cache: &mut BlockCache,
    slot: Slot,
)
    requires view { CanView pages.now txn.base.from txn.base.to }
    requires block { cache.old.block ≡ txn.base.block }
    requires none { txn.held ≡ [] }
    requires pages { 2 ≤ txn.base.entry.pages }
    requires entry { IsSomeAnd (block_id txn.base 2) (λ id. IsSlotOf slot id cache.old.entries) }
    requires pinnable { IsPinnable slot cache.old.entries }
{
    let mut store = MemStore::new(alloc);
    let block = txn.base().block;
    assert!(rt; matches!(txn.look(pages, cache, 2), Look::NotHeld));
    let held = txn.hold(cache, 2, slot);
    assert!(rt; held.is_ok());
    let full = fetch(alloc, &mut store, cache, NEVER_PUT, block);
    assert_eq!(rt; full, Fetched::CacheFull);
    assert!(rt; matches!(txn.look(pages, cache, 2), Look::Page(_)));
    assert!(rt; txn.free(cache, 1));
    assert!(rt; !txn.free(cache, 2));
    let gone = fetch(alloc, &mut store, cache, NEVER_PUT, block);
    assert_eq!(rt; gone, Fetched::Gone);
    txn.end(cache);
}

/// The entry of a database of two pages of 512 bytes in one block.
pub(crate) fn entry_of(alloc: Global, name: &[u8], block: Id16) -> Result<DbEntry, Fail>
    requires { IsId block }
    ensures rules { IfOk result (MeetsEntryRules 1024) }
    ensures page_size { IfOk result (λ e. e.page_size ≡ 512) }
    ensures pages { IfOk result (λ e. e.pages ≡ 2) }
    ensures blocks { IfOk result (λ e. e.blocks ≡ block ∷ []) }
{
    let Some(name) = DbName::read(name) else {
        return Err(Fail::from("a name"));
    };
    // The text of a name keeps the rules of names.
    let _ = name.text();
    Ok(DbEntry {
        name,
        tag: block,
        page_size: 512,
        pages: 2,
        blocks: Seq::of(vec![in alloc; block]?),
    })
}

// A transaction over two pages in one cached block.
#[test]
fn a_block_is_held(rt: HostRuntime) -> Result<(), Fail> {
    let alloc = rt.alloc();
    let pages = PageSet::new(alloc, 512);
    let entry = entry_of(alloc, b"a", WHOLE)?;
    let mut cache = BlockCache::new(alloc, 1, 1024)?;
    assert_eq!(rt; cache.find(&WHOLE), None);
    assert!(rt; cache.room());
    let Ok(slot) = cache.fill(alloc, WHOLE, vec![in alloc; 7; 1024]?) else {
        return Err(Fail::from("memory for the block"));
    };
    let base = TxnBase {
        entry,
        number: 2,
        block: 1024,
        from: 0,
        to: 0,
    };
    let txn = Txn::begin(alloc, base, &pages);
    hold_and_free(&rt, alloc, txn, &pages, &mut cache, slot);
    Ok(())
}

// Adds a commit of a size that writes the last page.
fn add_commit(alloc: Global, pages: &mut PageSet, size: u32, writes: bool) -> Result<(), Fail>
    requires page_size { pages.old.page_size ≡ 512 }
    requires last { last_of pages.old < 100 }
    ensures page_size { pages.new.page_size ≡ 512 }
    ensures forgotten { pages.new.forgotten ≡ pages.old.forgotten }
    ensures last { OnOk result (last_of pages.new ≡ last_of pages.old + 1) }
{
    let mut draft = WriteTxn::new(alloc, 512, size);
    if writes && draft.write(size, &[9; 512]).is_err() {
        return Err(Fail::from("a page"));
    }
    let commit = draft.finish();
    pages.reserve(&commit)?;
    pages.add(commit);
    Ok(())
}

// A base page, a page of zeros by a cut, one beyond the base by growth, a local page, and no page.
#[test]
fn pages_after_a_cut_and_growth(rt: HostRuntime) -> Result<(), Fail> {
    let alloc = rt.alloc();
    let mut pages = PageSet::new(alloc, 512);
    add_commit(alloc, &mut pages, 1, false)?;
    add_commit(alloc, &mut pages, 4, true)?;
    let entry = entry_of(alloc, b"a", WHOLE)?;
    let mut cache = BlockCache::new(alloc, 1, 1024)?;
    let base = TxnBase {
        entry,
        number: 2,
        block: 1024,
        from: 0,
        to: 2,
    };
    let txn = Txn::begin(alloc, base, &pages);
    assert_eq!(rt; txn.size(), 4);
    assert_eq!(rt; txn.place(&pages, &mut cache, 1), Place::Absent(WHOLE));
    assert_eq!(rt; txn.place(&pages, &mut cache, 2), Place::Zeros);
    assert_eq!(rt; txn.place(&pages, &mut cache, 3), Place::Zeros);
    assert_eq!(rt; txn.place(&pages, &mut cache, 4), Place::Local);
    assert_eq!(rt; txn.place(&pages, &mut cache, 5), Place::BadPage);
    assert!(rt; matches!(txn.look(&pages, &cache, 1), Look::NotHeld));
    txn.end(&mut cache);
    Ok(())
}
