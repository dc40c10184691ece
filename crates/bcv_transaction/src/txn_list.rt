//! The calls over the list of open transactions and a cache.
ghost use Rattle.std.specs.Prelude.{◌≡◌, ◌<◌, ◌++◌, ◌∷◌, [], IfSome, Some, false, option_map, vec_len, vec_capacity};
ghost use Rattle.std.specs.Option.{option_copied};
ghost use Rattle.bcv_cache.specs.Cache.{has_room, slot_of};
ghost use Rattle.bcv_databases.specs.Changes.{least_of};
ghost use Rattle.bcv_snapshot.specs.BlockFetch.{BlockFetches};
ghost use Rattle.bcv_transaction.specs.Open.{AreOpenIn, CanRead, base_in, oldest_in, set_in, txn_at};
ghost use Rattle.bcv_transaction.specs.ListCalls.{EndsIn, FreesIn, HoldsIn, LooksIn, ReadsIn, SameSize};
ghost use Rattle.bcv_transaction.specs.UploadCalls.{UploadWorks};
ghost use Rattle.bcv_upload.specs.State.{HoldsView, IsRunning, is_ready, view_in};

use crate::answers::{Came, Freed};
use crate::numbers::place_of;
use crate::open_txn::OpenTxn;
use crate::page::{free_page, hold_page, read_page};
use bcv_base::{Id16, Names, Seen, TxnBase};
use bcv_cache::BlockCache;
use bcv_pages::PageSet;
use bcv_publish::Work;
use bcv_snapshot::{Fetched, Look, fetch};
use bcv_store::Store;
use bcv_upload::Upload;
use std::alloc::Global;

/// What the transaction of a number reads from.
pub(crate) fn base_of(txns: &[OpenTxn], number: u8) -> Option<&TxnBase>
    ensures { option_copied result ≡ base_in number txns.now }
{
    match place_of(txns, number) {
        Some(at) => Some(txns[at].txn.base()),
        None => None,
    }
}

/// The set that the transaction of a number reads.
pub(crate) fn set_of(txns: &[OpenTxn], number: u8) -> Option<usize>
    ensures { result ≡ set_in number txns.now }
{
    match place_of(txns, number) {
        Some(at) => Some(txns[at].set),
        None => None,
    }
}

/// The least number after which the commits of a transaction over a set begin.
pub(crate) fn oldest_of(txns: &[OpenTxn], set: usize) -> Option<u64>
    ensures { result ≡ oldest_in set txns.now }
{
    let mut oldest = None;
    for txn in txns {
        if txn.set == set {
            oldest = earlier(oldest, txn.txn.base().from);
        }
    }
    oldest
}

// The lesser of two numbers, the first of which may not be there.
fn earlier(oldest: Option<u64>, from: u64) -> Option<u64>
    ensures { result ≡ least_of oldest (Some from) }
{
    match oldest {
        Some(oldest) => Some(oldest.min(from)),
        None => Some(from),
    }
}

/// Reads a page of the transaction of a number.
pub(crate) fn read_in(
    alloc: Global,
    txns: &[OpenTxn],
    cache: &mut BlockCache,
    number: u8,
    page: u32,
    pages: &PageSet,
) -> Came
    requires are_open { AreOpenIn cache.old txns.now }
    requires view { IfSome (txn_at number txns.now) (CanRead pages.now) }
    ensures reads { ReadsIn pages.now cache.old txns.now number page result cache.new }
    ensures are_open { AreOpenIn cache.new txns.now }
    ensures size { SameSize cache.old cache.new }
{
    match place_of(txns, number) {
        Some(at) => read_page(alloc, &txns[at].txn, pages, cache, page),
        None => Came::NoTxn,
    }
}

/// Holds the block of a page of the transaction of a number.
pub(crate) fn hold_in(
    txns: &mut [OpenTxn],
    cache: &mut BlockCache,
    number: u8,
    page: u32,
    pages: &PageSet,
) -> Came
    requires are_open { AreOpenIn cache.old txns.old }
    requires view { IfSome (txn_at number txns.old) (CanRead pages.now) }
    ensures holds { HoldsIn pages.now cache.old txns.old number page result txns.new cache.new }
    ensures are_open { AreOpenIn cache.new txns.new }
    ensures size { SameSize cache.old cache.new }
{
    match place_of(txns, number) {
        Some(at) => hold_page(&mut txns[at].txn, pages, cache, page),
        None => Came::NoTxn,
    }
}

/// Shows a page of the transaction of a number that is local or in a block that it holds.
pub(crate) fn look_in<'a>(
    txns: &'a [OpenTxn],
    cache: &'a BlockCache,
    number: u8,
    page: u32,
    pages: &'a PageSet,
) -> Look<'a>
    requires are_open { AreOpenIn cache.now txns.now }
    requires view { IfSome (txn_at number txns.now) (CanRead pages.now) }
    ensures { LooksIn pages.now cache.now txns.now number page result }
{
    match place_of(txns, number) {
        Some(at) => txns[at].txn.look(pages, cache, page),
        None => Look::NoTxn,
    }
}

/// Lets the block of a page of the transaction of a number go.
pub(crate) fn free_in(txns: &mut [OpenTxn], cache: &mut BlockCache, number: u8, page: u32) -> Freed
    requires are_open { AreOpenIn cache.old txns.old }
    ensures frees { FreesIn cache.old txns.old number page result txns.new cache.new }
    ensures are_open { AreOpenIn cache.new txns.new }
    ensures size { SameSize cache.old cache.new }
{
    match place_of(txns, number) {
        Some(at) => free_page(&mut txns[at].txn, cache, page),
        None => Freed::NoTxn,
    }
}

/// Ends the transaction of a number, and answers whether it was txns.
pub(crate) fn end_in(txns: &mut Vec<OpenTxn>, cache: &mut BlockCache, number: u8) -> bool
    requires are_open { AreOpenIn cache.old txns.old.items }
    ensures ends { EndsIn cache.old txns.old.items number result txns.new.items cache.new }
    ensures are_open { AreOpenIn cache.new txns.new.items }
    ensures size { SameSize cache.old cache.new }
{
    match place_of(txns, number) {
        Some(at) => {
            let OpenTxn {
                number: _,
                set: _,
                txn,
            } = txns.remove(at);
            txn.end(cache);
            true
        }
        None => false,
    }
}

/// Ends all transactions.
pub(crate) fn end_every(mut txns: Vec<OpenTxn>, cache: &mut BlockCache)
    requires { AreOpenIn cache.old txns.items }
{
    while let Some(
        OpenTxn {
            number: _,
            set: _,
            txn,
        },
    ) = txns.pop()
    {
        txn.end(cache);
    }
    txns.destroy_empty();
}

/// Adds a transaction, for which there is room.
pub(crate) fn push_txn(txns: &mut Vec<OpenTxn>, txn: OpenTxn)
    requires { vec_len txns.old < vec_capacity txns.old }
    ensures { txns.new.items ≡ txns.old.items ++ txn ∷ [] }
{
    match txns.push(txn) {
        Ok(()) => (),
        Err(_) => unreachable!(),
    }
}

/// Brings the block of an id into the cache, whose blocks have `block` bytes.
pub(crate) fn fetch_in<S: Store>(
    alloc: Global,
    store: &mut S,
    txns: &[OpenTxn],
    cache: &mut BlockCache,
    id: Id16,
    block: u32,
) -> Fetched
    requires are_open { AreOpenIn cache.old txns.now }
    requires block { cache.old.block ≡ block }
    ensures fetches { BlockFetches (slot_of id cache.old.entries) (has_room cache.old) S.told
        (S.shown store.old) (S.shown store.new) id cache.old result cache.new }
    ensures are_open { AreOpenIn cache.new txns.now }
    ensures size { SameSize cache.old cache.new }
    ensures reached { S.reaches store.old store.new }
{
    let _ = txns;
    fetch(alloc, store, cache, id, block)
}

/// Makes the next request of an upload, over the cache.
pub(crate) fn upload_in<S: Store, N: Names>(
    alloc: Global,
    store: &mut S,
    names: &mut N,
    task: &mut Upload,
    seen: &Seen,
    pages: &PageSet,
    txns: &[OpenTxn],
    cache: &mut BlockCache,
) -> Work
    requires running { IsRunning task.old }
    requires not_ready { is_ready task.old ≡ false }
    requires view { HoldsView pages.now task.old }
    requires seen { seen.now.block ≡ Some task.old.base.block }
    requires are_open { AreOpenIn cache.old txns.now }
    requires block { cache.old.block ≡ task.old.base.block }
    ensures works { UploadWorks S.told seen.now (view_in pages.now task.old.base)
        (record { store = S.shown store.old; names = N.shown names.old; upload = task.old }) result
        (record { store = S.shown store.new; names = N.shown names.new; upload = task.new })
        cache.old cache.new }
    ensures are_open { AreOpenIn cache.new txns.now }
    ensures size { SameSize cache.old cache.new }
    ensures running { IsRunning task.new }
    ensures reached { S.reaches store.old store.new }
{
    let _ = txns;
    let _ = cache.room();
    task.work(alloc, store, names, seen, pages, cache)
}
