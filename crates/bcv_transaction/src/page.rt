//! One page of a transaction, over the cache.
ghost use Rattle.std.specs.Prelude.{◌≡◌, ◌<◌, ℕ, Some};
ghost use Rattle.bcv_base.specs.Image.{Page, zeros};
ghost use Rattle.bcv_base.specs.Views.{Wrote};
ghost use Rattle.bcv_cache.specs.Cache.{KeepsEntries};
ghost use Rattle.bcv_pages.specs.Held.{CanView, view_of};
ghost use Rattle.bcv_snapshot.specs.Opened.{IsTxn, source_of};
ghost use Rattle.bcv_snapshot.specs.Pins.{HasPins, KeepsPins, pin_count};
ghost use Rattle.bcv_transaction.specs.PageCalls.{AbsentAs, FreesPage, HeldIn, HoldsPage, IsCopy, IsSlotOfPage, ReadsPage};

use crate::answers::{Came, Freed};
use bcv_base::Id16;
use bcv_cache::{BlockCache, Slot};
use bcv_pages::PageSet;
use bcv_snapshot::{Look, Place, Txn};
use std::alloc::Global;

/// Reads a page. A cached block that it lies in becomes the most recent one.
pub(crate) fn read_page(
    alloc: Global,
    txn: &Txn,
    pages: &PageSet,
    cache: &mut BlockCache,
    page: u32,
) -> Came
    requires view { CanView pages.now txn.now.base.from txn.now.base.to }
    requires block { cache.old.block ≡ txn.now.base.block }
    requires pins { HasPins txn.now.held cache.old.entries }
    ensures reads { ReadsPage txn.now (view_of pages.now txn.now.base.from txn.now.base.to)
        cache.old
        page result cache.new }
    ensures stay { KeepsEntries cache.old.entries cache.new.entries }
{
    match txn.place(pages, cache, page) {
        Place::BadPage => Came::BadPage,
        Place::Local => local_page(alloc, txn, pages, cache, page),
        Place::Zeros => zeros(alloc, txn.base().entry.page_size),
        Place::Cached(slot) => copied(alloc, txn.lend(cache, page, slot)),
        Place::Absent(id) => absent(cache, id),
    }
}

/// Holds the block of a page; of a local page nothing is held. A cached block that it lies in becomes the most recent one.
pub(crate) fn hold_page(txn: &mut Txn, pages: &PageSet, cache: &mut BlockCache, page: u32) -> Came
    requires view { CanView pages.now txn.old.base.from txn.old.base.to }
    requires block { cache.old.block ≡ txn.old.base.block }
    requires few { (slot : ℕ) → pin_count slot cache.old.entries < 4294967295 }
    ensures holds { HoldsPage txn.old (view_of pages.now txn.old.base.from txn.old.base.to)
        cache.old
        page result txn.new cache.new }
    ensures pins { KeepsPins txn.old.held cache.old.entries txn.new.held cache.new.entries }
    ensures txn { IsTxn txn.old → IsTxn txn.new }
{
    match txn.place(pages, cache, page) {
        Place::BadPage => Came::BadPage,
        Place::Local => Came::Held,
        Place::Zeros => Came::Held,
        Place::Cached(slot) => hold_cached(txn, cache, page, slot),
        Place::Absent(id) => absent(cache, id),
    }
}

/// Lets the block of a page go.
pub(crate) fn free_page(txn: &mut Txn, cache: &mut BlockCache, page: u32) -> Freed
    requires block { cache.old.block ≡ txn.old.base.block }
    requires pins { HasPins txn.old.held cache.old.entries }
    ensures frees { FreesPage txn.old cache.old page result txn.new cache.new }
    ensures pins { KeepsPins txn.old.held cache.old.entries txn.new.held cache.new.entries }
    ensures txn { IsTxn txn.old → IsTxn txn.new }
{
    if page == 0 || page > txn.size() {
        return Freed::BadPage;
    }
    if txn.free(cache, page) {
        Freed::Fine
    } else {
        Freed::NotHeld
    }
}

// Pins the block of a page in the slot where it was found.
fn hold_cached(txn: &mut Txn, cache: &mut BlockCache, page: u32, slot: Slot) -> Came
    requires block { cache.old.block ≡ txn.old.base.block }
    requires found { IsSlotOfPage txn.old.base page slot cache.old.entries }
    requires few { (slot : ℕ) → pin_count slot cache.old.entries < 4294967295 }
    ensures held { HeldIn txn.old cache.old page slot result txn.new cache.new }
    ensures pins { KeepsPins txn.old.held cache.old.entries txn.new.held cache.new.entries }
    ensures txn { IsTxn txn.old → IsTxn txn.new }
{
    match txn.hold(cache, page, slot) {
        Ok(()) => Came::Held,
        Err(_) => Came::NoMemory,
    }
}

// A page that is local.
fn local_page(alloc: Global, txn: &Txn, pages: &PageSet, cache: &BlockCache, page: u32) -> Came
    requires view { CanView pages.now txn.now.base.from txn.now.base.to }
    requires block { cache.now.block ≡ txn.now.base.block }
    requires pins { HasPins txn.now.held cache.now.entries }
    requires local { (bytes : Page)
        × (source_of txn.now.base (view_of pages.now txn.now.base.from txn.now.base.to) page ≡ Some (Wrote bytes)) }
    ensures { (bytes : Page)
        × (source_of txn.now.base (view_of pages.now txn.now.base.from txn.now.base.to) page ≡ Some (Wrote bytes))
        × IsCopy bytes result }
{
    match txn.look(pages, cache, page) {
        Look::Page(bytes) => copied(alloc, bytes),
        Look::Zeros => unreachable!(),
        Look::BadPage => unreachable!(),
        Look::NoTxn => unreachable!(),
        Look::NotHeld => unreachable!(),
    }
}

// A copy of a page's bytes.
fn copied(alloc: Global, bytes: &[u8]) -> Came
    ensures { IsCopy bytes.now result }
{
    match bytes.to_vec(alloc) {
        Ok(copy) => Came::Page(copy),
        Err(_) => Came::NoMemory,
    }
}

// A page of zeros.
fn zeros(alloc: Global, page_size: u32) -> Came
    ensures { IsCopy (zeros page_size) result }
{
    match vec![in alloc; 0u8; page_size as usize] {
        Ok(bytes) => Came::Page(bytes),
        Err(_) => Came::NoMemory,
    }
}

// The answer where a block is not in the cache.
fn absent(cache: &BlockCache, id: Id16) -> Came
    ensures { AbsentAs id cache.now result }
{
    if cache.room() {
        Came::Absent(id)
    } else {
        Came::CacheFull
    }
}
