//! The calls of a transaction.
ghost use Rattle.std.specs.Prelude.{
  ◌≡◌,
  ◌<◌,
  ◌≤◌,
  true,
  [],
  ◌∷◌,
  ◌++◌,
  map,
  length,
  vec_len,
  vec_capacity,
  option_map,
  Some,
  IsSomeAnd,
};
ghost use Rattle.std.specs.List.{position};
ghost use Rattle.bcv_base.specs.ManifestRules.{MeetsEntryRules, is_block_size};
ghost use Rattle.bcv_base.specs.Views.{view_size};
ghost use Rattle.bcv_cache.specs.Cache.{IsCache, IsInUse, IsSlotOf, IsPinnable, KeepsEntries};
ghost use Rattle.bcv_pages.specs.Found.{shown};
ghost use Rattle.bcv_pages.specs.Held.{CanView, view_of};
ghost use Rattle.bcv_snapshot.specs.Opened.{
  IsTxn,
  block_id,
  has_block_number,
  is_held,
  number_of,
  page_bytes,
  source_of,
};
ghost use Rattle.bcv_snapshot.specs.Pins.{given_back, HasPins, KeepsPins};
ghost use Rattle.bcv_snapshot.specs.TxnCalls.{
  IsCachedOrAbsent,
  IsPageIn,
  LooksHeld,
  TxnFrees,
  TxnHolds,
  TxnLooks,
  TxnPlaces,
};

use crate::held_block::HeldBlock;
use crate::look::Look;
use crate::place::Place;
use bcv_base::{Id16, TxnBase};
use bcv_cache::{BlockCache, Slot};
use bcv_pages::{PageAt, PageSet};
use std::alloc::{AllocError, Global};
use std::marker::Model;

/// A transaction that reads one image: that of its base with the local commits which were there when it began. It may
/// hold blocks of the base in the cache. It cannot be dropped: `end` gives its pins back.
pub struct Txn {
    base: TxnBase,
    size: u32,
    held: Vec<HeldBlock>,
}

impl Model for Txn {
    ghost use Rattle.bcv_snapshot.specs.Opened.{Opened, IsTxn};

    ghost Value = { Opened };

    ghost view = { λ t. record { base = t.base; size = t.size; held = t.held.items } };

    ghost invariant = { λ t. IsTxn (record { base = t.base; size = t.size; held = t.held.items }) };
}

impl Txn {
    /// Begins a transaction over a base whose commits are in `pages`. It holds no block.
    pub fn begin(alloc: Global, base: TxnBase, pages: &PageSet) -> Txn
        requires view { CanView pages.now base.from base.to }
        requires entry { MeetsEntryRules base.block base.entry }
        requires block { is_block_size base.block ≡ true }
        requires page_size { pages.now.page_size ≡ base.entry.page_size }
        ensures begun { result ≡ record {
          base = base;
          size = view_size base.entry.pages (view_of pages.now base.from base.to);
          held = [];
        } }
        ensures txn { IsTxn result }
    {
        Txn {
            size: pages.size(base.entry.pages, base.from, base.to),
            base,
            held: Vec::new(alloc),
        }
    }

    /// What the transaction reads from.
    pub fn base(&self) -> &TxnBase
        ensures base { result.now ≡ self.now.base }
        ensures txn { IsTxn self.now }
    {
        &self.base
    }

    /// How many pages its image has.
    pub fn size(&self) -> u32
        ensures { result ≡ self.now.size }
    {
        self.size
    }

    /// Where a page is. A cached block that it lies in becomes the most recent one.
    pub fn place(&self, pages: &PageSet, cache: &mut BlockCache, page: u32) -> Place
        requires view { CanView pages.now self.now.base.from self.now.base.to }
        requires block { cache.old.block ≡ self.now.base.block }
        ensures places { TxnPlaces self.now (view_of pages.now self.now.base.from self.now.base.to)
            cache.old page result
            cache.new }
        ensures stay { KeepsEntries cache.old.entries cache.new.entries }
        ensures cache { IsCache cache.old → IsCache cache.new }
        ensures same_block { cache.new.block ≡ cache.old.block }
    {
        match self.page_at(pages, page) {
            None => Place::BadPage,
            Some(PageAt::Local(_)) => Place::Local,
            Some(PageAt::Zeros) => Place::Zeros,
            Some(PageAt::Base) => cached(cache, self.block_id(page)),
        }
    }

    /// Pins the block of a page of the base in its slot, unless this transaction holds the block already.
    pub fn hold(&mut self, cache: &mut BlockCache, page: u32, slot: Slot) -> Result<(), AllocError>
        requires block { cache.old.block ≡ self.old.base.block }
        requires first { 1 ≤ page }
        requires last { page ≤ self.old.base.entry.pages }
        requires entry { IsSomeAnd (block_id self.old.base page)
            (λ id. IsSlotOf slot id cache.old.entries) }
        requires pinnable { IsPinnable slot cache.old.entries }
        ensures holds { TxnHolds (is_held self.old page) self.old cache.old page slot result
            self.new cache.new }
        ensures pins { KeepsPins self.old.held cache.old.entries self.new.held cache.new.entries }
        ensures txn { IsTxn self.new }
        ensures fixed { self.new ≡ record self.old { held = self.new.held } }
        ensures same_block { cache.new.block ≡ cache.old.block }
    {
        let number = self.block_of(page);
        if place_of(&self.held, number).is_some() {
            return Ok(());
        }
        self.held.reserve(1)?;
        let pin = cache.pin(slot);
        push_held(&mut self.held, HeldBlock { number, pin });
        Ok(())
    }

    /// The bytes of a page, lent by the commits or by the held block. Nothing is copied, and no request is made.
    pub fn look<'a>(&'a self, pages: &'a PageSet, cache: &'a BlockCache, page: u32) -> Look<'a>
        requires view { CanView pages.now self.now.base.from self.now.base.to }
        requires block { cache.now.block ≡ self.now.base.block }
        requires pins { HasPins self.now.held cache.now.entries }
        ensures { TxnLooks self.now (view_of pages.now self.now.base.from self.now.base.to)
            cache.now page result }
    {
        match self.page_at(pages, page) {
            None => Look::BadPage,
            Some(PageAt::Local(bytes)) => Look::Page(bytes),
            Some(PageAt::Zeros) => Look::Zeros,
            Some(PageAt::Base) => self.held_page(cache, page),
        }
    }

    /// The bytes of a page of the base, lent without a pin by the cached block of this slot, where `place` found it.
    pub fn lend<'a>(&self, cache: &'a BlockCache, page: u32, slot: Slot) -> &'a [u8]
        requires block { cache.now.block ≡ self.now.base.block }
        requires entry { IsInUse slot cache.now.entries }
        ensures { IsPageIn self.now.base cache.now slot page result.now }
    {
        self.page_bytes(cache.lend(slot), page)
    }

    /// Gives the pin of a page's block back, and answers whether the block was held. It goes by the block: the page may be
    /// local.
    pub fn free(&mut self, cache: &mut BlockCache, page: u32) -> bool
        requires block { cache.old.block ≡ self.old.base.block }
        requires pins { HasPins self.old.held cache.old.entries }
        ensures frees { TxnFrees self.old cache.old page result self.new cache.new }
        ensures pins { KeepsPins self.old.held cache.old.entries self.new.held cache.new.entries }
        ensures txn { IsTxn self.new }
        ensures fixed { self.new ≡ record self.old { held = self.new.held } }
        ensures same_block { cache.new.block ≡ cache.old.block }
    {
        let number = self.block_of(page);
        if page == 0 {
            return false;
        }
        match place_of(&self.held, number) {
            Some(at) => {
                let HeldBlock { number: _, pin } = self.held.remove(at);
                cache.unpin(pin);
                true
            }
            None => false,
        }
    }

    /// Gives all its pins back.
    pub fn end(self, cache: &mut BlockCache)
        requires block { cache.old.block ≡ self.base.block }
        requires pins { HasPins self.held cache.old.entries }
        ensures entries { cache.new ≡ record cache.old { entries = map (given_back self.held) cache.old.entries } }
        ensures pins { KeepsPins self.held cache.old.entries [] cache.new.entries }
    {
        let Txn {
            base: _,
            size: _,
            held,
        } = self;
        give_back(held, cache);
    }

    // What the view has at a page, if there is such a page.
    fn page_at<'a>(&self, pages: &'a PageSet, page: u32) -> Option<PageAt<'a>>
        requires { CanView pages.now self.now.base.from self.now.base.to }
        ensures { option_map shown result
            ≡ source_of self.now.base (view_of pages.now self.now.base.from self.now.base.to) page }
    {
        let base = &self.base;
        if page == 0 || page > pages.size(base.entry.pages, base.from, base.to) {
            return None;
        }
        Some(pages.find(base.entry.pages, base.from, base.to, page))
    }

    // The number of a page's block, from 0.
    fn block_of(&self, page: u32) -> u32
        ensures number { result ≡ number_of self.now.base page }
        ensures txn { IsTxn self.now }
    {
        page.saturating_sub(1) / (self.base.block / self.base.entry.page_size)
    }

    // The id of the block of a page of the base.
    fn block_id(&self, page: u32) -> Id16
        requires first { 1 ≤ page }
        requires last { page ≤ self.now.base.entry.pages }
        ensures { block_id self.now.base page ≡ Some result }
    {
        self.base.entry.blocks.items()[self.block_of(page) as usize]
    }

    // The bytes of a page of the base in its block, if the block is held.
    fn held_page<'a>(&'a self, cache: &'a BlockCache, page: u32) -> Look<'a>
        requires block { cache.now.block ≡ self.now.base.block }
        requires pins { HasPins self.now.held cache.now.entries }
        ensures { LooksHeld self.now cache.now page result }
    {
        match place_of(&self.held, self.block_of(page)) {
            Some(at) => Look::Page(self.page_bytes(cache.bytes(&self.held[at].pin), page)),
            None => Look::NotHeld,
        }
    }

    // The bytes of a page in those of its block.
    fn page_bytes<'a>(&self, block: &'a [u8], page: u32) -> &'a [u8]
        requires whole { length block.now ≡ self.now.base.block }
        ensures { result.now ≡ page_bytes self.now.base page block.now }
    {
        let page_size = self.base.entry.page_size as usize;
        let place = page.saturating_sub(1) % (self.base.block / self.base.entry.page_size);
        let start = place as usize * page_size;
        &block[start..start + page_size]
    }
}

// Where a block stands among those that are held.
fn place_of(held: &[HeldBlock], number: u32) -> Option<usize>
    ensures { result ≡ position (has_block_number number) held.now }
{
    held.iter().position(|block| block.number == number)
}

// Where a block of the base is, by its id.
fn cached(cache: &mut BlockCache, id: Id16) -> Place
    ensures answer { IsCachedOrAbsent id cache.old result cache.new }
    ensures stay { KeepsEntries cache.old.entries cache.new.entries }
    ensures cache { IsCache cache.new }
    ensures same_block { cache.new.block ≡ cache.old.block }
{
    match cache.find(&id) {
        Some(slot) => Place::Cached(slot),
        None => Place::Absent(id),
    }
}

// Adds a held block, for which there is room.
fn push_held(held: &mut Vec<HeldBlock>, block: HeldBlock)
    requires { vec_len held.old < vec_capacity held.old }
    ensures { held.new.items ≡ held.old.items ++ block ∷ [] }
{
    match held.push(block) {
        Ok(()) => (),
        Err(_) => unreachable!(),
    }
}

// Gives the pins of held blocks back.
fn give_back(mut held: Vec<HeldBlock>, cache: &mut BlockCache)
    requires { HasPins held.items cache.old.entries }
    ensures { cache.new ≡ record cache.old { entries = map (given_back held.items) cache.old.entries } }
{
    while let Some(HeldBlock { number: _, pin }) = held.pop() {
        cache.unpin(pin);
    }
    held.destroy_empty();
}
