//! The cache and its calls.
ghost use Rattle.std.specs.Prelude.{◌≡◌, ℕ, ◌/◌, ◌^◌, ◌<◌, [], true, map, min, IfOk, IfErr, IfSome, IfNone, OnErr, option_map, vec_len};
ghost use Rattle.bcv_cache.specs.Cache.{slot_of, found_first, has_room, filled, counted_up, counted_down, entry_in, IsInUse, IsPinnable, IsHeld, IsCache, IsSlotOf, KeepsEntries, KeepsPinned, pin_on};

use crate::fill::{fill_free, fill_used, last_unpinned};
use crate::held::Held;
use crate::pin::{Pin, Slot};
use bcv_base::Id16;
use lru::LruCache;
use std::alloc::{AllocError, Global};
use std::marker::Model;
use std::num::NonZeroUsize;

/// The most bytes that the slots of a cache take together.
const MOST_BYTES: u32 = 1 << 30;

/// Blocks of one length, the most recently found or filled first.
#[derive(Drop)]
pub struct BlockCache {
    places: LruCache<Id16, Slot>,
    slots: Vec<Held>,
    most: u16,
    block: u32,
}

impl Model for BlockCache {
    ghost use Rattle.bcv_cache.specs.Entry.{Blocks};

    ghost Value = { Blocks };

    ghost use Rattle.bcv_cache.specs.Inside.{seen, IsSound};

    ghost view = { λ c. record { entries = seen c.slots.items c.places.entries; most = c.most; block = c.block } };

    ghost invariant = { λ c. IsSound c.slots.items c.places.entries c.places.cap c.most c.block };
}

impl BlockCache {
    /// An empty cache of blocks of `block` bytes, for as many as `slots` and at most 2^30 bytes of them. A slot takes
    /// memory when it is filled.
    pub fn new(alloc: Global, slots: u16, block: u32) -> Result<BlockCache, AllocError>
        requires { 0 < block }
        ensures empty { IfOk result (λ c. c ≡ record {
          entries = [];
          most = min slots (2 ^ 30 / block);
          block = block;
        }) }
        ensures cache { IfOk result IsCache }
    {
        let most = u32::from(slots).min(MOST_BYTES / block) as u16;
        let spare = NonZeroUsize::MIN.saturating_add(usize::from(most));
        Ok(BlockCache {
            places: LruCache::sparse(alloc, spare)?,
            slots: Vec::new(alloc),
            most,
            block,
        })
    }

    /// The slot of a block that is there, which becomes the most recent one.
    pub fn find(&mut self, id: &Id16) -> Option<Slot>
        ensures slot { result ≡ slot_of id.now self.old.entries }
        ensures entries { self.new ≡ record self.old { entries = found_first id.now self.old.entries } }
        ensures same { IfNone result (self.new ≡ self.old) }
        ensures entry { IfSome result (λ slot. IsSlotOf slot id.now self.new.entries) }
        ensures stay { KeepsEntries self.old.entries self.new.entries }
        ensures cache { IsCache self.new }
    {
        let slot = self.places.peek(id).copied();
        self.places.promote(id);
        slot
    }

    /// Whether one more block can come in.
    pub fn room(&self) -> bool
        ensures room { result ≡ has_room self.now }
        ensures cache { IsCache self.now }
    {
        self.slots.len() < usize::from(self.most)
            || last_unpinned(&self.places, &self.slots).is_some()
    }

    /// Puts a block of the cache's length in, which becomes the most recent one. Where no slot is free, the last block
    /// that no pin holds goes. For want of memory the bytes come back, and the cache is as it was.
    pub fn fill(&mut self, _alloc: Global, id: Id16, bytes: Vec<u8>) -> Result<Slot, Vec<u8>>
        requires room { has_room self.old ≡ true }
        requires absent { slot_of id self.old.entries ≡ None }
        requires whole { vec_len bytes ≡ self.old.block }
        ensures filled { IfOk result (λ slot. self.new ≡ filled slot id bytes.items self.old) }
        ensures entry { IfOk result (λ slot. IsSlotOf slot id self.new.entries) }
        ensures pinnable { IfOk result (λ slot. IsPinnable slot self.new.entries) }
        ensures pinned_stay { KeepsPinned self.old.entries self.new.entries }
        ensures back { IfErr result (λ b. b ≡ bytes) }
        ensures same { OnErr result (self.new ≡ self.old) }
        ensures cache { IsCache self.new }
    {
        if self.slots.len() < usize::from(self.most) {
            return fill_free(&mut self.places, &mut self.slots, id, bytes);
        }
        match last_unpinned(&self.places, &self.slots) {
            Some(old) => fill_used(&mut self.places, &mut self.slots, old, id, bytes),
            None => unreachable!(),
        }
    }

    /// Holds the entry of a slot. It stays, with its bytes, until the pin is given to `unpin`.
    pub fn pin(&mut self, slot: Slot) -> Pin
        requires { IsPinnable slot self.old.entries }
        ensures pin { option_map pin_on (entry_in slot self.old.entries) ≡ Some result }
        ensures entries { self.new ≡ record self.old { entries = map (counted_up slot) self.old.entries } }
        ensures slots { (k : ℕ) → entry_in k self.new.entries
            ≡ option_map (counted_up slot) (entry_in k self.old.entries) }
        ensures held { IsHeld result self.new.entries }
        ensures cache { IsCache self.new }
    {
        let held = &mut self.slots[slot.index()];
        held.count += 1;
        Pin { slot, id: held.id }
    }

    /// Gives a pin back.
    pub fn unpin(&mut self, pin: Pin)
        requires { IsHeld pin self.old.entries }
        ensures entries { self.new ≡ record self.old { entries = map (counted_down pin.slot) self.old.entries } }
        ensures slots { (k : ℕ) → entry_in k self.new.entries
            ≡ option_map (counted_down pin.slot) (entry_in k self.old.entries) }
        ensures cache { IsCache self.new }
    {
        let Pin { slot, id: _ } = pin;
        self.slots[slot.index()].count -= 1;
    }

    /// The bytes of a pinned block, which are lent and not copied.
    pub fn bytes(&self, pin: &Pin) -> &[u8]
        requires { IsHeld pin.now self.now.entries }
        ensures bytes { option_map (λ e. e.bytes) (entry_in pin.now.slot self.now.entries)
            ≡ Some result.now }
        ensures cache { IsCache self.now }
    {
        &self.slots[pin.slot.index()].bytes
    }
    /// The bytes of the block in a slot that is in use, lent without a pin and without a copy.
    pub fn lend(&self, slot: Slot) -> &[u8]
        requires { IsInUse slot self.now.entries }
        ensures bytes { option_map (λ e. e.bytes) (entry_in slot self.now.entries)
            ≡ Some result.now }
        ensures cache { IsCache self.now }
    {
        &self.slots[slot.index()].bytes
    }
}
