//! How a new block comes in: into a free slot, or into that of the last block that no pin holds.
ghost use Rattle.std.specs.Prelude.{◌≡◌, ◌+◌, ◌^◌, ◌<◌, ◌≤◌, ◌∷◌, ◌++◌, [], None, Some, length, option_map, IfOk, IfErr, OnOk, OnErr, All, slice_set, vec_len};
ghost use Rattle.std.specs.Map.{lookup, remove_entry};
ghost use Rattle.lru.specs.LruCache.{lru_cache};
ghost use Rattle.bcv_cache.specs.Cache.{id_eq, last_unpinned};
ghost use Rattle.bcv_cache.specs.Inside.{seen, entry_at};

use crate::held::Held;
use crate::pin::Slot;
use bcv_base::Id16;
use lru::LruCache;
use std::alloc::AllocError;

/// The place of the last entry that no pin holds, looked for from the end.
pub(crate) fn last_unpinned(places: &LruCache<Id16, Slot>, slots: &[Held]) -> Option<(Id16, Slot)>
    requires { All (λ p. p.1 < length slots.now) places.now.entries }
    ensures { option_map (entry_at slots.now) result
        ≡ last_unpinned (seen slots.now places.now.entries) }
{
    let mut rest = places.iter();
    while let Some((id, slot)) = rest.next_back() {
        if slots[slot.index()].count == 0 {
            return Some((*id, *slot));
        }
    }
    None
}

// Puts a new name first. For want of memory nothing is changed.
fn put_first(places: &mut LruCache<Id16, Slot>, id: Id16, slot: Slot) -> Result<(), AllocError>
    requires absent { lookup (id_eq id) places.old.entries ≡ None }
    requires spare { length places.old.entries < places.old.cap }
    ensures ok { OnOk result (places.new ≡ lru_cache
        ((id, slot) ∷ places.old.entries) places.old.cap) }
    ensures err { OnErr result (places.new ≡ places.old) }
{
    match places.put(id, slot) {
        Ok(_) => Ok(()),
        Err(_) => Err(AllocError),
    }
}

/// Puts a block into a slot that was not in use yet. For want of memory nothing is changed, and the bytes come back.
pub(crate) fn fill_free(
    places: &mut LruCache<Id16, Slot>,
    slots: &mut Vec<Held>,
    id: Id16,
    bytes: Vec<u8>,
) -> Result<Slot, Vec<u8>>
    requires free { vec_len slots.old < 2 ^ 16 }
    requires absent { lookup (id_eq id) places.old.entries ≡ None }
    requires spare { length places.old.entries < places.old.cap }
    ensures slot { IfOk result (λ s. s ≡ vec_len slots.old) }
    ensures places { IfOk result (λ s. places.new
        ≡ lru_cache ((id, s) ∷ places.old.entries) places.old.cap) }
    ensures slots { IfOk result (λ _. slots.new.items
        ≡ slots.old.items ++ record { id = id; count = 0; bytes = bytes } ∷ []) }
    ensures back { IfErr result (λ b. b ≡ bytes) }
    ensures same_places { IfErr result (λ _. places.new ≡ places.old) }
    ensures same_slots { IfErr result (λ _. slots.new.items ≡ slots.old.items) }
{
    let slot = Slot(slots.len() as u16);
    if put_first(places, id, slot).is_err() {
        return Err(bytes);
    }
    match slots.push(Held {
        id,
        count: 0,
        bytes,
    }) {
        Ok(()) => Ok(slot),
        Err(refused) => {
            places.pop(&id);
            let Held {
                id: _,
                count: _,
                bytes,
            } = refused.value;
            Err(bytes)
        }
    }
}

/// Puts a block into the slot of another one, which goes. For want of memory nothing is changed, and the bytes come back.
pub(crate) fn fill_used(
    places: &mut LruCache<Id16, Slot>,
    slots: &mut Vec<Held>,
    old: (Id16, Slot),
    id: Id16,
    bytes: Vec<u8>,
) -> Result<Slot, Vec<u8>>
    requires used { old.1 < vec_len slots.old }
    requires absent { lookup (id_eq id) places.old.entries ≡ None }
    requires spare { length places.old.entries < places.old.cap }
    ensures slot { IfOk result (λ s. s ≡ old.1) }
    ensures places { IfOk result (λ s. places.new
        ≡ lru_cache (remove_entry (id_eq old.0) ((id, s) ∷ places.old.entries)) places.old.cap) }
    ensures slots { IfOk result (λ s. slots.new.items
        ≡ slice_set slots.old.items s (record { id = id; count = 0; bytes = bytes })) }
    ensures back { IfErr result (λ b. b ≡ bytes) }
    ensures same_places { IfErr result (λ _. places.new ≡ places.old) }
    ensures same_slots { IfErr result (λ _. slots.new.items ≡ slots.old.items) }
{
    let (old_id, slot) = old;
    if put_first(places, id, slot).is_err() {
        return Err(bytes);
    }
    places.pop(&old_id);
    slots[slot.index()] = Held {
        id,
        count: 0,
        bytes,
    };
    Ok(slot)
}
