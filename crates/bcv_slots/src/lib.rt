//! Numbered items: a list that hands out the least free number.
//!
//! A client numbers its tasks from 1, and a number is free again once its task has ended. This crate keeps such a list as a
//! vector of slots, for items of any type. It stands on std alone. It promises that a new number is the least from 1 that no
//! slot has, that a look-up finds the item of its number, that the slots which stay keep their order, and that an item which
//! was taken out can be put back without memory.
#![tactic(auto)]

ghost use Rattle.std.specs.Prelude.{◌≡◌, ◌<◌, ◌^◌, ◌++◌, ◌∷◌, [], Some, IsSome, MatchOption, length, vec_capacity, vec_len};
ghost use Rattle.std.specs.Option.{option_map};
ghost use Rattle.bcv_slots.specs.Numbered.{AreDifferent, has_number, item_at, least_free, numbers_of, other_slots, without_number};
ghost use Rattle.bcv_slots.specs.NumberLaws.{DifferWith, DifferWithout, FreeIsNone, OthersHaveNone};
ghost use Rattle.bcv_slots.specs.Places.{IsNowhere, IsPlaceOf};

/// An item under its number.
#[derive(Debug, Drop)]
pub struct Slot<T> {
    /// The number, from 1.
    pub number: u64,
    /// The item.
    pub item: T,
}

/// The least number from 1 that no slot has.
pub fn free_number<T>(slots: &[Slot<T>]) -> u64
    requires { length slots.now < 2 ^ 63 }
    ensures { least_free (numbers_of slots.now) ≡ Some result }
{
    let count = slots.len() as u64;
    for number in 1..count + 1 {
        if !has_number(slots, number) {
            return number;
        }
    }
    count + 1
}

/// The item of a number, or `None` where no slot has it.
pub fn find<T>(slots: &[Slot<T>], number: u64) -> Option<&T>
    ensures { option_map (λ x. x.now) result ≡ item_at number slots.now }
{
    for slot in slots {
        if slot.number == number {
            return Some(&slot.item);
        }
    }
    None
}

/// Takes the item of a number out, or answers `None` where no slot has it. The other slots keep their order, and there is
/// room to put the item back.
pub fn take<T>(slots: &mut Vec<Slot<T>>, number: u64) -> Option<T>
    ensures found { result ≡ item_at number slots.old.items }
    ensures others { slots.new.items ≡ without_number number slots.old.items }
    ensures only { AreDifferent (numbers_of slots.old.items)
        → slots.new.items ≡ other_slots number slots.old.items }
    ensures room { IsSome result → vec_len slots.new < vec_capacity slots.new }
{
    let Some(place) = place_of(slots, number) else {
        return None;
    };
    let Slot { number: _, item } = slots.remove(place);
    Some(item)
}

/// Puts an item last. There is room for it.
pub fn add<T: Drop>(slots: &mut Vec<Slot<T>>, number: u64, item: T)
    requires { vec_len slots.old < vec_capacity slots.old }
    ensures { slots.new.items ≡ slots.old.items ++ record { number = number; item = item } ∷ [] }
{
    match slots.push(Slot { number, item }) {
        Ok(()) => (),
        Err(_) => unreachable!(),
    }
}

/// Shows that numbers stay different, where one is taken out and where the least free one is added.
pub fn numbers_differ()
    ensures without { DifferWithout }
    ensures with { DifferWith }
    ensures free { FreeIsNone }
    ensures none { OthersHaveNone }
{}

// Whether some slot has the number.
fn has_number<T>(slots: &[Slot<T>], number: u64) -> bool
    ensures { result ≡ has_number number (numbers_of slots.now) }
{
    for slot in slots {
        if slot.number == number {
            return true;
        }
    }
    false
}

// The place of the first slot of a number.
fn place_of<T>(slots: &[Slot<T>], number: u64) -> Option<usize>
    ensures { MatchOption result (IsNowhere number slots.now) (IsPlaceOf number slots.now) }
{
    for (place, slot) in slots.iter().enumerate() {
        if slot.number == number {
            return Some(place);
        }
    }
    None
}
