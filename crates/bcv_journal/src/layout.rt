// The bytes of a journal's file.
ghost use Rattle.std.specs.Prelude.{◌≡◌, ◌↔◌, ◌<◌, ◌≤◌, ◌+◌, ◌^◌, ◌++◌, [], ◌∷◌, List, ℕ, length, IfOk, IfErr, IsTrue, OnOk, MatchOption, Result, Ok, take};
ghost use Rattle.std.specs.Int.{w32, to_be_bytes};
ghost use Rattle.std.specs.List.{AllByRecursion};
ghost use Rattle.bcv_journal.specs.Layout.{EndsAt, HasItem, IsItem, Loads, area_of, field_of, magic, open_item, start_in};
ghost use Rattle.bcv_journal.specs.Moved.{selector_of};
ghost use Rattle.bcv_journal.specs.Settled.{items_of};
ghost use Rattle.bcv_journal.specs.Reading.{IsRead, IsReadFault, IsShut};

use crate::JournalFault;
use crate::area::Area;
use std::alloc::{AllocError, Global};

pub const MAGIC: [u8; 8] = *b"BCVJRN02";

/// The place of the selector.
pub const SELECTOR: u64 = 8;

/// An empty journal: the magic, selector 0, the starts 17 and 0, a closed gate.
pub const EMPTY: [u8; 18] = *b"BCVJRN02\0\0\0\0\x11\0\0\0\0\0";

/// A file loads as one thing: as one list of items, or as no journal for one place.
pub fn loads_once()
    ensures { (bytes : List ℕ) (a b : Result (List (List ℕ)) ℕ) → Loads bytes a → Loads bytes b
        → a ≡ b }
{}

/// What ends at a tail loads so, and with one tail alone.
pub fn tail_once()
    ensures loads { (bytes : List ℕ) (items : List (List ℕ)) (tail : ℕ) → EndsAt bytes items tail
        → Loads bytes (Ok items) }
    ensures once { (bytes : List ℕ) (items : List (List ℕ)) (tail other : ℕ)
        → EndsAt bytes items tail → EndsAt bytes items other → tail ≡ other }
{}

fn has_magic(bytes: &[u8]) -> bool
    requires { 8 ≤ length bytes.now }
    ensures { IsTrue result ↔ (take 8 bytes.now ≡ magic) }
{
    &bytes[..8] == MAGIC.as_slice()
}

/// The place of start 0 or of start 1 in the head.
pub fn start_field(second: bool) -> u64
    ensures { result ≡ field_of second }
{
    if second { 13 } else { 9 }
}

/// The selector that chooses start 1, or start 0.
pub fn selector(second: bool) -> u8
    ensures { result ≡ selector_of second }
{
    if second { 1 } else { 0 }
}

/// The start that is chosen in the head of a file.
fn chosen_start(bytes: &[u8], second: bool) -> usize
    requires { 17 ≤ length bytes.now }
    ensures { result ≡ start_in bytes.now second }
{
    let at = start_field(second) as usize;
    let mut field = [0; 4];
    field.copy_from_slice(&bytes[at..at + 4]);
    u32::from_be_bytes(field) as usize
}

/// What stands after the gate at the front, where it is open.
fn after_gate(rest: &[u8]) -> Option<&[u8]>
    ensures { MatchOption result (IsShut rest.now) (λ after. rest.now ≡ 1 ∷ after.now) }
{
    match rest {
        [1, after @ ..] => Some(after),
        _ => None,
    }
}

/// What stands after an open gate: a whole item, and after it at least a gate.
fn front_item(after: &[u8]) -> Option<(&[u8], &[u8])>
    ensures { MatchOption result ((item next : List ℕ) → HasItem after.now item next
        → ⊥) (λ r. HasItem after.now r.0.now r.1.now) }
{
    let (size, rest) = after.split_first_chunk::<4>()?;
    let size = u32::from_be_bytes(*size) as usize;
    if size == 0 || rest.len() <= size {
        return None;
    }
    Some(rest.split_at(size))
}

/// The items of a file that is longer than an empty journal, and where they stand.
pub fn read_items(alloc: Global, bytes: &[u8]) -> Result<(Vec<Vec<u8>>, Area), JournalFault>
    requires long { 18 < length bytes.now }
    requires short { length bytes.now ≤ 2 ^ 31 }
    ensures items { IfOk result (λ r. IsRead bytes.now r.1 (items_of r.0.items)) }
    ensures fault { IfErr result (IsReadFault bytes.now) }
{
    if !has_magic(bytes) {
        return Err(JournalFault::NotJournal(0));
    }
    let second = bytes[8] == 1;
    let start = chosen_start(bytes, second);
    if start < 17 || bytes.len() <= start {
        return Err(JournalFault::NotJournal(start_field(second)));
    }
    let mut items = Vec::new(alloc);
    let mut rest = &bytes[start..];
    while let Some(after) = after_gate(rest) {
        let Some((item, next)) = front_item(after) else {
            return Err(JournalFault::NotJournal((bytes.len() - rest.len()) as u64));
        };
        items.push(item.to_vec(alloc)?)?;
        rest = next;
    }
    let area = Area {
        start: start as u64,
        tail: (bytes.len() - rest.len()) as u64,
        second,
    };
    Ok((items, area))
}

/// An item as it is written after the closed gate at the tail: length, bytes, and a closed gate.
pub fn behind_gate(alloc: Global, item: &[u8]) -> Result<Vec<u8>, AllocError>
    requires { length item.now < 2 ^ 32 }
    ensures { IfOk result (λ v. v.items ≡ to_be_bytes w32 (length item.now) ++ item.now ++ 0 ∷ []) }
{
    let mut bytes = Vec::with_capacity(alloc, item.len() + 5)?;
    bytes.extend_from_slice(&(item.len() as u32).to_be_bytes())?;
    bytes.extend_from_slice(item)?;
    bytes.push(0)?;
    Ok(bytes)
}

/// An area of items: each with its open gate, and a closed gate after them.
pub fn whole_area(alloc: Global, items: &[Vec<u8>]) -> Result<Vec<u8>, AllocError>
    requires { AllByRecursion IsItem (items_of items.now) }
    ensures { IfOk result (λ v. v.items ≡ area_of (items_of items.now) ++ 0 ∷ []) }
{
    let mut bytes = Vec::new(alloc);
    let mut rest = items;
    while let [item, after @ ..] = rest {
        push_item(&mut bytes, item)?;
        rest = after;
    }
    bytes.push(0)?;
    Ok(bytes)
}

/// Adds an item with its open gate.
fn push_item(bytes: &mut Vec<u8>, item: &[u8]) -> Result<(), AllocError>
    requires { length item.now < 2 ^ 32 }
    ensures { OnOk result (bytes.new.items ≡ bytes.old.items ++ open_item item.now) }
{
    bytes.push(1)?;
    bytes.extend_from_slice(&(item.len() as u32).to_be_bytes())?;
    bytes.extend_from_slice(item)
}
