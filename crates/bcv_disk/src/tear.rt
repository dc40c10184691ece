// How a crash makes its image: the calls since the last sync are undone, and then done again with other bytes.
ghost use Rattle.std.specs.Prelude.{◌≡◌, ◌<◌, ◌≤◌, ◌+◌, ◌^◌, [], length, reverse, vec_capacity};
ghost use Rattle.bcv_disk.specs.Inside.{HoldsRecord, IsLawful, greatest, saved_of};
ghost use Rattle.bcv_disk.specs.Record.{content, image_of, torn_byte, torn_bytes};
ghost use Rattle.bcv_disk.specs.Tearing.{HasPlace, HoldsFirst, UndoneTo, redone, undone};

use crate::platter::{Act, overwrite};
use bcv_base::Seq;

/// Leaves the image of this number in the place of the bytes.
pub fn leave_image(
    bytes: &mut Vec<u8>,
    acts: &[Act],
    saved: &mut Vec<Seq<u8>>,
    image: u8,
    spare: &mut Vec<u8>,
)
    requires holds { HoldsRecord bytes.old.items (reverse acts.now) (reverse saved.old.items) }
    requires room { greatest (reverse acts.now) ≤ vec_capacity bytes.old }
    requires spare_room { greatest (reverse acts.now) ≤ vec_capacity spare.old }
    requires empty { spare.old.items ≡ [] }
    ensures bytes { bytes.new.items ≡ image_of (reverse acts.now) image }
    ensures room { vec_capacity bytes.old ≤ vec_capacity bytes.new }
    ensures spare_room { vec_capacity spare.old ≤ vec_capacity spare.new }
    ensures emptied { spare.new.items ≡ [] }
{
    if image == 1 {
        return;
    }
    let first = undo(bytes, acts, saved);
    if image != 0 {
        redo(bytes, acts, first, image, spare);
    }
}

// Undoes the calls since the last sync, and returns the place of the first of them.
fn undo(bytes: &mut Vec<u8>, acts: &[Act], saved: &mut Vec<Seq<u8>>) -> usize
    requires bytes { bytes.old.items ≡ content (reverse acts.now) }
    requires saved { reverse saved.old.items ≡ saved_of (reverse acts.now) }
    requires lawful { IsLawful (reverse acts.now) }
    requires room { greatest (reverse acts.now) ≤ vec_capacity bytes.old }
    ensures undone { UndoneTo acts.now result bytes.new.items }
    ensures room { vec_capacity bytes.old ≤ vec_capacity bytes.new }
{
    let mut rest = acts;
    while let Some(over) = saved.pop() {
        let [before @ .., act] = rest else {
            unreachable!()
        };
        step_back(bytes, act, over.items());
        rest = before;
    }
    rest.len()
}

// Undoes one call, given what it took away.
fn step_back(bytes: &mut Vec<u8>, act: &Act, over: &[u8])
    requires { HoldsFirst act.now over.now bytes.old.items (vec_capacity bytes.old) }
    ensures bytes { bytes.new.items ≡ undone act.now over.now bytes.old.items }
    ensures room { vec_capacity bytes.old ≤ vec_capacity bytes.new }
{
    match act {
        Act::Wrote(_, at, written) => {
            let at = *at as usize;
            let end = at + over.len();
            bytes[at..end].copy_from_slice(over);
            if over.len() < written.items().len() {
                bytes.truncate(end);
            }
        }
        Act::CutTo(_, _) => match bytes.extend_from_slice(over) {
            Ok(()) => {}
            Err(_) => unreachable!(),
        },
        Act::Synced(_) | Act::Crashed(_, _) => {}
    }
}

// Makes the calls from this place on again, each write with the bytes that an image from 2 on has of it.
fn redo(bytes: &mut Vec<u8>, acts: &[Act], first: usize, image: u8, spare: &mut Vec<u8>)
    requires undone { UndoneTo acts.now first bytes.old.items }
    requires lawful { IsLawful (reverse acts.now) }
    requires image { 2 ≤ image }
    requires empty { spare.old.items ≡ [] }
    requires room { greatest (reverse acts.now) ≤ vec_capacity bytes.old }
    requires spare_room { greatest (reverse acts.now) ≤ vec_capacity spare.old }
    ensures bytes { bytes.new.items ≡ image_of (reverse acts.now) image }
    ensures room { vec_capacity bytes.old ≤ vec_capacity bytes.new }
    ensures spare_room { vec_capacity spare.old ≤ vec_capacity spare.new }
    ensures emptied { spare.new.items ≡ [] }
{
    match spare.extend_from_slice(bytes) {
        Ok(()) => {}
        Err(_) => unreachable!(),
    }
    let mut rest = &acts[first..];
    while let [act, after @ ..] = rest {
        step_on(bytes, act, image, spare);
        rest = after;
    }
    spare.clear();
}

// Makes one call again.
fn step_on(bytes: &mut Vec<u8>, act: &Act, image: u8, old: &[u8])
    requires image { 2 ≤ image }
    requires place { HasPlace act.now bytes.old.items (vec_capacity bytes.old) }
    ensures bytes { bytes.new.items ≡ redone image old.now act.now bytes.old.items }
    ensures room { vec_capacity bytes.old ≤ vec_capacity bytes.new }
{
    match act {
        Act::Wrote(_, at, written) => {
            let from = *at as usize;
            let written = written.items();
            match overwrite(bytes, from, written) {
                Ok(()) => {}
                Err(_) => unreachable!(),
            }
            tear(&mut bytes[from..from + written.len()], image, old, *at);
        }
        Act::CutTo(_, len) => bytes.truncate(*len as usize),
        Act::Synced(_) | Act::Crashed(_, _) => {}
    }
}

// Gives the bytes from a place on those that an image from 2 on has of them.
fn tear(part: &mut [u8], image: u8, old: &[u8], at: u64)
    requires fits { at + length part.old < 2 ^ 64 }
    ensures { part.new ≡ torn_bytes image old.now at part.old }
{
    for i in 0..part.len() {
        part[i] = torn(part[i], image, old, at + i as u64);
    }
}

// The byte that an image has at a place where this one was written.
fn torn(byte: u8, image: u8, old: &[u8], place: u64) -> u8
    ensures { result ≡ torn_byte image old.now place byte }
{
    match image {
        2 => 0,
        3 => 255,
        _ if place % 2 == 0 && place < old.len() as u64 => old[place as usize],
        _ => byte,
    }
}
