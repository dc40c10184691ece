ghost use Rattle.std.specs.Prelude.{◌≡◌, ◌≢◌, ℕ, ◌+◌, ◌<◌, ◌≤◌, false, List, length, take, drop};
ghost use Rattle.std.specs.Io.KnownBytes.{Consumes, IsAtEnd};
ghost use Rattle.bcv_base.specs.Faults.{Rose};
ghost use Rattle.bcv_base.specs.Streams.{Takes, TakeCause, is_end};
ghost use Rattle.bcv_commands.specs.Filling.{Fills, Drains};

use bcv_base::{Source, Took};

// The most bytes of a database file.
const MOST_OF_FILE: u64 = 268_435_456;

// Whether a slice was filled: or with how many bytes in front the input ended, or how it was stopped.
#[derive(Clone, Copy, Debug, PartialEq, Eq)]
pub enum Filled {
    Full,
    Ended(usize),
    TooLong,
    Failed,
}

// How the rest of an input was taken.
#[derive(Clone, Copy, Debug, PartialEq, Eq)]
pub enum Drained {
    Ended,
    TooLong,
    Failed,
}

// Takes bytes until the slice is full, after so many bytes of the input.
pub fn fill<I: Source>(input: &mut I, slice: &mut [u8], before: u64) -> Filled
    requires unended { I.ended input.old ≡ false }
    requires within { before ≤ 268435456 }
    ensures goes_on { result ≡ Filled.Full → I.ended input.new ≡ false }
    ensures bytes { Fills result before (I.left input.old) (I.left input.new) slice.new }
    ensures len { length slice.new ≡ length slice.old }
    ensures later { I.faults input.old ≤ I.faults input.new }
    ensures cause { result ≡ Filled.Failed → Rose (I.faults input.old) (I.faults input.new) }
{
    let mut count = 0;
    'filling: while count < slice.len() {
        match take_at(input, slice, count) {
            Took::Some(more) => {
                count += more;
                if before + count as u64 > MOST_OF_FILE {
                    return Filled::TooLong;
                }
            }
            Took::End => return Filled::Ended(count),
            Took::Failed => return Filled::Failed,
        }
    }
    Filled::Full
}

// Takes bytes into a slice from a place on.
fn take_at<I: Source>(input: &mut I, slice: &mut [u8], at: usize) -> Took
    requires unended { I.ended input.old ≡ false }
    requires room { at < length slice.old }
    ensures bytes { Takes (I.left input.old) (I.left input.new) result (drop at slice.new) }
    ensures front { take at slice.new ≡ take at slice.old }
    ensures len { length slice.new ≡ length slice.old }
    ensures ends { I.ended input.new ≡ is_end result }
    ensures cause { TakeCause (I.faults input.old) (I.faults input.new) result }
{
    input.take(&mut slice[at..])
}

// Takes bytes until the slice is full from a place on, after so many bytes of the input.
pub fn fill_from<I: Source>(input: &mut I, slice: &mut [u8], at: usize, before: u64) -> Filled
    requires unended { I.ended input.old ≡ false }
    requires within { before ≤ 268435456 }
    requires room { at ≤ length slice.old }
    ensures goes_on { result ≡ Filled.Full → I.ended input.new ≡ false }
    ensures bytes { Fills result before (I.left input.old) (I.left input.new) (drop at slice.new) }
    ensures front { take at slice.new ≡ take at slice.old }
    ensures len { length slice.new ≡ length slice.old }
    ensures later { I.faults input.old ≤ I.faults input.new }
    ensures cause { result ≡ Filled.Failed → Rose (I.faults input.old) (I.faults input.new) }
{
    fill(input, &mut slice[at..], before)
}

// Takes the rest of an input after so many bytes of it.

pub fn drain<I: Source>(input: &mut I, before: u64) -> Drained
    requires unended { I.ended input.old ≡ false }
    requires within { before ≤ 268435456 }
    ensures bytes { Drains result before (I.left input.old) (I.left input.new) }
    ensures later { I.faults input.old ≤ I.faults input.new }
    ensures cause { result ≡ Drained.Failed → Rose (I.faults input.old) (I.faults input.new) }
{
    let mut room = [0; 512];
    let mut length = before;
    'draining: loop {
        match fill(input, &mut room, length) {
            Filled::Full => length += 512,
            Filled::Ended(_count) => return Drained::Ended,
            Filled::TooLong => return Drained::TooLong,
            Filled::Failed => return Drained::Failed,
        }
    }
}
