ghost use Rattle.std.specs.Prelude.{◌≡◌, ◌≤◌, ℕ, false, List, length, Err};
ghost use Rattle.std.specs.Io.KnownBytes.{Consumes, IsAtEnd};
ghost use Rattle.bcv_base.specs.Faults.{Rose};
ghost use Rattle.bcv_commands.specs.Pairs.{ReadsPairs};
ghost use Rattle.bcv_commands.specs.PairLines.{TakesPair};
ghost use Rattle.bcv_commands.specs.declared.pairs.PairsFault.TheVariants.{NoMemory};

use bcv_base::{Seq, Source};
use bcv_lines::{Lines, Next};
use bcv_script::{LineFault, read_pair};
use std::alloc::{AllocError, AllocFailed, Global};

/// Why an input gave no pairs.
#[derive(Clone, Copy, Debug, PartialEq, Eq)]
pub enum PairsFault {
    /// A line is no pair, or its page's number isn't above the one before it: the line, counted from 1, and the place in it.
    BadScript { line: u64, at: u32 },
    /// A line has more than 1,048,576 bytes without its newline, or the input more than 67,108,864.
    TooLong,
    ReadFault,
    NoMemory,
}

impl From<AllocError> for PairsFault {
    ghost from_gives = { λ _ e. e ≡ NoMemory };

    fn from(_fault: AllocError) -> PairsFault {
        PairsFault::NoMemory
    }
}

impl<T: Drop> From<AllocFailed<T>> for PairsFault {
    ghost from_gives = { λ _ e. e ≡ NoMemory };

    fn from(_fault: AllocFailed<T>) -> PairsFault {
        PairsFault::NoMemory
    }
}

/// Reads the lines `P=TEXT` of a commit to the end of the input: the numbers of pages, ascending, each with the bytes that its
/// text writes, none for `-`. The first line that is none ends it, and so no more of the input is read than up to there.
pub fn read_pairs<I: Source>(
    alloc: Global,
    input: &mut I,
) -> Result<Seq<(u32, Seq<u8>)>, PairsFault>
    requires unended { I.ended input.old ≡ false }
    ensures read { (taken : List ℕ) × Consumes (I.left input.old) (I.left input.new) taken
        × ReadsPairs result taken (IsAtEnd (I.left input.new)) }
    ensures later { I.faults input.old ≤ I.faults input.new }
    ensures cause { result ≡ Err PairsFault.ReadFault
        → Rose (I.faults input.old) (I.faults input.new) }
{
    let mut reader = Lines::new(alloc)?;
    let mut pairs = Vec::new(alloc);
    let mut after = 0;
    'lines: loop {
        match reader.next(input) {
            Next::Line => {
                let line = reader.line.as_slice();
                let page = add_pair(alloc, after, line, &mut pairs)?;
                after = page;
            }
            Next::Last => {
                let last = reader.line.as_slice();
                let _page = add_pair(alloc, after, last, &mut pairs)?;
                return Ok(Seq::of(pairs));
            }
            Next::End => return Ok(Seq::of(pairs)),
            Next::TooLong => return Err(PairsFault::TooLong),
            Next::ReadFault => return Err(PairsFault::ReadFault),
            Next::NoMemory => return Err(PairsFault::NoMemory),
        }
    }
}

// Adds the pair that a line writes, and returns its page's number.
fn add_pair(
    alloc: Global,
    after: u32,
    line: &[u8],
    pairs: &mut Vec<(u32, Seq<u8>)>,
) -> Result<u32, PairsFault>
    requires short { length line.now ≤ 1048576 }
    requires few { length pairs.old.items ≤ 67108864 }
    ensures { TakesPair result after line.now pairs.old.items pairs.new.items }
{
    let (page, bytes) = match read_pair(alloc, after, line) {
        Ok(pair) => pair,
        Err(LineFault::BadLine { at }) => {
            return Err(PairsFault::BadScript {
                line: pairs.len() as u64 + 1,
                at,
            });
        }
        Err(LineFault::NoMemory) => return Err(PairsFault::NoMemory),
    };
    pairs.push((page, Seq::of(bytes)))?;
    Ok(page)
}
