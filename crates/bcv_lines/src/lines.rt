ghost use Rattle.std.specs.Prelude.{◌≡◌, ◌≢◌, ℕ, ◌<◌, ◌≤◌, ◌++◌, [], false, List, length, IfOk, OnOk, ◌==◌};
ghost use Rattle.std.specs.List.{position};
ghost use Rattle.std.specs.Io.KnownBytes.{Consumes, IsAtEnd};
ghost use Rattle.bcv_base.specs.Faults.{Rose};
ghost use Rattle.bcv_lines.specs.Lines.{has_newline, most_of_script};
ghost use Rattle.bcv_lines.specs.Reading.{IsFirstNewline, Gathers, GivesLine, CountsLine, CountsPiece, Leaves};

use crate::chunk::Chunk;
use bcv_base::{Source, Took};
use std::alloc::{AllocError, Global};

// The most bytes of a line without its newline, and of a script.
const MOST_OF_LINE: usize = 1048576;

const MOST_OF_SCRIPT: u64 = 67108864;

// Whether a line ended in the chunk.
#[derive(Clone, Copy, Debug, PartialEq, Eq)]
pub enum Piece {
    Whole,
    Part,
    TooLong,
    NoMemory,
}

/// What comes next: a line with its newline, one that ends with the input, or none.
#[derive(Clone, Copy, Debug, PartialEq, Eq)]
pub enum Next {
    Line,
    Last,
    End,
    TooLong,
    ReadFault,
    NoMemory,
}

/// A reader of the lines of a script or of a commit's input. The last line that it handed out is `line`; the lines with a
/// newline that it handed out have `used` bytes, newlines included, and `chunk` has what was taken and not handed out yet.
#[derive(Drop)]
pub struct Lines {
    pub chunk: Chunk,
    pub line: Vec<u8>,
    pub used: u64,
    ghost within: { used ≤ most_of_script },
}

impl Lines {
    /// A reader that has taken nothing yet.
    pub fn new(alloc: Global) -> Result<Lines, AllocError>
        ensures { IfOk result (λ r. (r.chunk ≡ []) × (r.used ≡ 0)) }
    {
        Ok(Lines {
            chunk: Chunk::new(alloc)?,
            line: Vec::new(alloc),
            used: 0,
        })
    }

    /// Reads the next line into `line`, without its newline. The input is asked only where no line ends in what was taken.
    pub fn next<I: Source>(&mut self, input: &mut I) -> Next
        requires unended { I.ended input.old ≡ false }
        ensures goes_on { result ≡ Next.Line → I.ended input.new ≡ false }
        ensures read { (taken : List ℕ) × Consumes (I.left input.old) (I.left input.new) taken
            × GivesLine result self.old.used (self.old.chunk ++ taken)
            (IsAtEnd (I.left input.new)) self.new.line.items self.new.chunk }
        ensures counts { CountsLine result self.old.used self.new.used self.new.line.items }
        ensures later { I.faults input.old ≤ I.faults input.new }
        ensures cause { result ≡ Next.ReadFault → Rose (I.faults input.old) (I.faults input.new) }
    {
        self.line.clear();
        loop {
            match self.gather() {
                Piece::Whole => return Next::Line,
                Piece::Part => {}
                Piece::TooLong => return Next::TooLong,
                Piece::NoMemory => return Next::NoMemory,
            }
            match self.chunk.refill(input) {
                Took::Some(_) => {}
                Took::End => return self.last(),
                Took::Failed => return Next::ReadFault,
            }
        }
    }

    // What an input that has ended leaves.
    fn last(&self) -> Next
        ensures { Leaves result self.now.line.items }
    {
        if self.line.is_empty() {
            Next::End
        } else {
            Next::Last
        }
    }

    // Moves the bytes up to the chunk's first newline, or all of them, to the end of the line.
    fn gather(&mut self) -> Piece
        requires { has_newline self.old.line.items ≡ false }
        ensures bytes { Gathers result self.old.used (self.old.line.items ++ self.old.chunk)
            self.new.line.items self.new.chunk }
        ensures counts { CountsPiece result self.old.used self.new.used self.new.line.items }
    {
        match newline_in(self.chunk.bytes()) {
            Some(end) => self.end_line(end),
            None => self.add_chunk(),
        }
    }

    // Ends the line at the chunk's first newline.
    fn end_line(&mut self, end: usize) -> Piece
        requires line { has_newline self.old.line.items ≡ false }
        requires end { IsFirstNewline self.old.chunk end }
        ensures bytes { Gathers result self.old.used (self.old.line.items ++ self.old.chunk)
            self.new.line.items self.new.chunk }
        ensures counts { CountsPiece result self.old.used self.new.used self.new.line.items }
        ensures ends { result ≢ Piece.Part }
    {
        let front = &self.chunk.bytes()[..end];
        let count = self.line.len() + front.len();
        if count > MOST_OF_LINE {
            return Piece::TooLong;
        }
        if self.used + count as u64 >= MOST_OF_SCRIPT {
            return Piece::TooLong;
        }
        if append(&mut self.line, front).is_err() {
            return Piece::NoMemory;
        }
        self.chunk.skip(end + 1);
        self.used += count as u64 + 1;
        Piece::Whole
    }

    // Adds the whole chunk to the line.
    fn add_chunk(&mut self) -> Piece
        requires line { has_newline self.old.line.items ≡ false }
        requires chunk { has_newline self.old.chunk ≡ false }
        ensures bytes { Gathers result self.old.used (self.old.line.items ++ self.old.chunk)
            self.new.line.items self.new.chunk }
        ensures counts { CountsPiece result self.old.used self.new.used self.new.line.items }
    {
        let more = self.chunk.bytes().len();
        let count = self.line.len() + more;
        if count > MOST_OF_LINE {
            return Piece::TooLong;
        }
        if self.used + count as u64 > MOST_OF_SCRIPT {
            return Piece::TooLong;
        }
        if append(&mut self.line, self.chunk.bytes()).is_err() {
            return Piece::NoMemory;
        }
        self.chunk.skip(more);
        Piece::Part
    }
}

// Adds bytes at the end.
fn append(line: &mut Vec<u8>, bytes: &[u8]) -> Result<(), AllocError>
    ensures { OnOk result (line.new.items ≡ line.old.items ++ bytes.now) }
{
    line.extend_from_slice(bytes)
}

// Where the first newline is.
fn newline_in(bytes: &[u8]) -> Option<usize>
    ensures { result ≡ position (λ b. b == 10) bytes.now }
{
    bytes.iter().position(|byte| *byte == b'\n')
}
