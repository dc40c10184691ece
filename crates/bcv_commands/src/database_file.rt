ghost use Rattle.std.specs.Prelude.{◌≡◌, ◌≢◌, ◌≤◌, ℕ, false, List, ◌++◌, length, Err, None};
ghost use Rattle.std.specs.Io.KnownBytes.{Consumes, IsAtEnd};
ghost use Rattle.bcv_base.specs.DatabaseHeader.{header_page_size};
ghost use Rattle.bcv_base.specs.Faults.{Rose};
ghost use Rattle.bcv_commands.specs.DatabaseFiles.{ReadsFile, header_fault};
ghost use Rattle.bcv_commands.specs.declared.database_file.FileFault.TheVariants.{NoMemory};

use crate::filling::{Drained, Filled, drain, fill};
use crate::pages::read_pages;
use bcv_base::{Seq, Source, page_size_of};
use std::alloc::{AllocError, AllocFailed, Global};

// The page size of a database without pages.
const EMPTY_PAGE_SIZE: u32 = 4096;

/// A database file: the size of its pages in bytes, and the pages.
#[derive(Debug, Drop)]
pub struct DatabaseFile {
    pub page_size: u32,
    pub pages: Seq<Seq<u8>>,
}

/// Why an input gave no database file.
#[derive(Clone, Copy, Debug, PartialEq, Eq)]
pub enum FileFault {
    /// The input is no database file, by the place of the fault: 0 for the header's text, 16 for its page size, and the
    /// length of the input where its last page is not whole.
    BadImage(u64),
    /// The input has more than 268,435,456 bytes.
    TooLong,
    ReadFault,
    NoMemory,
}

impl From<AllocError> for FileFault {
    ghost from_gives = { λ _ e. e ≡ NoMemory };

    fn from(_fault: AllocError) -> FileFault {
        FileFault::NoMemory
    }
}

impl<T: Drop> From<AllocFailed<T>> for FileFault {
    ghost from_gives = { λ _ e. e ≡ NoMemory };

    fn from(_fault: AllocFailed<T>) -> FileFault {
        FileFault::NoMemory
    }
}

/// Reads a database file to the end of the input, page by page: it keeps no second copy of what it read. An empty input is a
/// database without pages, whose page size is 4,096.
pub fn read_file<I: Source>(alloc: Global, input: &mut I) -> Result<DatabaseFile, FileFault>
    requires unended { I.ended input.old ≡ false }
    ensures read { (taken : List ℕ) × Consumes (I.left input.old) (I.left input.new) taken
        × ReadsFile result taken (IsAtEnd (I.left input.new)) }
    ensures later { I.faults input.old ≤ I.faults input.new }
    ensures cause { result ≡ Err FileFault.ReadFault
        → Rose (I.faults input.old) (I.faults input.new) }
{
    let mut header = [0; 18];
    match fill(input, &mut header, 0) {
        Filled::Full => after_header(alloc, input, &header),
        Filled::Ended(count) => short_file(alloc, &header[..count]),
        Filled::TooLong => Err(FileFault::TooLong),
        Filled::Failed => Err(FileFault::ReadFault),
    }
}

// Reads what follows a header that was taken.
fn after_header<I: Source>(
    alloc: Global,
    input: &mut I,
    header: &[u8],
) -> Result<DatabaseFile, FileFault>
    requires unended { I.ended input.old ≡ false }
    requires header { length header.now ≡ 18 }
    ensures read { (taken : List ℕ) × Consumes (I.left input.old) (I.left input.new) taken
        × ReadsFile result (header.now ++ taken) (IsAtEnd (I.left input.new)) }
    ensures later { I.faults input.old ≤ I.faults input.new }
    ensures cause { result ≡ Err FileFault.ReadFault
        → Rose (I.faults input.old) (I.faults input.new) }
{
    match page_size_of(header) {
        Some(page_size) => read_pages(alloc, input, page_size, header),
        None => Err(refused(input, header)),
    }
}

// The file that an input of fewer bytes than a header is.
#[tactic(auto, using(crate::proofs::Headers::short_file_of))]
fn short_file(alloc: Global, bytes: &[u8]) -> Result<DatabaseFile, FileFault>
    requires { length bytes.now ≤ 17 }
    ensures read { ReadsFile result bytes.now (Unit {0}) }
    ensures no_fault { result ≢ Err FileFault.ReadFault }
{
    if bytes.is_empty() {
        return Ok(DatabaseFile {
            page_size: EMPTY_PAGE_SIZE,
            pages: Seq::of(Vec::new(alloc)),
        });
    }
    Err(FileFault::BadImage(header_fault(bytes)))
}

// Reads an input to its end whose header is none.
fn refused<I: Source>(input: &mut I, header: &[u8]) -> FileFault
    requires unended { I.ended input.old ≡ false }
    requires header { length header.now ≡ 18 }
    requires sizeless { header_page_size header.now ≡ None }
    ensures read { (taken : List ℕ) × Consumes (I.left input.old) (I.left input.new) taken
        × ReadsFile (Err result) (header.now ++ taken) (IsAtEnd (I.left input.new)) }
    ensures later { I.faults input.old ≤ I.faults input.new }
    ensures cause { result ≡ FileFault.ReadFault → Rose (I.faults input.old) (I.faults input.new) }
{
    match drain(input, 18) {
        Drained::Ended => FileFault::BadImage(header_fault(header)),
        Drained::TooLong => FileFault::TooLong,
        Drained::Failed => FileFault::ReadFault,
    }
}

// The place of the fault in a header that says no page size: that of its text, or that of the page size.
fn header_fault(header: &[u8]) -> u64
    ensures { result ≡ header_fault header.now }
{
    if header.len() < 16 {
        return 0;
    }
    if &header[..16] == b"SQLite format 3\0".as_slice() {
        16
    } else {
        0
    }
}
