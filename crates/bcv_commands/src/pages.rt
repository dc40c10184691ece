ghost use Rattle.std.specs.Prelude.{◌≡◌, ℕ, ◌+◌, ◌<◌, ◌≤◌, false, List, ◌++◌, length, take, Err, IfOk};
ghost use Rattle.std.specs.Io.KnownBytes.{Consumes, IsAtEnd};
ghost use Rattle.bcv_base.specs.Faults.{Rose};
ghost use Rattle.bcv_commands.specs.Filling.{CutsFile, TakesPage};

use crate::database_file::{DatabaseFile, FileFault};
use crate::filling::{Filled, fill_from};
use bcv_base::{Seq, Source};
use std::alloc::{AllocError, Global};

// The next page of a file, or why there is none: the input ended after so many bytes of it.
#[derive(Drop)]
pub enum NextPage {
    Whole(Seq<u8>),
    Ended(usize),
    TooLong,
    Failed,
    NoMemory,
}

// Reads the pages of a file, whose first bytes are these, to the end of the input.
pub fn read_pages<I: Source>(
    alloc: Global,
    input: &mut I,
    page_size: u32,
    header: &[u8],
) -> Result<DatabaseFile, FileFault>
    requires unended { I.ended input.old ≡ false }
    requires sized { 0 < page_size }
    requires header { length header.now ≤ page_size }
    requires small { page_size ≤ 65536 }
    ensures read { (taken : List ℕ) × Consumes (I.left input.old) (I.left input.new) taken
        × CutsFile result page_size (header.now ++ taken) (IsAtEnd (I.left input.new)) }
    ensures later { I.faults input.old ≤ I.faults input.new }
    ensures cause { result ≡ Err FileFault.ReadFault
        → Rose (I.faults input.old) (I.faults input.new) }
{
    let mut pages = Vec::new(alloc);
    let mut length = 0;
    let mut front = header;
    'pages: loop {
        match next_page(alloc, input, page_size, front, length) {
            NextPage::Whole(page) => {
                pages.push(page)?;
                length += u64::from(page_size);
                front = &[];
            }
            NextPage::Ended(0) => {
                return Ok(DatabaseFile {
                    page_size,
                    pages: Seq::of(pages),
                });
            }
            NextPage::Ended(count) => return Err(FileFault::BadImage(length + count as u64)),
            NextPage::TooLong => return Err(FileFault::TooLong),
            NextPage::Failed => return Err(FileFault::ReadFault),
            NextPage::NoMemory => return Err(FileFault::NoMemory),
        }
    }
}

// Reads the page whose first bytes are these, after so many bytes of the input.
fn next_page<I: Source>(
    alloc: Global,
    input: &mut I,
    page_size: u32,
    front: &[u8],
    before: u64,
) -> NextPage
    requires unended { I.ended input.old ≡ false }
    requires front { length front.now ≤ page_size }
    requires within { before + length front.now ≤ 268435456 }
    ensures goes_on { (page : List ℕ) → result ≡ NextPage.Whole page → I.ended input.new ≡ false }
    ensures read { (taken : List ℕ) × Consumes (I.left input.old) (I.left input.new) taken
        × TakesPage result page_size before (front.now ++ taken) (IsAtEnd (I.left input.new)) }
    ensures later { I.faults input.old ≤ I.faults input.new }
    ensures cause { result ≡ NextPage.Failed → Rose (I.faults input.old) (I.faults input.new) }
{
    let mut page = match begun(alloc, page_size, front) {
        Ok(page) => page,
        Err(_) => return NextPage::NoMemory,
    };
    let taken = front.len();
    match fill_from(input, &mut page, taken, before + taken as u64) {
        Filled::Full => NextPage::Whole(Seq::of(page)),
        Filled::Ended(count) => NextPage::Ended(taken + count),
        Filled::TooLong => NextPage::TooLong,
        Filled::Failed => NextPage::Failed,
    }
}

// A page that begins with these bytes, and has zeros after them.
fn begun(alloc: Global, page_size: u32, front: &[u8]) -> Result<Vec<u8>, AllocError>
    requires { length front.now ≤ page_size }
    ensures { IfOk result (λ p. (length p.items ≡ page_size)
        × (take (length front.now) p.items ≡ front.now)) }
{
    let mut page = vec![in alloc; 0; page_size as usize]?;
    copy_front(front, &mut page);
    Ok(page)
}

// Copies bytes to the front of a slice.
fn copy_front(from: &[u8], into: &mut [u8])
    requires { length from.now ≤ length into.old }
    ensures front { take (length from.now) into.new ≡ from.now }
    ensures len { length into.new ≡ length into.old }
{
    into[..from.len()].copy_from_slice(from);
}
