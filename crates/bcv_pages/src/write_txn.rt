ghost use Rattle.std.specs.Prelude.{◌≡◌, ℕ, ◌+◌, ◌≤◌, ◌↔◌, true, false, List, [], ◌∷◌, ◌++◌, length, is_ok, nat_le, OnErr, OnOk, Err, if◌then◌else◌};
ghost use Rattle.std.specs.List.{filter};
ghost use Rattle.bcv_base.specs.Image.{Page};
ghost use Rattle.bcv_base.specs.Views.{is_commit};
ghost use Rattle.bcv_model.specs.Commits.{writes_of};
ghost use Rattle.bcv_pages.specs.Draft.{Draft, may_write, with_page, with_size};
ghost use Rattle.bcv_pages.specs.Placed.{IsAscending, below, above};

use crate::search::place;
use bcv_base::Seq;
use bcv_model::Commit;
use std::alloc::{AllocError, Global};
use std::marker::Model;

/// Why a page isn't written: there is no such page or its bytes aren't one page, or memory ran out.
#[derive(Clone, Copy, Debug, PartialEq, Eq)]
pub enum WriteFault {
    BadPage,
    NoMemory,
}

/// The writes of a transaction, until they are a commit: the size that it will have, in pages, and the pages that
/// stand. The page that is written last under a number stands, unless a smaller size drops it.
#[derive(Drop)]
pub struct WriteTxn {
    page_size: u32,
    size: u32,
    pages: Vec<(u32, Seq<u8>)>,
}

impl Model for WriteTxn {
    ghost use Rattle.std.specs.Prelude.{◌≡◌, true};
    ghost use Rattle.bcv_base.specs.Views.{is_commit};
    ghost use Rattle.bcv_pages.specs.Draft.{Draft};

    ghost Value = { Draft };

    ghost view = { λ t. record { page_size = t.page_size; writes = record { size = t.size; pages = t.pages.items } } };

    ghost invariant = { λ t. is_commit t.page_size (record { size = t.size; pages = t.pages.items }) ≡ true };
}

impl WriteTxn {
    /// No writes yet, over an image of `size` pages of `page_size` bytes.
    pub fn new(alloc: Global, page_size: u32, size: u32) -> WriteTxn
        ensures { result ≡ record {
          page_size = page_size;
          writes = record { size = size; pages = [] };
        } }
    {
        WriteTxn {
            page_size,
            size,
            pages: Vec::new(alloc),
        }
    }

    /// Sets the size, in pages. Pages above it that were written are dropped, and stay dropped if it grows again.
    pub fn set_size(&mut self, size: u32)
        ensures { self.new ≡ with_size size self.old }
    {
        keep_upto(&mut self.pages, size);
        self.size = size;
    }

    /// Writes the bytes of one page, over what was written under its number before. After a fault all is as before.
    pub fn write(&mut self, page: u32, bytes: &[u8]) -> Result<(), WriteFault>
        ensures bad { (result ≡ Err WriteFault.BadPage) ↔
            (may_write self.old page bytes.now ≡ false) }
        ensures written { self.new ≡ (if is_ok result then with_page page bytes.now self.old
            else self.old) }
    {
        if page == 0 || page > self.size || bytes.len() != self.page_size as usize {
            return Err(WriteFault::BadPage);
        }
        match put(&mut self.pages, page, bytes) {
            Ok(()) => Ok(()),
            Err(AllocError) => Err(WriteFault::NoMemory),
        }
    }

    /// The commit of the writes that stand.
    pub fn finish(self) -> Commit
        ensures writes { writes_of result ≡ self.writes }
        ensures commit { is_commit self.page_size self.writes ≡ true }
    {
        let WriteTxn {
            page_size: _,
            size,
            pages,
        } = self;
        Commit {
            size,
            pages: Seq::of(pages),
        }
    }
}

// Puts a page at its place among pages that ascend, over the one of its number.
fn put(pages: &mut Vec<(u32, Seq<u8>)>, page: u32, bytes: &[u8]) -> Result<(), AllocError>
    requires { IsAscending pages.old.items }
    ensures ok { OnOk result (pages.new.items ≡ below page pages.old.items
        ++ (page, bytes.now) ∷ above page pages.old.items) }
    ensures err { OnErr result (pages.new.items ≡ pages.old.items) }
{
    let written = (page, Seq::of(Vec::from_slice(*pages.allocator(), bytes)?));
    match place(pages, page) {
        Ok(at) => {
            pages[at] = written;
            Ok(())
        }
        Err(at) => Ok(pages.insert(at, written)?),
    }
}

// Drops the pages with numbers above `size`.
fn keep_upto(pages: &mut Vec<(u32, Seq<u8>)>, size: u32)
    ensures { pages.new.items ≡ filter (λ w. nat_le w.0 size) pages.old.items }
{
    pages.retain(|written| written.0 <= size);
}
