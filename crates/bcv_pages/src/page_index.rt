ghost use Rattle.std.specs.Prelude.{◌≡◌, ℕ, ◌<◌, ◌≤◌, ◌≢◌, [], ◌∷◌, ◌++◌, map, length, take, drop, nat_lt, nat_le, slice_index, OnOk, is_some, if◌then◌else◌};
ghost use Rattle.std.specs.List.{filter};
ghost use Rattle.bcv_base.specs.Image.{written};
ghost use Rattle.bcv_pages.specs.Index.{listed, has_room, are_rising, numbers_within, FindsWritten, Leaves};
ghost use Rattle.bcv_pages.specs.Placed.{IsAscending};

use crate::fronts::drop_first;
use bcv_base::Seq;
use std::alloc::{AllocError, Global};
use std::collections::BTreeMap;

/// The numbers of the commits that wrote each page, ascending.
#[derive(Drop)]
pub(crate) struct PageIndex {
    pub(crate) lists: BTreeMap<u32, Vec<u64>>,
}

impl PageIndex {
    /// No page was written yet.
    pub(crate) fn new(alloc: Global) -> PageIndex
        ensures { (p : ℕ) → listed result.lists p ≡ [] }
    {
        PageIndex {
            lists: BTreeMap::new(alloc),
        }
    }

    /// The numbers under a page.
    pub(crate) fn writes(&self, page: u32) -> &[u64]
        ensures { result.now ≡ listed self.now.lists page }
    {
        match self.lists.get(&page) {
            Some(numbers) => numbers.as_slice(),
            None => &[],
        }
    }

    /// Makes room for one more number under each of the pages.
    pub(crate) fn reserve(&mut self, alloc: Global, pages: &[u32]) -> Result<(), AllocError>
        ensures same { (p : ℕ) → listed self.new.lists p ≡ listed self.old.lists p }
        ensures kept { (p : ℕ) → has_room self.old.lists p → has_room self.new.lists p }
        ensures room { OnOk result ((k : ℕ) → k < length pages.now
            → has_room self.new.lists (slice_index pages.now k)) }
    {
        for page in pages {
            self.make_room(alloc, *page)?;
        }
        Ok(())
    }

    // Makes room for one more number under a page.
    fn make_room(&mut self, alloc: Global, page: u32) -> Result<(), AllocError>
        ensures same { (p : ℕ) → listed self.new.lists p ≡ listed self.old.lists p }
        ensures kept { (p : ℕ) → has_room self.old.lists p → has_room self.new.lists p }
        ensures room { OnOk result (has_room self.new.lists page) }
    {
        match self.lists.get_mut(&page) {
            Some(numbers) => numbers.reserve(1),
            None => {
                self.lists.insert(page, Vec::with_capacity(alloc, 1)?)?;
                Ok(())
            }
        }
    }

    /// Adds a number under each of the pages, for which there is room.
    pub(crate) fn add(&mut self, pages: &[(u32, Seq<u8>)], number: u64)
        requires ascend { IsAscending pages.now }
        requires room { (k : ℕ) → k < length pages.now
            → has_room self.old.lists (slice_index (map (λ w. w.0) pages.now) k) }
        ensures { (p : ℕ) → listed self.new.lists p ≡ listed self.old.lists p
            ++ (if is_some (written pages.now p) then number ∷ [] else []) }
    {
        for written in pages {
            self.add_one(written.0, number);
        }
    }

    // Adds a number under a page, for which there is room.
    fn add_one(&mut self, page: u32, number: u64)
        requires { has_room self.old.lists page }
        ensures listed { listed self.new.lists page ≡ listed self.old.lists page ++ number ∷ [] }
        ensures others { (p : ℕ) → p ≢ page → listed self.new.lists p ≡ listed self.old.lists p }
        ensures room { (p : ℕ) → p ≢ page → has_room self.old.lists p → has_room self.new.lists p }
    {
        match self.lists.get_mut(&page) {
            Some(numbers) => match numbers.push(number) {
                Ok(()) => (),
                Err(_) => unreachable!(),
            },
            None => unreachable!(),
        }
    }

    /// Drops the numbers up to `upto`, and each list that becomes empty, but for those of the pages in `ready`.
    pub(crate) fn forget(&mut self, upto: u64, ready: &[u32])
        requires { (p : ℕ) → are_rising (listed self.old.lists p) }
        ensures listed { (p : ℕ) → listed self.new.lists p
            ≡ filter (nat_lt upto) (listed self.old.lists p) }
        ensures room { (k : ℕ) → k < length ready.now
            → has_room self.old.lists (slice_index ready.now k)
            → has_room self.new.lists (slice_index ready.now k) }
    {
        self.lists
            .retain(|page, numbers| keep_after(*page, numbers, upto, ready));
    }

    /// The first page from `page` on that one of the commits numbered from `from` + 1 to `to` wrote.
    pub(crate) fn next_written(&self, from: u64, to: u64, page: u32) -> Option<u32>
        requires { (p : ℕ) → are_rising (listed self.now.lists p) }
        ensures { FindsWritten self.now.lists from to page result }
    {
        let mut start = page;
        while let Some((number, writes)) = self.lists.range(start..).next() {
            if !within(writes.as_slice(), from, to).is_empty() {
                return Some(*number);
            }
            start = number.checked_add(1)?;
        }
        None
    }
}

// Drops the numbers up to `upto` under a page, keeps their room, and says whether the list stays.
fn keep_after(page: u32, numbers: &mut Vec<u64>, upto: u64, ready: &[u32]) -> bool
    ensures { Leaves upto ready.now page numbers.old result numbers.new }
{
    let count = count_upto(numbers.as_slice(), upto);
    drop_first(numbers, count);
    !numbers.is_empty() || ready.contains(&page)
}

/// The numbers from `from` + 1 to `to` among numbers that ascend.
pub(crate) fn within(numbers: &[u64], from: u64, to: u64) -> &[u64]
    requires { are_rising numbers.now }
    ensures { result.now ≡ numbers_within from to numbers.now }
{
    let after = &numbers[count_upto(numbers, from)..];
    &after[..count_upto(after, to)]
}

// How many of the numbers are at most `upto`, where they ascend.
fn count_upto(numbers: &[u64], upto: u64) -> usize
    ensures fits { result ≤ length numbers.now }
    ensures front { are_rising numbers.now → take result numbers.now
        ≡ filter (λ n. nat_le n upto) numbers.now }
    ensures back { are_rising numbers.now → drop result numbers.now
        ≡ filter (nat_lt upto) numbers.now }
{
    numbers.partition_point(|number| *number <= upto)
}
