ghost use Rattle.std.specs.Prelude.{◌≡◌, ℕ, ◌+◌, ◌-◌, ◌^◌, ◌<◌, ◌≤◌, true, min, List, [], ◌∷◌, map, length, drop, vec_len, vec_capacity, Option, Some, None, option_map, unwrap_or, is_ok, IfOk, IfSome, OnOk, if◌then◌else◌};
ghost use Rattle.std.specs.List.{list_all};
ghost use Rattle.std.specs.Int.{div_ceil};
ghost use Rattle.bcv_base.specs.Image.{Page, Writes, view_image};
ghost use Rattle.bcv_base.specs.Views.{is_commit, origin, view_size, has_local, touched_blocks};
ghost use Rattle.bcv_model.specs.Commits.{writes_of};
ghost use Rattle.bcv_pages.specs.Found.{shown, Finds};
ghost use Rattle.bcv_pages.specs.Held.{Held, CanView, KeepsView, last_of, view_of, numbers_of, with_room, with_commit, without_upto};
ghost use Rattle.bcv_pages.specs.Index.{writing};
ghost use Rattle.bcv_pages.specs.Placed.{all_ascend};
ghost use Rattle.bcv_pages.specs.Touched.{pages_kept, IsNextLocal, FindsBlock};

use crate::fronts::drop_first;
use crate::page_index::{PageIndex, within};
use crate::search::{PageAt, size_of, written_bytes};
use crate::size_minima::SizeMinima;
use bcv_base::Seq;
use bcv_model::Commit;
use std::alloc::{AllocError, Global};
use std::marker::Model;

/// The commits of one database, numbered from 1 in the order of `add`, and the views of them.
///
/// The view from `from` to `to` is what the commits numbered from `from` + 1 to `to` make of a base image of
/// `base_pages` pages. A page of it that isn't the base's is local.
#[derive(Drop)]
pub struct PageSet {
    page_size: u32,
    forgotten: u64,
    commits: Vec<Commit>,
    minima: SizeMinima,
    index: PageIndex,
    ready: Option<Vec<u32>>,
}

impl Model for PageSet {
    ghost use Rattle.std.specs.Prelude.{option_map, vec_len, vec_capacity};
    ghost use Rattle.bcv_pages.specs.Held.{Held, held_of, IsHeld};
    ghost use Rattle.bcv_pages.specs.Indexed.{IsIndexed};

    ghost Value = { Held };

    ghost view = { λ s. held_of s.page_size s.forgotten s.commits.items (option_map (λ numbers. numbers.items) s.ready) };

    ghost invariant = { λ s. let h = held_of s.page_size s.forgotten s.commits.items (option_map (λ numbers. numbers.items) s.ready) in IsHeld h (vec_len s.commits) (vec_capacity s.commits) × IsIndexed h s.index.lists s.minima };
}

impl PageSet {
    /// No commits yet, for pages of `page_size` bytes.
    pub fn new(alloc: Global, page_size: u32) -> PageSet
        ensures { result ≡ record {
          page_size = page_size;
          forgotten = 0;
          kept = [];
          ready = None;
        } }
    {
        PageSet {
            page_size,
            forgotten: 0,
            commits: Vec::new(alloc),
            minima: SizeMinima::new(alloc),
            index: PageIndex::new(alloc),
            ready: None,
        }
    }

    /// Makes room for a commit, in place of the one for which there was room. After that `add` of it takes no memory.
    pub fn reserve(&mut self, commit: &Commit) -> Result<(), AllocError>
        requires last { last_of self.old < 2 ^ 64 - 1 }
        requires commit { is_commit self.old.page_size (writes_of commit.now) ≡ true }
        ensures { self.new ≡ (if is_ok result then with_room (writes_of commit.now) self.old
            else self.old) }
    {
        let alloc = *self.commits.allocator();
        let numbers = page_numbers(alloc, commit.pages.items())?;
        self.commits.reserve(1)?;
        self.minima.reserve()?;
        self.index.reserve(alloc, numbers.as_slice())?;
        self.ready = Some(numbers);
        Ok(())
    }

    /// Adds the commit for which there is room. The views that could be asked for before stay as they are.
    pub fn add(&mut self, commit: Commit)
        requires ready { self.old.ready ≡ Some (numbers_of (writes_of commit)) }
        requires commit { is_commit self.old.page_size (writes_of commit) ≡ true }
        ensures added { self.new ≡ with_commit (writes_of commit) self.old }
        ensures views { (from to : ℕ) → KeepsView self.old self.new from to }
    {
        self.ready = None;
        let number = self.last() + 1;
        self.minima.push(commit.size);
        self.index.add(commit.pages.items(), number);
        match self.commits.push(commit) {
            Ok(()) => (),
            Err(_) => unreachable!(),
        }
    }

    /// The number of the last commit, or 0 where none was added yet.
    pub fn last(&self) -> u64
        ensures { result ≡ last_of self.now }
    {
        self.forgotten + self.commits.len() as u64
    }

    /// The numbers of the commits that wrote a page and were not forgotten, ascending.
    pub fn writes(&self, page: u32) -> &[u64]
        ensures { result.now ≡ writing (self.now.forgotten + 1) self.now.kept page }
    {
        self.index.writes(page)
    }

    /// What a view has at a page.
    pub fn find(&self, base_pages: u32, from: u64, to: u64, page: u32) -> PageAt<'_>
        requires view { CanView self.now from to }
        requires first { 1 ≤ page }
        requires last { page ≤ view_size base_pages (view_of self.now from to) }
        ensures origin { shown result ≡ origin base_pages (view_of self.now from to) page }
        ensures found { Finds self.now.page_size base_pages (view_of self.now from to) page result }
    {
        let writes = within(self.index.writes(page), from, to);
        match writes.last() {
            Some(number) => self.written_at(*number, to, page),
            None => self.unwritten_at(base_pages, from, to, page),
        }
    }

    /// The size of a view, in pages.
    pub fn size(&self, base_pages: u32, from: u64, to: u64) -> u32
        requires { CanView self.now from to }
        ensures size { result ≡ view_size base_pages (view_of self.now from to) }
        ensures image { (base : List Page) → length base ≡ base_pages
            → length (view_image self.now.page_size base (view_of self.now from to)) ≡ result }
    {
        size_of(self.commits_of(from, to), base_pages)
    }

    /// The commits of a view, each one of this set's page size.
    pub fn commits_fit(&self, from: u64, to: u64)
        requires { CanView self.now from to }
        ensures { list_all (is_commit self.now.page_size) (view_of self.now from to) ≡ true }
    {
        self.commits_of(from, to);
    }

    /// The blocks of `per_block` pages that hold a local page of a view, by their numbers from 0, ascending. The last
    /// block may have fewer pages, since pages above the view's size don't count.
    pub fn touched(
        &self,
        alloc: Global,
        base_pages: u32,
        from: u64,
        to: u64,
        per_block: u32,
    ) -> Result<Vec<u32>, AllocError>
        requires view { CanView self.now from to }
        requires some { 1 ≤ per_block }
        ensures { IfOk result (λ blocks. blocks.items
            ≡ touched_blocks per_block base_pages (view_of self.now from to)) }
    {
        let mut blocks = Vec::new(alloc);
        let mut start = 0;
        while let Some(block) = self.next_touched(base_pages, from, to, per_block, start) {
            blocks.push(block)?;
            start = block + 1;
        }
        Ok(blocks)
    }

    /// Drops the commits up to `upto`, or all where there are fewer. No view that begins below `upto` may be asked for
    /// after that.
    pub fn forget(&mut self, upto: u64)
        ensures forgot { self.new ≡ without_upto upto self.old }
        ensures views { (from to : ℕ) → upto ≤ from → KeepsView self.old self.new from to }
    {
        let count = upto
            .saturating_sub(self.forgotten)
            .min(self.commits.len() as u64);
        drop_first(&mut self.commits, count as usize);
        self.minima.drop_first(count as usize);
        self.forgotten += count;
        self.index.forget(self.forgotten, ready_pages(&self.ready));
    }

    // The commits of a view.
    fn commits_of(&self, from: u64, to: u64) -> &[Commit]
        requires { CanView self.now from to }
        ensures view { map writes_of result.now ≡ view_of self.now from to }
        ensures well { list_all (is_commit self.now.page_size) (map writes_of result.now) ≡ true }
        ensures ascend { all_ascend (map writes_of result.now) ≡ true }
    {
        let first = (from - self.forgotten) as usize;
        let end = (to - self.forgotten) as usize;
        &self.commits[first..end]
    }

    // What a view has at a page that no commit of it wrote.
    fn unwritten_at(&self, base_pages: u32, from: u64, to: u64, page: u32) -> PageAt<'_>
        requires view { CanView self.now from to }
        requires none { writing (from + 1) (view_of self.now from to) page ≡ [] }
        ensures { shown result ≡ origin base_pages (view_of self.now from to) page }
    {
        if page <= self.pages_kept(base_pages, from, to) {
            PageAt::Base
        } else {
            PageAt::Zeros
        }
    }

    // How many pages from the first on each image of a view has, from the base's on.
    fn pages_kept(&self, base_pages: u32, from: u64, to: u64) -> u32
        requires { CanView self.now from to }
        ensures { result ≡ pages_kept base_pages (view_of self.now from to) }
    {
        if from == to {
            return base_pages;
        }
        let start = (from - self.forgotten) as usize;
        let end = (to - self.forgotten) as usize;
        base_pages.min(self.minima.least(start, end))
    }

    // What the view has at a page that the commit of this number wrote last.
    fn written_at(&self, number: u64, to: u64, page: u32) -> PageAt<'_>
        requires first { 1 ≤ number }
        requires there { number ≤ to }
        requires view { CanView self.now (number - 1) to }
        requires last { writing number (view_of self.now (number - 1) to) page ≡ number ∷ [] }
        ensures { (base_pages : ℕ) → shown result ≡ origin base_pages
            (view_of self.now (number - 1) to) page }
    {
        if self.pages_kept(page, number - 1, to) < page {
            return PageAt::Zeros;
        }
        let place = (number - 1 - self.forgotten) as usize;
        match written_bytes(self.commits[place].pages.items(), page) {
            Some(bytes) => PageAt::Local(bytes),
            None => unreachable!(),
        }
    }

    // The first block from `start` on that holds a local page of a view.
    fn next_touched(
        &self,
        base_pages: u32,
        from: u64,
        to: u64,
        per_block: u32,
        start: u32,
    ) -> Option<u32>
        requires view { CanView self.now from to }
        requires some { 1 ≤ per_block }
        ensures fits { IfSome result (λ block. block < 2 ^ 32 - 1) }
        ensures found { FindsBlock (has_local per_block base_pages (view_of self.now from to))
            (div_ceil (view_size base_pages (view_of self.now from to)) per_block) start result }
    {
        let before = u64::from(start) * u64::from(per_block);
        let size = self.size(base_pages, from, to);
        if before >= u64::from(size) {
            return None;
        }
        let page = self.next_local(base_pages, from, to, before as u32 + 1);
        if page > u64::from(size) {
            return None;
        }
        Some((page as u32 - 1) / per_block)
    }

    // The first local page of a view from `page` on.
    fn next_local(&self, base_pages: u32, from: u64, to: u64, page: u32) -> u64
        requires view { CanView self.now from to }
        requires first { 1 ≤ page }
        ensures { IsNextLocal base_pages (view_of self.now from to) page result }
    {
        let past = u64::from(self.pages_kept(base_pages, from, to)) + 1;
        let grown = past.max(u64::from(page));
        match self.index.next_written(from, to, page) {
            Some(written) => grown.min(u64::from(written)),
            None => grown,
        }
    }
}

// The pages of the commit for which there is room.
fn ready_pages(ready: &Option<Vec<u32>>) -> &[u32]
    ensures { result.now ≡ unwrap_or (option_map (λ numbers. numbers.items) ready.now) [] }
{
    match ready {
        Some(numbers) => numbers.as_slice(),
        None => &[],
    }
}

// The numbers of the pages.
fn page_numbers(alloc: Global, pages: &[(u32, Seq<u8>)]) -> Result<Vec<u32>, AllocError>
    ensures { IfOk result (λ numbers. numbers.items ≡ map (λ w. w.0) pages.now) }
{
    pages.iter().map(|written| written.0).collect(alloc)
}
