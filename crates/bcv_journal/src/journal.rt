ghost use Rattle.std.specs.Prelude.{◌≡◌, ◌↔◌, ◌<◌, ◌≤◌, ◌+◌, ◌^◌, [], ◌∷◌, true, false, Some, List, ℕ, length, IsTrue, ◌⊎◌};

use crate::area::Area;
use crate::item::write_item;
use crate::layout::whole_area;
use crate::load::load_items;
use crate::restart::{place_for, replace};
use crate::{Load, Noted};
use bcv_disk::{Disk, DiskEnd, Planned};
use std::alloc::Global;

/// A journal that is open for appends, until its disk fails.
#[derive(Drop)]
pub struct Journal<D: Disk> {
    disk: D,
    area: Area,
    closed: bool,
    ghost start: { 17 ≤ area.start },
    ghost order: { area.start ≤ area.tail },
    ghost short: { area.tail < 2 ^ 31 },
    ghost room: { D.told.tells → closed ≡ false → area.tail < length (D.shown disk).seen },
}

impl<D: Disk> Journal<D> {
    ghost use Rattle.bcv_journal.specs.JournalCalls.{JournalAppends, JournalRestarts};
    ghost use Rattle.std.specs.List.{AllByRecursion};
    ghost use Rattle.bcv_journal.specs.Layout.{IsItem};
    ghost use Rattle.bcv_journal.specs.Loaded.{JournalLoads};
    ghost use Rattle.bcv_journal.specs.Moved.{size_of};
    ghost use Rattle.bcv_journal.specs.Settled.{items_of};
    ghost use Rattle.bcv_journal.specs.Parts.{HasItems, LeavesItems, is_closed, start_at, tail_at};

    /// Loads the journal of a disk: it syncs the disk first, and gives the items in order.
    ///
    /// A file of at most 18 bytes becomes an empty journal. A file that is no journal is refused with the place of
    /// what is wrong, and the disk comes back with every refusal.
    pub fn load(alloc: Global, mut disk: D) -> Load<D>
        ensures { JournalLoads D.told D.shown disk result }
    {
        match load_items(alloc, &mut disk) {
            Ok((items, area)) => {
                let journal = Journal {
                    disk,
                    area,
                    closed: false,
                };
                Load::Ready(journal, items)
            }
            Err(fault) => Load::Refused(disk, fault),
        }
    }

    /// Whether a call has met a fault of the disk.
    pub fn closed(&self) -> bool
        ensures { result ≡ is_closed self.now }
    {
        self.closed
    }

    /// The place of the closed gate after the items.
    pub fn tail(&self) -> u64
        ensures place { result ≡ tail_at self.now }
        ensures short { result < 2 ^ 31 }
    {
        self.area.tail
    }

    /// The place of the first item's gate, and that of the closed gate after the items.
    pub fn span(&self) -> (u64, u64)
        ensures start { result.0 ≡ start_at self.now }
        ensures tail { result.1 ≡ tail_at self.now }
        ensures order { (17 ≤ result.0) × (result.0 ≤ result.1) × (result.1 < 2 ^ 31) }
        ensures leaves { (items : List (List ℕ)) → HasItems D.shown self.now items
            → LeavesItems (D.shown self.now.disk) items (tail_at self.now) }
    {
        (self.area.start, self.area.tail)
    }

    /// Adds an item, whole or not at all: at `Done` it is on the disk. `spare` is what has to stay free after it,
    /// in bytes.
    ///
    /// `Closed` is tested first, then `JournalFull`.
    pub fn append(&mut self, alloc: Global, bytes: &[u8], spare: u64) -> Noted
        requires item { 0 < length bytes.now }
        requires spare { spare ≤ 2 ^ 31 }
        ensures { JournalAppends D.told D.shown self.old self.new bytes.now spare result }
    {
        if self.closed {
            return Noted::Closed;
        }
        if !has_room(self.area.tail, bytes.len(), spare) {
            return Noted::JournalFull;
        }
        match write_item(alloc, &mut self.disk, self.area, bytes) {
            DiskEnd::Done => {
                self.area.tail += 5 + bytes.len() as u64;
                Noted::Done
            }
            DiskEnd::Failed => {
                self.closed = true;
                Noted::DiskFault
            }
            DiskEnd::NoMemory => Noted::NoMemory,
        }
    }

    /// Puts the given items in place of all: before the old ones where they have room there, else after them.
    ///
    /// A crash at any moment leaves the old items or the given ones, whole; at `Done` it leaves the given ones alone.
    /// `Closed` is tested first.
    pub fn restart(&mut self, alloc: Global, items: &[Vec<u8>]) -> Noted
        requires each { AllByRecursion IsItem (items_of items.now) }
        requires room { (18 + size_of (items_of items.now) ≤ start_at self.old)
            ⊎ (tail_at self.old + 1 + size_of (items_of items.now) + 65 ≤ 2 ^ 31) }
        ensures { JournalRestarts D.told D.shown self.old self.new (items_of items.now) result }
    {
        if self.closed {
            return Noted::Closed;
        }
        let Ok(block) = whole_area(alloc, items) else {
            return Noted::NoMemory;
        };
        let start = place_for(&block, self.area);
        match replace(alloc, &mut self.disk, self.area, start, &block) {
            DiskEnd::Done => {
                self.area = Area {
                    start,
                    tail: start + block.len() as u64 - 1,
                    second: !self.area.second,
                };
                Noted::Done
            }
            DiskEnd::Failed => {
                self.closed = true;
                Noted::DiskFault
            }
            DiskEnd::NoMemory => Noted::NoMemory,
        }
    }

    /// The disk back.
    pub fn down(self) -> D
        ensures { result ≡ self.disk }
    {
        let Journal {
            disk,
            area: _,
            closed: _,
        } = self;
        disk
    }
}

/// Whether the new tail, its gate and the spare bytes stay within the limit of a file.
fn has_room(tail: u64, size: usize, spare: u64) -> bool
    requires tail { tail ≤ 2 ^ 31 }
    requires spare { spare ≤ 2 ^ 31 }
    ensures { IsTrue result ↔ (tail + 6 + size + spare ≤ 2 ^ 31) }
{
    let most: u64 = 1 << 31;
    size as u64 <= most && tail + 6 + size as u64 + spare <= most
}

impl<D: Planned> Journal<D> {
    ghost use Rattle.bcv_disk.specs.DiskCalls.{DiskPlans};
    ghost use Rattle.bcv_journal.specs.JournalCalls.{JournalPlans};

    /// Plans a crash of the disk: `calls` further calls of it pass, and the next one leaves the image of that number.
    pub fn fuse(&mut self, calls: u32, image: u8)
        requires image { image < 5 }
        ensures { JournalPlans D.shown self.old self.new
            (record (D.shown self.old.disk).trouble { fuse = Some (calls, image) }) }
    {
        self.disk.fuse(calls, image);
    }

    /// Plans a failure of the disk: `calls` further calls of it pass, and the next one fails.
    pub fn fail(&mut self, calls: u32)
        ensures { JournalPlans D.shown self.old self.new
            (record (D.shown self.old.disk).trouble { failure = Some calls }) }
    {
        self.disk.fail(calls);
    }

    /// Whether a fuse has burnt the disk.
    pub fn burnt(&self) -> bool
        ensures { result ≡ (D.shown self.now.disk).trouble.burnt }
    {
        self.disk.burnt()
    }
}
