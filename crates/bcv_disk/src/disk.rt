ghost use Rattle.std.specs.Prelude.{◌≡◌, ◌≤◌, ◌<◌, ◌+◌, ◌^◌, List, Option, Some, ℕ, length};
ghost use Rattle.bcv_disk.specs.DiskShown.{DiskShown, DiskTold};
ghost use Rattle.bcv_disk.specs.DiskCalls.{DiskCall, DiskCuts, DiskLens, DiskPlans, DiskReads, DiskSyncs, DiskWrites, ended};
ghost use Rattle.bcv_disk.specs.DiskCalls.{Len, Read, Write, Cut, Sync};

use std::alloc::Global;

/// What `Disk::len` answers.
#[derive(Clone, Copy, Debug, PartialEq, Eq)]
pub enum Size {
    /// The length in bytes.
    Len(u64),
    Failed,
}

/// How a call of a disk ended.
#[derive(Clone, Copy, Debug, PartialEq, Eq)]
pub enum DiskEnd {
    Done,
    /// The disk failed; it may have crashed.
    Failed,
    /// Memory was missing, and the disk is as it was.
    NoMemory,
}

/// A file of bytes that a crash may tear.
///
/// Whether it tells its bytes, and whether it tells its troubles, is a fact of the type: a disk over a real file tells
/// neither.
pub trait Disk {
    ghost use Rattle.bcv_disk.specs.declared.disk.DiskEnd.{DiskEnd};

    /// Whether the disk tells its bytes and what a crash leaves of them, and whether it tells its troubles.
    ghost told: { DiskTold };

    /// What the disk shows.
    ghost shown: { Self → DiskShown };

    /// What this disk says besides, of itself before a call and after it, of the call and of its end.
    ghost besides: { Self → Self → DiskCall → DiskEnd → Type 0 };

    /// The length in bytes.
    fn len(&mut self) -> Size
        ensures lens { DiskLens told (shown self.old) (shown self.new) result }
        ensures besides { besides self.old self.new Len (ended result) };

    /// Fills `into` with the bytes from a place on. After `Failed` nothing is said of `into`.
    fn read(&mut self, at: u64, into: &mut [u8]) -> DiskEnd
        requires within { told.tells → at + length into.old ≤ length (shown self.old).seen }
        requires fits { at + length into.old ≤ 2 ^ 32 }
        ensures reads { DiskReads told (shown self.old)
            (shown self.new) at into.old into.new result }
        ensures besides { besides self.old self.new (Read at (length into.old)) result };

    /// Writes over what is there, and past the end. Until a sync, a crash may leave any bytes in the range.
    fn write_at(&mut self, alloc: Global, at: u64, bytes: &[u8]) -> DiskEnd
        requires from { told.tells → at ≤ length (shown self.old).seen }
        requires fits { at + length bytes.now ≤ 2 ^ 32 }
        ensures writes { DiskWrites told (shown self.old) (shown self.new) at bytes.now result }
        ensures besides { besides self.old self.new (Write at bytes.now) result };

    /// Cuts the file to a length. Until a sync, a crash may leave any bytes after it, up to the old end.
    fn cut(&mut self, alloc: Global, len: u64) -> DiskEnd
        requires { told.tells → len ≤ length (shown self.old).seen }
        ensures cuts { DiskCuts told (shown self.old) (shown self.new) len result }
        ensures besides { besides self.old self.new (Cut len) result };

    /// After `Done` a crash leaves what a read gives.
    fn sync(&mut self) -> DiskEnd
        ensures syncs { DiskSyncs told (shown self.old) (shown self.new) result }
        ensures besides { besides self.old self.new Sync result };

    /// What a read gives is one of the images that a crash may leave.
    ghost stands: { (disk : Self) → told.tells → (shown disk).may_leave (shown disk).seen };

    /// This moment is one of those since an earlier one.
    ghost counts_now: { (disk : Self) → told.tells → (t : ℕ) (image : List ℕ) → t ≤ (shown disk).moment
        → (shown disk).may_leave image → (shown disk).left_since t image };

    /// Since this moment there is no other.
    ghost only_now: { (disk : Self) → told.tells → (image : List ℕ)
        → (shown disk).left_since (shown disk).moment image → (shown disk).may_leave image };
}

/// A disk whose troubles can be planned.
pub trait Planned: Disk {
    /// Lets `calls` further calls pass; the next one crashes the disk, which leaves the image of that number, and every
    /// later one answers `Failed`. It replaces an earlier fuse.
    fn fuse(&mut self, calls: u32, image: u8)
        requires image { image < 5 }
        ensures { DiskPlans (Self.shown self.old) (Self.shown self.new)
            (record (Self.shown self.old).trouble { fuse = Some (calls, image) }) };

    /// Lets `calls` further calls pass; the next one answers `Failed` without effect. It replaces an earlier failure.
    fn fail(&mut self, calls: u32)
        ensures { DiskPlans (Self.shown self.old) (Self.shown self.new)
            (record (Self.shown self.old).trouble { failure = Some calls }) };

    /// Whether a fuse has burnt the disk.
    fn burnt(&self) -> bool
        ensures { result ≡ (Self.shown self.now).trouble.burnt };
}
