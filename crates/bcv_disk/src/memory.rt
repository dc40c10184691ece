ghost use Rattle.std.specs.Prelude.{◌≡◌, ◌≢◌, ◌≤◌, ◌<◌, ◌+◌, ◌^◌, ℕ, false, None, Some, length, take, drop};
ghost use Rattle.bcv_disk.specs.DiskCalls.{Len, Read, Write, Cut, Sync, ended};
ghost use Rattle.bcv_disk.specs.Memory.{burning, failure_after, fuse_after, is_struck};
ghost use Rattle.bcv_disk.specs.Record.{content};
ghost use Rattle.bcv_disk.specs.Story.{untouched, with_crash};

use crate::platter::{Platter, raise};
use crate::{Disk, DiskEnd, Planned, Size};
use std::alloc::Global;

/// A disk in memory. It keeps the record of its calls, and tells its bytes and its troubles.
#[derive(Drop)]
pub struct MemDisk {
    platter: Platter,
    burnt: bool,
    fuse: Option<(u32, u8)>,
    failure: Option<u32>,
    calls: u64,
    faults: u64,
}

/// How a call is struck.
enum Blow {
    Spared,
    /// It fails without effect.
    Fails,
    /// It crashes the disk, which leaves the image of this number.
    Burns(u8),
}

impl MemDisk {
    ghost use Rattle.bcv_disk.specs.Memory.{SaysBesides, after_call, blow_of, faults_struck, trouble_of};

    /// An empty disk with no trouble set.
    pub fn new(alloc: Global) -> MemDisk
        ensures platter { result.platter ≡ untouched }
        ensures trouble { trouble_of result ≡ record {
          burnt = false;
          fuse = None;
          failure = None;
          calls = 0;
        } }
        ensures faults { result.faults ≡ 0 }
    {
        MemDisk {
            platter: Platter::new(alloc),
            burnt: false,
            fuse: None,
            failure: None,
            calls: 0,
            faults: 0,
        }
    }

    /// Crashes the disk now, which leaves the image of that number. Counters that are set stay set.
    pub fn crash(&mut self, image: u8) -> DiskEnd
        requires image { image < 5 }
        ensures done { result ≡ DiskEnd.Done }
        ensures crashed { self.new ≡ record self.old { platter = with_crash image self.old.platter } }
    {
        self.platter.crash(image);
        DiskEnd::Done
    }

    /// Ends what a burnt fuse has begun: calls are answered again. All else stays.
    pub fn mend(&mut self)
        ensures { self.new ≡ record self.old { burnt = false } }
    {
        self.burnt = false;
    }

    // Counts a call, and returns what strikes it.
    fn strike(&mut self) -> Blow
        ensures blow { result ≡ blow_of (trouble_of self.old) }
        ensures trouble { trouble_of self.new ≡ after_call (trouble_of self.old) }
        ensures faults { self.new.faults ≡ faults_struck result self.old.faults }
        ensures platter { self.new.platter ≡ self.old.platter }
    {
        if self.burnt {
            raise(&mut self.faults);
            return Blow::Fails;
        }
        self.calls = self.calls.saturating_add(1);
        let fails = count_failure(&mut self.failure);
        match count_fuse(&mut self.fuse) {
            Some(image) => {
                self.burnt = true;
                raise(&mut self.faults);
                Blow::Burns(image)
            }
            None if fails => {
                raise(&mut self.faults);
                Blow::Fails
            }
            None => Blow::Spared,
        }
    }

    fn tell_len(&mut self) -> Size
        ensures besides { SaysBesides self.old self.new Len (ended result) }
        ensures len { (n : ℕ) → result ≡ Size.Len n → n ≡ length (content self.old.platter.acts) }
    {
        match self.strike() {
            Blow::Spared => Size::Len(self.platter.bytes().len() as u64),
            Blow::Fails => Size::Failed,
            Blow::Burns(image) => {
                self.platter.crash(image);
                Size::Failed
            }
        }
    }

    fn read_bytes(&mut self, at: u64, into: &mut [u8]) -> DiskEnd
        requires within { at + length into.old ≤ length (content self.old.platter.acts) }
        requires fits { at + length into.old ≤ 2 ^ 32 }
        ensures besides { SaysBesides self.old self.new (Read at (length into.old)) result }
        ensures bytes { result ≡ DiskEnd.Done → into.new
            ≡ take (length into.old) (drop at (content self.old.platter.acts)) }
        ensures answers { result ≢ DiskEnd.NoMemory }
    {
        match self.strike() {
            Blow::Spared => {
                let from = at as usize;
                let end = from + into.len();
                into.copy_from_slice(&self.platter.bytes()[from..end]);
                DiskEnd::Done
            }
            Blow::Fails => DiskEnd::Failed,
            Blow::Burns(image) => {
                self.platter.crash(image);
                DiskEnd::Failed
            }
        }
    }

    fn write_bytes(&mut self, alloc: Global, at: u64, bytes: &[u8]) -> DiskEnd
        requires from { at ≤ length (content self.old.platter.acts) }
        requires fits { at + length bytes.now ≤ 2 ^ 32 }
        ensures { SaysBesides self.old self.new (Write at bytes.now) result }
    {
        match self.strike() {
            Blow::Spared => match self.platter.write(alloc, at, bytes) {
                Ok(()) => DiskEnd::Done,
                Err(_) => DiskEnd::NoMemory,
            },
            Blow::Fails => DiskEnd::Failed,
            Blow::Burns(image) => {
                let _ = self.platter.write(alloc, at, bytes);
                self.platter.crash(image);
                DiskEnd::Failed
            }
        }
    }

    fn cut_bytes(&mut self, alloc: Global, len: u64) -> DiskEnd
        requires { len ≤ length (content self.old.platter.acts) }
        ensures { SaysBesides self.old self.new (Cut len) result }
    {
        match self.strike() {
            Blow::Spared => match self.platter.cut(alloc, len) {
                Ok(()) => DiskEnd::Done,
                Err(_) => DiskEnd::NoMemory,
            },
            Blow::Fails => DiskEnd::Failed,
            Blow::Burns(image) => {
                let _ = self.platter.cut(alloc, len);
                self.platter.crash(image);
                DiskEnd::Failed
            }
        }
    }

    fn sync_bytes(&mut self) -> DiskEnd
        ensures besides { SaysBesides self.old self.new Sync result }
        ensures answers { result ≢ DiskEnd.NoMemory }
    {
        match self.strike() {
            Blow::Spared => {
                self.platter.sync();
                DiskEnd::Done
            }
            Blow::Fails => DiskEnd::Failed,
            Blow::Burns(image) => {
                self.platter.crash(image);
                DiskEnd::Failed
            }
        }
    }
}

// Counts a call, and says whether the failure that is set strikes it.
fn count_failure(failure: &mut Option<u32>) -> bool
    ensures strikes { result ≡ is_struck failure.old }
    ensures after { failure.new ≡ failure_after failure.old }
{
    match *failure {
        None => false,
        Some(0) => {
            *failure = None;
            true
        }
        Some(calls) => {
            *failure = Some(calls - 1);
            false
        }
    }
}

// Counts a call, and returns the image of a fuse that burns in it.
fn count_fuse(fuse: &mut Option<(u32, u8)>) -> Option<u8>
    ensures burns { result ≡ burning fuse.old }
    ensures after { fuse.new ≡ fuse_after fuse.old }
{
    match *fuse {
        None => None,
        Some((0, image)) => {
            *fuse = None;
            Some(image)
        }
        Some((calls, image)) => {
            *fuse = Some((calls - 1, image));
            None
        }
    }
}

impl Disk for MemDisk {
    ghost use Rattle.bcv_disk.specs.Memory.{SaysBesides, shown_of, tells_all};
    ghost use Rattle.bcv_disk.specs.Told.{stands_now, counts_then, only_then};

    ghost told = { tells_all };

    ghost shown = { shown_of };

    ghost besides = { SaysBesides };

    ghost stands = { λ m told. stands_now m.platter.acts };

    ghost counts_now = { λ m told t image le now. counts_then m.platter.idle m.platter.acts t image le now };

    ghost only_now = { λ m told image left. only_then m.platter.idle m.platter.acts image left };

    fn len(&mut self) -> Size {
        self.tell_len()
    }

    fn read(&mut self, at: u64, into: &mut [u8]) -> DiskEnd {
        self.read_bytes(at, into)
    }

    fn write_at(&mut self, alloc: Global, at: u64, bytes: &[u8]) -> DiskEnd {
        self.write_bytes(alloc, at, bytes)
    }

    fn cut(&mut self, alloc: Global, len: u64) -> DiskEnd {
        self.cut_bytes(alloc, len)
    }

    fn sync(&mut self) -> DiskEnd {
        self.sync_bytes()
    }
}

impl Planned for MemDisk {
    fn fuse(&mut self, calls: u32, image: u8) {
        self.fuse = Some((calls, image));
    }

    fn fail(&mut self, calls: u32) {
        self.failure = Some(calls);
    }

    fn burnt(&self) -> bool {
        self.burnt
    }
}
