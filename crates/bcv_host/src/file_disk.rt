ghost use Rattle.std.specs.Prelude.{◌≡◌, ◌≢◌, ◌≤◌, ◌<◌, ◌+◌, ◌^◌, ℕ, List, length};
ghost use Rattle.bcv_base.specs.Plan.{one_more};
ghost use Rattle.bcv_disk.specs.DiskCalls.{DiskCuts, DiskLens, DiskReads, DiskSyncs, DiskWrites};

use crate::fault::OpenFault;
use crate::folder::open_folder;
use bcv_disk::{Disk, DiskEnd, Size};
use std::alloc::Global;
use std::fs::{File, OpenOptions, TryLockError};
use std::os::unix::fs::FileExt;
use std::rt::Files;

/// A disk over the file `journal` of a folder, which is locked as long as the disk is there.
///
/// Its reads and writes go straight to the file, and its sync is the file's own. It tells no bytes: what the file keeps is
/// the system's to say.
#[derive(Drop)]
pub struct FileDisk {
    file: File,
    faults: u64,
}

impl FileDisk {
    ghost use Rattle.bcv_host.specs.FileShown.{disk_faults, EndsAs};

    /// Opens the file `journal` in a folder, which it makes where there is none, and syncs the folder.
    ///
    /// The folder is synced each time, since an earlier process may have made the file and ended before it came to that. It
    /// answers `InUse` where another process, or another disk of this one, has the file open.
    pub fn on<R: Files<File = File> + AllocGlobal>(
        rt: &R,
        path: &str,
    ) -> Result<FileDisk, OpenFault> {
        let folder = open_folder(rt, path)?;
        let mut name = String::from_str(rt.alloc(), path)?;
        name.push_str("/journal")?;
        let file = open_or_make(rt, &name)?;
        lock(&file)?;
        match folder.sync_all() {
            Ok(()) => Ok(FileDisk { file, faults: 0 }),
            Err(_) => Err(OpenFault::Failed),
        }
    }

    // Counts a call that failed.
    fn count_fault(&mut self)
        ensures counts { disk_faults self.new ≡ one_more (disk_faults self.old) }
        ensures later { disk_faults self.old ≤ disk_faults self.new }
    {
        self.faults = self.faults.saturating_add(1);
    }

    // How a call of the system ended, of which a failure is counted.
    fn ended(&mut self, done: bool) -> DiskEnd
        ensures ends { EndsAs done (disk_faults self.old) (disk_faults self.new) result }
        ensures later { disk_faults self.old ≤ disk_faults self.new }
    {
        if done {
            return DiskEnd::Done;
        }
        self.count_fault();
        DiskEnd::Failed
    }
}

// Opens a file for reads and writes, and makes it where it is not there.
fn open_or_make<R: Files<File = File>>(rt: &R, name: &str) -> Result<File, OpenFault> {
    match OpenOptions::new()
        .read(true)
        .write(true)
        .create(true)
        .open(rt, name)
    {
        Ok(file) => Ok(file),
        Err(_) => Err(OpenFault::Failed),
    }
}

// Takes the lock on a file, where nobody else has it.
fn lock(file: &File) -> Result<(), OpenFault> {
    match file.try_lock() {
        Ok(()) => Ok(()),
        Err(TryLockError::WouldBlock) => Err(OpenFault::InUse),
        Err(TryLockError::Error(_)) => Err(OpenFault::Failed),
    }
}

impl Disk for FileDisk {
    ghost use Rattle.bcv_host.specs.FileShown.{disk_faults, tells_nothing, untold_disk};

    ghost told = { tells_nothing };

    ghost shown = { λ disk. untold_disk (disk_faults disk) };

    ghost besides = { λ _ _ _ _. Unit {0} };

    ghost stands = { λ disk told. absurd told };

    ghost counts_now = { λ disk told. absurd told };

    ghost only_now = { λ disk told. absurd told };

    fn len(&mut self) -> Size {
        match self.file.metadata() {
            Ok(found) => Size::Len(found.len()),
            Err(_) => {
                self.count_fault();
                Size::Failed
            }
        }
    }

    fn read(&mut self, at: u64, into: &mut [u8]) -> DiskEnd {
        let done = self.file.read_exact_at(into, at).is_ok();
        self.ended(done)
    }

    fn write_at(&mut self, alloc: Global, at: u64, bytes: &[u8]) -> DiskEnd {
        let _ = alloc;
        let done = self.file.write_all_at(bytes, at).is_ok();
        self.ended(done)
    }

    fn cut(&mut self, alloc: Global, len: u64) -> DiskEnd {
        let _ = alloc;
        let done = self.file.set_len(len).is_ok();
        self.ended(done)
    }

    fn sync(&mut self) -> DiskEnd {
        let done = self.file.sync_all().is_ok();
        self.ended(done)
    }
}
