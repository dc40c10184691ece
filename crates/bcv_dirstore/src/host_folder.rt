ghost use Rattle.std.specs.Prelude.{◌≡◌, ◌≢◌, ◌≤◌, ℕ, List, [], length};
ghost use Rattle.bcv_base.specs.Faults.{Rose};

use crate::folder::{Folder, FolderEnd, Front, Lock};
use crate::host_files::{add_blocks, read_front, read_rest, remove_file, sync_file, write_file};
use bcv_base::{Id16, ObjName};
use bcv_host::{OpenFault, open_folder};
use std::alloc::{AllocError, Global};
use std::fs::File;
use std::io::ErrorKind;
use std::rt::Files;
use std::{fs, io};

/// A folder of the system, locked by an advisory lock on the folder itself.
///
/// An object's file has its name, and its draft that name and `.tmp`. A draft that a crash left is no object, and the next
/// put of that object writes over it. What was written is synced at last when a manifest is put. After a sync that failed
/// the system may have dropped what it could not write, and a later sync would not say so: so every later one fails too.
#[derive(Drop)]
pub struct HostFolder<R> {
    rt: R,
    path: String,
    folder: File,
    draft: Option<File>,
    unsynced: Vec<Id16>,
    distrusted: bool,
    syncs: u64,
    faults: u64,
}

impl<R: Files<File = File> + AllocGlobal + Clone + Drop> HostFolder<R> {
    ghost use Rattle.bcv_dirstore.specs.HostShown.{host_faults, EndsCall};

    /// Opens the folder that a path names.
    pub fn on(rt: R, path: &str) -> Result<HostFolder<R>, OpenFault> {
        let folder = open_folder(&rt, path)?;
        Ok(HostFolder {
            path: String::from_str(rt.alloc(), path)?,
            unsynced: Vec::new(rt.alloc()),
            rt,
            folder,
            draft: None,
            distrusted: false,
            syncs: 0,
            faults: 0,
        })
    }

    /// How many files, and folders for their names, were synced.
    pub fn syncs(&self) -> u64 {
        self.syncs
    }

    // The path of an object's file, with an ending.
    fn path_of(&self, name: &ObjName, ending: &str) -> Result<String, AllocError> {
        object_path(self.rt.alloc(), &self.path, name, ending)
    }

    // How a call of the system ended, of which a failure is counted.
    fn ended(&mut self, answer: io::Result<()>) -> FolderEnd
        ensures { EndsCall (host_faults self.old) (host_faults self.new) result }
    {
        match answer {
            Ok(()) => FolderEnd::Done,
            Err(error) => self.fault(error),
        }
    }

    // What an error of the system is to a caller; but for want of memory it is counted.
    fn fault(&mut self, error: io::Error) -> FolderEnd
        ensures ends { EndsCall (host_faults self.old) (host_faults self.new) result }
        ensures undone { result ≢ FolderEnd.Done }
    {
        if error.kind() == ErrorKind::OutOfMemory {
            return FolderEnd::NoMemory;
        }
        self.failed()
    }

    // Counts a call that failed.
    fn failed(&mut self) -> FolderEnd
        ensures failed { result ≡ FolderEnd.Failed }
        ensures ends { EndsCall (host_faults self.old) (host_faults self.new) result }
    {
        self.faults = self.faults.saturating_add(1);
        FolderEnd::Failed
    }

    // Writes the draft of an object, and keeps it open until it is synced.
    fn write_draft(&mut self, name: &ObjName, front: [u8; 8], bytes: &[u8]) -> io::Result<()>
        ensures { host_faults self.new ≡ host_faults self.old }
    {
        let path = self.path_of(name, ".tmp")?;
        if let ObjName::Block(id) = name {
            self.unsynced.push(*id)?;
        }
        self.draft = Some(write_file(&self.rt, &path, front, bytes)?);
        Ok(())
    }

    // Syncs the draft that is open, and the files of the blocks that were put.
    fn sync_written(&mut self) -> io::Result<()>
        ensures { host_faults self.new ≡ host_faults self.old }
    {
        let mut synced = 0;
        if let Some(draft) = &self.draft {
            draft.sync_all()?;
            synced = 1;
        }
        for id in self.unsynced.iter() {
            let path = object_path(self.rt.alloc(), &self.path, &ObjName::Block(*id), "")?;
            sync_file(&self.rt, &path)?;
        }
        self.syncs = self
            .syncs
            .saturating_add(synced)
            .saturating_add(self.unsynced.len() as u64);
        Ok(())
    }

    fn rename_draft(&self, name: &ObjName) -> io::Result<()> {
        let from = self.path_of(name, ".tmp")?;
        let to = self.path_of(name, "")?;
        fs::rename(&self.rt, &from, &to)
    }
}

// The path of an object's file in a folder, with an ending.
fn object_path(
    alloc: Global,
    folder: &str,
    name: &ObjName,
    ending: &str,
) -> Result<String, AllocError> {
    let text = name.write();
    let mut path = String::from_str(alloc, folder)?;
    path.push('/')?;
    for byte in text.bytes.iter().take(text.len as usize) {
        path.push(char::from(*byte))?;
    }
    path.push_str(ending)?;
    Ok(path)
}

impl<R: Files<File = File> + AllocGlobal + Clone + Drop> Folder for HostFolder<R> {
    ghost use Rattle.bcv_dirstore.specs.HostShown.{host_faults, tells_no_file, untold_folder};

    ghost told = { tells_no_file };

    ghost shown = { λ folder. untold_folder (host_faults folder) };

    fn lock(&mut self, how: Lock) -> FolderEnd {
        let locked = match how {
            Lock::Shared => self.folder.lock_shared(),
            Lock::Exclusive => self.folder.lock(),
        };
        self.ended(locked)
    }

    fn unlock(&mut self) {
        let _ = self.folder.unlock();
    }

    fn front(&mut self, alloc: Global, name: &ObjName) -> Front {
        let _ = alloc;
        let Ok(path) = self.path_of(name, "") else {
            return Front::NoMemory;
        };
        match read_front(&self.rt, &path) {
            Ok(front) => front,
            Err(_) => {
                let _ = self.failed();
                Front::Failed
            }
        }
    }

    fn rest(&mut self, alloc: Global, name: &ObjName, len: usize, into: &mut Vec<u8>) -> FolderEnd {
        let _ = alloc;
        let Ok(path) = self.path_of(name, "") else {
            return FolderEnd::NoMemory;
        };
        match read_rest(&self.rt, &path, len, into) {
            Ok(()) => FolderEnd::Done,
            Err(error) => {
                into.clear();
                self.fault(error)
            }
        }
    }

    fn write(&mut self, alloc: Global, name: &ObjName, front: [u8; 8], bytes: &[u8]) -> FolderEnd {
        let _ = alloc;
        let written = self.write_draft(name, front, bytes);
        self.ended(written)
    }

    fn sync_files(&mut self, alloc: Global) -> FolderEnd {
        let _ = alloc;
        if self.distrusted {
            return self.failed();
        }
        let synced = self.sync_written();
        match self.ended(synced) {
            FolderEnd::Done => {
                self.draft = None;
                self.unsynced.clear();
                FolderEnd::Done
            }
            FolderEnd::Failed => {
                self.distrusted = true;
                FolderEnd::Failed
            }
            FolderEnd::NoMemory => FolderEnd::NoMemory,
        }
    }

    fn rename(&mut self, alloc: Global, name: &ObjName) -> FolderEnd {
        let _ = alloc;
        let renamed = self.rename_draft(name);
        self.ended(renamed)
    }

    fn sync_names(&mut self) -> FolderEnd {
        self.syncs = self.syncs.saturating_add(1);
        if self.distrusted || self.folder.sync_all().is_err() {
            self.distrusted = true;
            return self.failed();
        }
        FolderEnd::Done
    }

    fn remove(&mut self, alloc: Global, name: &ObjName) -> FolderEnd {
        let _ = alloc;
        let Ok(path) = self.path_of(name, "") else {
            return FolderEnd::NoMemory;
        };
        let removed = remove_file(&self.rt, &path);
        self.ended(removed)
    }

    fn blocks(&mut self, alloc: Global, into: &mut Vec<Id16>) -> FolderEnd {
        let _ = alloc;
        let added = add_blocks(&self.rt, &self.path, into);
        self.ended(added)
    }
}
