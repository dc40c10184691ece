ghost use Rattle.std.specs.Prelude.{◌≡◌, ◌≢◌, ◌≤◌, ℕ, Bool, true, false, List, [], ◌++◌, Option, Some, None, IsSome, IfOk, OnOk, OnErr, if◌then◌else◌};
ghost use Rattle.bcv_base.specs.Faults.{Rose};
ghost use Rattle.bcv_base.specs.Log.{name_eq};
ghost use Rattle.bcv_base.specs.declared.object.ObjName.{ObjName};
ghost use Rattle.bcv_base.specs.declared.object.ObjName.TheVariants as object;
ghost use Rattle.bcv_dirstore.specs.declared.folder.Lock.TheVariants.{Exclusive};
ghost use Rattle.bcv_dirstore.specs.FolderCalls.{IsFront};

use crate::folder::{Folder, FolderEnd, Front, Lock};
use crate::mem_files::MemFiles;
use bcv_base::{Id16, ObjName, Seq};
use std::alloc::{AllocError, Global};

/// A folder in memory, which tells its files and fails where it was told to.
#[derive(Drop)]
pub struct MemFolder {
    files: MemFiles,
    draft: Option<(ObjName, Seq<u8>)>,
    lock: Option<Lock>,
    synced: bool,
    named: bool,
    failure: Option<u32>,
    faults: u64,
}

impl MemFolder {
    ghost use Rattle.bcv_dirstore.specs.MemShown.{shown_of, is_due, Counted};

    /// An empty folder, of which no call is planned to fail.
    pub fn new(alloc: Global) -> MemFolder
        ensures files { (name : ObjName) → (shown_of result).files name ≡ None }
        ensures lock { (shown_of result).lock ≡ None }
        ensures faults { (shown_of result).faults ≡ 0 }
        ensures failure { (shown_of result).fails_next ≡ false }
    {
        MemFolder {
            files: MemFiles::new(alloc),
            draft: None,
            lock: None,
            synced: true,
            named: true,
            failure: None,
            faults: 0,
        }
    }

    /// Lets `calls` further calls pass; the next one fails without effect. It replaces an earlier plan.
    pub fn fail(&mut self, calls: u32)
        ensures due { (shown_of self.new).fails_next ≡ is_due (Some calls) }
        ensures files { (shown_of self.new).files ≡ (shown_of self.old).files }
        ensures faults { (shown_of self.new).faults ≡ (shown_of self.old).faults }
    {
        self.failure = Some(calls);
    }

    /// Gives an object's file these bytes, whether they are an object or not.
    pub fn set_file(&mut self, name: &ObjName, bytes: Seq<u8>) -> Result<(), AllocError>
        ensures file { OnOk result ((shown_of self.new).files name.now ≡ Some bytes) }
        ensures faults { (shown_of self.new).faults ≡ (shown_of self.old).faults }
    {
        self.files.set(name, bytes)
    }

    // Counts a call, and says whether it fails.
    fn strikes(&mut self) -> bool
        ensures planned { result ≡ is_due self.old.failure }
        ensures counted { Counted self.old self.new }
        ensures rose { result ≡ true → Rose self.old.faults self.new.faults }
    {
        match self.failure {
            None => false,
            Some(0) => {
                self.failure = None;
                self.faults = self.faults.saturating_add(1);
                true
            }
            Some(calls) => {
                self.failure = Some(calls - 1);
                false
            }
        }
    }
}

// What a file of these bytes begins with.
fn front_of(bytes: &[u8]) -> Front
    ensures is { IsFront (Some bytes.now) result }
    ensures read { result ≢ Front.Failed }
{
    match bytes.split_first_chunk::<8>() {
        Some((first, rest)) => Front::Whole(*first, rest.len() as u64),
        None => Front::Short,
    }
}

// Eight bytes and then the others.
fn joined(alloc: Global, front: [u8; 8], bytes: &[u8]) -> Result<Seq<u8>, AllocError>
    ensures { IfOk result (λ all. all ≡ front ++ bytes.now) }
{
    let mut all = Vec::from_slice(alloc, &front)?;
    all.extend_from_slice(bytes)?;
    Ok(Seq::of(all))
}

impl Folder for MemFolder {
    ghost use Rattle.bcv_dirstore.specs.MemShown.{shown_of, tells_all};

    ghost told = { tells_all };

    ghost shown = { shown_of };

    fn lock(&mut self, how: Lock) -> FolderEnd {
        if self.strikes() {
            self.lock = None;
            return FolderEnd::Failed;
        }
        self.lock = Some(how);
        FolderEnd::Done
    }

    fn unlock(&mut self) {
        self.lock = None;
    }

    fn front(&mut self, alloc: Global, name: &ObjName) -> Front {
        let _ = alloc;
        if self.strikes() {
            return Front::Failed;
        }
        match self.files.get(name) {
            Some(bytes) => front_of(bytes),
            None => Front::Missing,
        }
    }

    fn rest(&mut self, alloc: Global, name: &ObjName, len: usize, into: &mut Vec<u8>) -> FolderEnd {
        let _ = (alloc, len);
        if self.strikes() {
            return FolderEnd::Failed;
        }
        let Some(bytes) = self.files.get(name) else {
            unreachable!()
        };
        match into.extend_from_slice(&bytes[8..]) {
            Ok(()) => FolderEnd::Done,
            Err(_) => FolderEnd::NoMemory,
        }
    }

    fn write(&mut self, alloc: Global, name: &ObjName, front: [u8; 8], bytes: &[u8]) -> FolderEnd {
        if self.strikes() {
            return FolderEnd::Failed;
        }
        let Ok(all) = joined(alloc, front, bytes) else {
            return FolderEnd::NoMemory;
        };
        self.draft = Some((*name, all));
        self.synced = false;
        FolderEnd::Done
    }

    fn sync_files(&mut self, alloc: Global) -> FolderEnd {
        let _ = alloc;
        if self.strikes() {
            return FolderEnd::Failed;
        }
        self.synced = true;
        FolderEnd::Done
    }

    fn rename(&mut self, alloc: Global, name: &ObjName) -> FolderEnd {
        let _ = alloc;
        if self.strikes() {
            return FolderEnd::Failed;
        }
        let Some((_, bytes)) = self.draft.take() else {
            unreachable!()
        };
        self.named = false;
        match self.files.set(name, bytes) {
            Ok(()) => FolderEnd::Done,
            Err(_) => FolderEnd::NoMemory,
        }
    }

    fn sync_names(&mut self) -> FolderEnd {
        if self.strikes() {
            return FolderEnd::Failed;
        }
        self.named = true;
        FolderEnd::Done
    }

    fn remove(&mut self, alloc: Global, name: &ObjName) -> FolderEnd {
        let _ = alloc;
        if self.strikes() {
            return FolderEnd::Failed;
        }
        self.named = false;
        self.files.remove(name);
        FolderEnd::Done
    }

    fn blocks(&mut self, alloc: Global, into: &mut Vec<Id16>) -> FolderEnd {
        let _ = alloc;
        if self.strikes() {
            return FolderEnd::Failed;
        }
        match self.files.ids(into) {
            Ok(()) => FolderEnd::Done,
            Err(_) => FolderEnd::NoMemory,
        }
    }
}
