ghost use Rattle.std.specs.Prelude.{◌≡◌, ◌≤◌, ℕ, List, [], Option, true};
ghost use Rattle.std.specs.Option.{option_copied};
ghost use Rattle.bcv_base.specs.Plan.{one_more};
ghost use Rattle.bcv_store.specs.Requests.{StoreGets, StorePuts, StoreDeletes, StoreLists};
ghost use Rattle.bcv_store.specs.Within.{IsGotWithin, IsListedWithin};
ghost use Rattle.bcv_dirstore.specs.FolderCalls.{FolderFails};
ghost use Rattle.bcv_dirstore.specs.Answers.{FolderGets, FolderPuts, FolderDeletes, FolderLists};

use crate::folder::{Folder, FolderEnd, Lock};
use crate::host_folder::HostFolder;
use crate::listing::list_blocks;
use crate::object_file::{put_object, read_object};
use bcv_base::{Id16, ObjName};
use bcv_host::OpenFault;
use bcv_store::{Cond, Del, Got, Listed, Put, Store};
use std::alloc::Global;
use std::fs::File;
use std::rt::Files;

/// A store in a folder.
///
/// Its own count of faults rises by each request that fails.
#[derive(Debug, Drop)]
pub struct DirStore<F> {
    folder: F,
    faults: u64,
}

impl<F: Folder> DirStore<F> {
    ghost use Rattle.bcv_dirstore.specs.Told.{faults_of, folder_of};

    /// A store in this folder, of whatever objects lie there.
    pub fn new(folder: F) -> DirStore<F>
        ensures folder { folder_of result ≡ folder }
        ensures faults { faults_of result ≡ 0 }
    {
        DirStore { folder, faults: 0 }
    }

    /// The folder.
    pub fn folder(&self) -> &F
        ensures { result.now ≡ folder_of self.now }
    {
        &self.folder
    }

    /// The folder, for what a caller does to it beside the store.
    pub fn into_folder(self) -> F
        ensures { result ≡ folder_of self }
    {
        let DirStore { folder, faults: _ } = self;
        folder
    }

    // Counts a request that failed.
    fn count_fault(&mut self)
        ensures counts { faults_of self.new ≡ one_more (faults_of self.old) }
        ensures later { faults_of self.old ≤ faults_of self.new }
        ensures folder { folder_of self.new ≡ folder_of self.old }
    {
        self.faults = self.faults.saturating_add(1);
    }
}

impl<R: Files<File = File> + AllocGlobal + Clone + Drop> DirStore<HostFolder<R>> {
    /// A store in the folder that a path names.
    pub fn on(rt: R, path: &str) -> Result<DirStore<HostFolder<R>>, OpenFault> {
        Ok(DirStore {
            folder: HostFolder::on(rt, path)?,
            faults: 0,
        })
    }
}

// Answers a get under a shared lock. `into` is empty before, and after every answer but `Found`.
fn get_locked<F: Folder>(
    folder: &mut F,
    alloc: Global,
    name: &ObjName,
    unless: Option<u64>,
    into: &mut Vec<u8>,
    most: usize,
) -> Got
    requires { into.old.items ≡ [] }
    ensures files { F.told.tells → FolderGets F.told (F.shown folder.old)
        (F.shown folder.new) name.now unless most into.new.items result }
    ensures within { IsGotWithin unless most into.new.items result }
{
    match folder.lock(Lock::Shared) {
        FolderEnd::Done => {}
        FolderEnd::Failed => return Got::Failed,
        FolderEnd::NoMemory => return Got::NoMemory,
    }
    let answer = read_object(folder, alloc, name, unless, into, most);
    folder.unlock();
    answer
}

// Puts an object under an exclusive lock: the condition and the put are one step.
fn put_locked<F: Folder>(
    folder: &mut F,
    alloc: Global,
    name: &ObjName,
    cond: Cond,
    bytes: &[u8],
) -> Put
    ensures files { F.told.tells → FolderPuts F.told (F.shown folder.old)
        (F.shown folder.new) name.now cond bytes.now result }
{
    match folder.lock(Lock::Exclusive) {
        FolderEnd::Done => {}
        FolderEnd::Failed => return Put::Failed,
        FolderEnd::NoMemory => return Put::NoMemory,
    }
    let answer = put_object(folder, alloc, name, cond, bytes);
    folder.unlock();
    answer
}

// Deletes an object under an exclusive lock.
fn delete_locked<F: Folder>(folder: &mut F, alloc: Global, name: &ObjName) -> Del
    ensures files { F.told.tells → FolderDeletes F.told (F.shown folder.old)
        (F.shown folder.new) name.now result }
{
    match folder.lock(Lock::Exclusive) {
        FolderEnd::Done => {}
        FolderEnd::Failed => return Del::Failed,
        FolderEnd::NoMemory => return Del::NoMemory,
    }
    let end = folder.remove(alloc, name);
    folder.unlock();
    match end {
        FolderEnd::Done => Del::Done,
        FolderEnd::Failed => Del::Failed,
        FolderEnd::NoMemory => Del::NoMemory,
    }
}

impl<F: Folder> Store for DirStore<F> {
    ghost use Rattle.std.specs.Prelude.{◌≤◌};
    ghost use Rattle.std.proofs.Common.{arith};
    ghost use Rattle.bcv_dirstore.specs.Told.{tells_nothing, untold, faults_of, folder_of, CountsFault};

    ghost told = { tells_nothing };

    ghost shown = { λ store. untold (faults_of store) };

    ghost reaches = { λ old new. faults_of old ≤ faults_of new };

    fn get(
        &mut self,
        alloc: Global,
        name: &ObjName,
        unless: Option<u64>,
        into: &mut Vec<u8>,
        most: usize,
    ) -> Got
        ensures gets { StoreGets tells_nothing (untold (faults_of self.old))
            (untold (faults_of self.new)) name.now unless most into.new.items result }
        ensures reached { faults_of self.old ≤ faults_of self.new }
        ensures files { F.told.tells → FolderGets F.told (F.shown (folder_of self.old))
            (F.shown (folder_of self.new)) name.now unless most into.new.items result }
        ensures counts { CountsFault (result ≡ Got.Failed) (faults_of self.old)
            (faults_of self.new) }
    {
        into.clear();
        match get_locked(&mut self.folder, alloc, name, unless, into, most) {
            Got::Failed => {
                self.count_fault();
                Got::Failed
            }
            answer => answer,
        }
    }

    fn put(&mut self, alloc: Global, name: &ObjName, cond: Cond, bytes: &[u8]) -> Put
        ensures puts { StorePuts tells_nothing (untold (faults_of self.old))
            (untold (faults_of self.new)) name.now cond bytes.now result }
        ensures reached { faults_of self.old ≤ faults_of self.new }
        ensures files { F.told.tells → FolderPuts F.told (F.shown (folder_of self.old))
            (F.shown (folder_of self.new)) name.now cond bytes.now result }
        ensures counts { CountsFault (result ≡ Put.Failed) (faults_of self.old)
            (faults_of self.new) }
    {
        match put_locked(&mut self.folder, alloc, name, cond, bytes) {
            Put::Failed => {
                self.count_fault();
                Put::Failed
            }
            answer => answer,
        }
    }

    // The moment of a deletion is kept in no file.
    fn delete(&mut self, alloc: Global, name: &ObjName, at: u64) -> Del
        ensures deletes { StoreDeletes tells_nothing (untold (faults_of self.old))
            (untold (faults_of self.new)) name.now at result }
        ensures reached { faults_of self.old ≤ faults_of self.new }
        ensures files { F.told.tells → FolderDeletes F.told (F.shown (folder_of self.old))
            (F.shown (folder_of self.new)) name.now result }
        ensures counts { CountsFault (result ≡ Del.Failed) (faults_of self.old)
            (faults_of self.new) }
    {
        let _ = at;
        match delete_locked(&mut self.folder, alloc, name) {
            Del::Failed => {
                self.count_fault();
                Del::Failed
            }
            answer => answer,
        }
    }

    fn list(&mut self, alloc: Global, after: Option<&Id16>, into: &mut Vec<Id16>) -> Listed
        ensures lists { StoreLists tells_nothing (untold (faults_of self.old))
            (untold (faults_of self.new)) (option_copied after.entry) into.new.items result }
        ensures reached { faults_of self.old ≤ faults_of self.new }
        ensures files { F.told.tells → FolderLists F.told (F.shown (folder_of self.old))
            (F.shown (folder_of self.new)) (option_copied after.entry) into.new.items result }
        ensures counts { CountsFault (result ≡ Listed.Failed) (faults_of self.old)
            (faults_of self.new) }
    {
        into.clear();
        match list_blocks(&mut self.folder, alloc, after, into) {
            Listed::Failed => {
                self.count_fault();
                Listed::Failed
            }
            answer => answer,
        }
    }

    ghost rising = { λ store told. absurd told };

    ghost same = { λ store. omega arith };

    ghost through = { λ first second third h k. omega (arith, h, k) };

    ghost counted = { λ old new h. h };
}
