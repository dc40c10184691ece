ghost use Rattle.std.specs.Prelude.{◌≡◌, ◌≢◌, ℕ, true, List, [], Option, Some, IsSome};
ghost use Rattle.bcv_base.specs.declared.object.ObjName.TheVariants as object;
ghost use Rattle.bcv_dirstore.specs.FolderCalls.{FolderLocks, FolderUnlocks, FolderFronts, FolderRests, HasRest, FolderWrites, FolderSyncs, FolderRenames, FolderNames, FolderRemoves, FolderBlocks};

use bcv_base::{Id16, ObjName};
use std::alloc::Global;

/// How a folder is locked: beside other readers, or alone.
#[derive(Clone, Copy, Debug, PartialEq, Eq)]
pub enum Lock {
    Shared,
    Exclusive,
}

/// How a call of a folder ended.
#[derive(Clone, Copy, Debug, PartialEq, Eq)]
pub enum FolderEnd {
    Done,
    /// A call of the system failed.
    Failed,
    /// Memory was missing, and the call was not begun.
    NoMemory,
}

/// What the file of an object begins with.
#[derive(Clone, Copy, Debug, PartialEq, Eq)]
pub enum Front {
    /// There is no file.
    Missing,
    /// The file has fewer than eight bytes.
    Short,
    /// The first eight bytes, and how many follow.
    Whole([u8; 8], u64),
    Failed,
    NoMemory,
}

/// The files of one folder, as a store needs them: for each object its file, and its draft, in which new contents are
/// written before they take the file's place.
///
/// The lock is kept by every process that uses the folder: it is held shared while a file is read, and alone while one
/// is compared and replaced.
pub trait Folder {
    ghost use Rattle.bcv_dirstore.specs.FolderShown.{FolderTold, FolderShown};
    ghost use Rattle.bcv_dirstore.specs.declared.folder.Lock.TheVariants.{Exclusive};

    /// What all folders of this type tell: their files, and that nobody else changes them.
    ghost told: { FolderTold };

    /// What the folder shows: its files, its lock, what of them is on the disk, and how many calls have failed.
    ghost shown: { Self → FolderShown };

    /// Locks the folder, in place of a lock that is held, and waits while the lock of another process keeps it out.
    fn lock(&mut self, how: Lock) -> FolderEnd
        ensures locks { FolderLocks told (shown self.old) (shown self.new) how result };

    /// Gives the lock up.
    fn unlock(&mut self)
        ensures unlocks { FolderUnlocks told (shown self.old) (shown self.new) };

    /// Reads the first eight bytes of an object's file.
    fn front(&mut self, alloc: Global, name: &ObjName) -> Front
        requires locked { told.tells → IsSome (shown self.old).lock }
        ensures fronts { FolderFronts told (shown self.old) (shown self.new) name.now result };

    /// Reads the `len` bytes of an object's file that follow the first eight. After `Done` they are in `into`, which is
    /// empty before, and after every other answer.
    fn rest(&mut self, alloc: Global, name: &ObjName, len: usize, into: &mut Vec<u8>) -> FolderEnd
        requires locked { told.tells → IsSome (shown self.old).lock }
        requires there { told.tells → HasRest ((shown self.old).files name.now) len }
        requires empty { into.old.items ≡ [] }
        ensures rests { FolderRests told (shown self.old)
            (shown self.new) name.now len into.new.items result };

    /// Writes the draft of an object, in place of one that is there: eight bytes and then the others.
    fn write(&mut self, alloc: Global, name: &ObjName, front: [u8; 8], bytes: &[u8]) -> FolderEnd
        requires locked { told.tells → (shown self.old).lock ≡ Some Exclusive }
        ensures writes { FolderWrites told (shown self.old)
            (shown self.new) name.now front bytes.now result };

    /// Brings to the disk what was written into files here.
    fn sync_files(&mut self, alloc: Global) -> FolderEnd
        ensures syncs { FolderSyncs told (shown self.old) (shown self.new) result };

    /// Makes the draft of an object its file, in place of the file that is there.
    ///
    /// A manifest's draft takes its place only when all that was written is on the disk.
    fn rename(&mut self, alloc: Global, name: &ObjName) -> FolderEnd
        requires locked { told.tells → (shown self.old).lock ≡ Some Exclusive }
        requires there { told.tells → IsSome ((shown self.old).drafts name.now) }
        requires synced { told.tells → name.now ≡ object.Manifest → (shown self.old).synced ≡ true }
        ensures renames { FolderRenames told (shown self.old) (shown self.new) name.now result };

    /// Brings the names of the files to the disk.
    fn sync_names(&mut self) -> FolderEnd
        ensures names { FolderNames told (shown self.old) (shown self.new) result };

    /// Removes the file of an object, where there is one.
    fn remove(&mut self, alloc: Global, name: &ObjName) -> FolderEnd
        requires locked { told.tells → (shown self.old).lock ≡ Some Exclusive }
        ensures removes { FolderRemoves told (shown self.old) (shown self.new) name.now result };

    /// Leaves in `into`, which is empty, the ids of the blocks that have a file, in any order. Files that are no object's
    /// are passed over.
    fn blocks(&mut self, alloc: Global, into: &mut Vec<Id16>) -> FolderEnd
        requires locked { told.tells → IsSome (shown self.old).lock }
        requires empty { into.old.items ≡ [] }
        ensures blocks { FolderBlocks told (shown self.old)
            (shown self.new) into.new.items result };
}
