ghost use Rattle.std.specs.Prelude.{◌≡◌, ◌≢◌, ◌⊎◌, ℕ, ◌≤◌, true, false, List, [], Option, Some, None, IsSome, IfOk, IfErr};
ghost use Rattle.bcv_base.specs.Faults.{Rose};
ghost use Rattle.bcv_base.specs.declared.object.ObjName.{ObjName};
ghost use Rattle.bcv_base.specs.declared.object.ObjName.TheVariants as object;
ghost use Rattle.bcv_store.specs.Within.{IsGotWithin};
ghost use Rattle.bcv_dirstore.specs.declared.folder.Lock.TheVariants.{Exclusive};
ghost use Rattle.bcv_dirstore.specs.FolderShown.{Files};
ghost use Rattle.bcv_dirstore.specs.FolderCalls.{LeavesFiles, IsFront};
ghost use Rattle.bcv_dirstore.specs.Answers.{GetsFile, PutAnswersFile};
ghost use Rattle.bcv_dirstore.specs.Steps.{EtagsAsked, Replaces};

use crate::folder::{Folder, FolderEnd, Front};
use bcv_base::ObjName;
use bcv_store::{Cond, Got, Put};
use std::alloc::Global;

/// Reads the object of a name out of a locked folder. `into` is empty before, and after every answer but `Found`.
pub fn read_object<F: Folder>(
    folder: &mut F,
    alloc: Global,
    name: &ObjName,
    unless: Option<u64>,
    into: &mut Vec<u8>,
    most: usize,
) -> Got
    requires locked { F.told.tells → IsSome (F.shown folder.old).lock }
    requires empty { into.old.items ≡ [] }
    ensures gets { F.told.tells → GetsFile ((F.shown folder.old).files name.now) unless most
        into.new.items
        (Rose (F.shown folder.old).faults (F.shown folder.new).faults) result }
    ensures leaves { F.told.tells → LeavesFiles (F.shown folder.old) (F.shown folder.new) }
    ensures within { IsGotWithin unless most into.new.items result }
    ensures later { (F.shown folder.old).faults ≤ (F.shown folder.new).faults }
{
    let (front, len) = match folder.front(alloc, name) {
        Front::Whole(front, len) => (front, len),
        Front::Missing => return Got::Missing,
        Front::Short | Front::Failed => return Got::Failed,
        Front::NoMemory => return Got::NoMemory,
    };
    let etag = u64::from_be_bytes(front);
    if unless == Some(etag) {
        return Got::Same;
    }
    if len > most as u64 {
        return Got::TooLong(len);
    }
    match folder.rest(alloc, name, len as usize, into) {
        FolderEnd::Done => Got::Found(etag),
        FolderEnd::Failed => Got::Failed,
        FolderEnd::NoMemory => Got::NoMemory,
    }
}

/// Puts an object into a folder that is locked alone, where the condition holds of the file that is there.
pub fn put_object<F: Folder>(
    folder: &mut F,
    alloc: Global,
    name: &ObjName,
    cond: Cond,
    bytes: &[u8],
) -> Put
    requires locked { F.told.tells → (F.shown folder.old).lock ≡ Some Exclusive }
    ensures puts { F.told.tells → PutAnswersFile (F.shown folder.old).files
        (F.shown folder.new) name.now cond bytes.now
        (Rose (F.shown folder.old).faults (F.shown folder.new).faults) result }
    ensures later { (F.shown folder.old).faults ≤ (F.shown folder.new).faults }
{
    let etag = match new_etag(folder.front(alloc, name), cond) {
        Ok(etag) => etag,
        Err(answer) => return answer,
    };
    match replace(folder, alloc, name, etag.to_be_bytes(), bytes) {
        FolderEnd::Done => Put::Stored(etag),
        FolderEnd::Failed => Put::Failed,
        FolderEnd::NoMemory => Put::NoMemory,
    }
}

// The etag that a put gives, by what the file begins with, or the answer of a put that goes no further.
fn new_etag(front: Front, cond: Cond) -> Result<u64, Put>
    ensures { (file : Option (List ℕ)) → IsFront file front → EtagsAsked cond file front result }
{
    let etag = match (cond, front) {
        (_, Front::Failed) => return Err(Put::Failed),
        (_, Front::NoMemory) => return Err(Put::NoMemory),
        (Cond::Absent, Front::Missing) => return Ok(1),
        (Cond::Absent, _) | (Cond::Match(_), Front::Missing) => return Err(Put::Refused),
        (Cond::Match(_), Front::Short) => return Err(Put::Failed),
        (Cond::Match(etag), Front::Whole(first, _)) => {
            if u64::from_be_bytes(first) != etag {
                return Err(Put::Refused);
            }
            etag
        }
    };
    match etag.checked_add(1) {
        Some(next) => Ok(next),
        None => Err(Put::Failed),
    }
}

// Puts an object's new contents in place of its file.
fn replace<F: Folder>(
    folder: &mut F,
    alloc: Global,
    name: &ObjName,
    front: [u8; 8],
    bytes: &[u8],
) -> FolderEnd
    requires locked { F.told.tells → (F.shown folder.old).lock ≡ Some Exclusive }
    ensures replaces { F.told.tells
        → Replaces (F.shown folder.old) (F.shown folder.new) name.now front bytes.now result }
    ensures later { (F.shown folder.old).faults ≤ (F.shown folder.new).faults }
    ensures rose { result ≡ FolderEnd.Failed
        → Rose (F.shown folder.old).faults (F.shown folder.new).faults }
{
    match name {
        ObjName::Manifest => replace_manifest(folder, alloc, front, bytes),
        ObjName::Block(_) => replace_block(folder, alloc, name, front, bytes),
    }
}

// Puts a block's new contents in place of its file. Its bytes are on the disk when the next manifest is.
fn replace_block<F: Folder>(
    folder: &mut F,
    alloc: Global,
    name: &ObjName,
    front: [u8; 8],
    bytes: &[u8],
) -> FolderEnd
    requires locked { F.told.tells → (F.shown folder.old).lock ≡ Some Exclusive }
    requires block { name.now ≡ object.Manifest → ⊥ }
    ensures replaces { F.told.tells
        → Replaces (F.shown folder.old) (F.shown folder.new) name.now front bytes.now result }
    ensures later { (F.shown folder.old).faults ≤ (F.shown folder.new).faults }
    ensures rose { result ≡ FolderEnd.Failed
        → Rose (F.shown folder.old).faults (F.shown folder.new).faults }
{
    match folder.write(alloc, name, front, bytes) {
        FolderEnd::Done => folder.rename(alloc, name),
        end => end,
    }
}

// Puts the manifest's new contents in place of its file, between a sync of all that was written and one of the names.
fn replace_manifest<F: Folder>(
    folder: &mut F,
    alloc: Global,
    front: [u8; 8],
    bytes: &[u8],
) -> FolderEnd
    requires locked { F.told.tells → (F.shown folder.old).lock ≡ Some Exclusive }
    ensures replaces { F.told.tells
        → Replaces (F.shown folder.old) (F.shown folder.new) object.Manifest front
        bytes.now result }
    ensures later { (F.shown folder.old).faults ≤ (F.shown folder.new).faults }
    ensures rose { result ≡ FolderEnd.Failed
        → Rose (F.shown folder.old).faults (F.shown folder.new).faults }
{
    match folder.write(alloc, &ObjName::Manifest, front, bytes) {
        FolderEnd::Done => {}
        end => return end,
    }
    match folder.sync_files(alloc) {
        FolderEnd::Done => {}
        end => return end,
    }
    match folder.rename(alloc, &ObjName::Manifest) {
        FolderEnd::Done => folder.sync_names(),
        end => end,
    }
}
