ghost use Rattle.std.specs.Prelude.{◌≡◌, ◌≤◌, ℕ, List, [], length, take, nat_lt, Option, IfOk, OnOk};
ghost use Rattle.std.specs.Option.{option_copied};
ghost use Rattle.std.specs.BTreeMap.{IsOrdered};
ghost use Rattle.bcv_store.specs.Asked.{list_most};
ghost use Rattle.bcv_store.specs.Within.{IsListedWithin};
ghost use Rattle.bcv_dirstore.specs.Answers.{FolderLists};
ghost use Rattle.bcv_dirstore.specs.Index.{id_cmp, ids_past, HasIds, ListsFirst};

use crate::folder::{Folder, FolderEnd, Lock};
use bcv_base::Id16;
use bcv_store::Listed;
use std::alloc::{AllocError, Global};
use std::collections::BTreeMap;
use std::ops::Bound;

/// How many ids a list gives at most.
const MOST: usize = 1024;

/// Lists the first ids of the blocks that have a file and are above `after`, under a shared lock. `into` is empty before,
/// and after `Failed` and `NoMemory`.
pub fn list_blocks<F: Folder>(
    folder: &mut F,
    alloc: Global,
    after: Option<&Id16>,
    into: &mut Vec<Id16>,
) -> Listed
    requires { into.old.items ≡ [] }
    ensures files { F.told.tells → FolderLists F.told (F.shown folder.old) (F.shown folder.new)
        (option_copied after.entry) into.new.items result }
    ensures within { IsListedWithin (option_copied after.entry) into.new.items result }
{
    match folder.lock(Lock::Shared) {
        FolderEnd::Done => {}
        FolderEnd::Failed => return Listed::Failed,
        FolderEnd::NoMemory => return Listed::NoMemory,
    }
    let mut found = Vec::new(alloc);
    let end = folder.blocks(alloc, &mut found);
    folder.unlock();
    match end {
        FolderEnd::Done => first_ids(alloc, &found, after, into),
        FolderEnd::Failed => Listed::Failed,
        FolderEnd::NoMemory => Listed::NoMemory,
    }
}

// Leaves in `into`, which is empty, the first of these ids above `after`, in order.
fn first_ids(alloc: Global, found: &[Id16], after: Option<&Id16>, into: &mut Vec<Id16>) -> Listed
    requires { into.old.items ≡ [] }
    ensures listed { ListsFirst found.now (option_copied after.entry) into.new.items result }
    ensures within { IsListedWithin (option_copied after.entry) into.new.items result }
{
    let Ok(sorted) = sorted_ids(alloc, found) else {
        return Listed::NoMemory;
    };
    match ids_above(&sorted, after, into) {
        Ok(true) => Listed::More,
        Ok(false) => Listed::End,
        Err(_) => {
            into.clear();
            Listed::NoMemory
        }
    }
}

// The ids in order, each once.
fn sorted_ids(alloc: Global, found: &[Id16]) -> Result<BTreeMap<Id16, ()>, AllocError>
    ensures { IfOk result (λ sorted. HasIds sorted found.now) }
{
    let mut sorted = BTreeMap::new(alloc);
    for id in found {
        sorted.insert(*id, ())?;
    }
    Ok(sorted)
}

// Leaves in `into`, which is empty, the first of the ids above `after`, and says whether there are further ones.
fn ids_above(
    sorted: &BTreeMap<Id16, ()>,
    after: Option<&Id16>,
    into: &mut Vec<Id16>,
) -> Result<bool, AllocError>
    requires { into.old.items ≡ [] }
    ensures listed { IfOk result (λ more. (more ≡ nat_lt list_most
        (length (ids_past (option_copied after.entry) sorted.now)))
        × (into.new.items ≡ take list_most (ids_past (option_copied after.entry) sorted.now))) }
    ensures ordered { IsOrdered id_cmp sorted.now }
{
    let start = match after {
        Some(id) => Bound::Excluded(*id),
        None => Bound::Unbounded,
    };
    for (id, _) in sorted.range((start, Bound::Unbounded)) {
        if into.len() == MOST {
            return Ok(true);
        }
        into.push(*id)?;
    }
    Ok(false)
}
