//! Ids that are sorted, and each there once.

ghost use Rattle.std.specs.Prelude.{◌≡◌, ◌≤◌, IfOk, true, length, take};
ghost use Rattle.std.specs.List.{dedup};
ghost use Rattle.bcv_base.specs.Ids.{id_eq};
ghost use Rattle.bcv_dbmap.specs.Merged.{chosen};

use bcv_base::Id16;
use std::alloc::{AllocError, Global};

/// Moves the first of each run of equal ids to the front, and says how many they are.
pub(crate) fn pack(ids: &mut [Id16]) -> usize
    ensures few { result ≤ length ids.old }
    ensures front { take result ids.new ≡ dedup id_eq ids.old }
{
    if ids.is_empty() {
        return 0;
    }
    let mut kept = 1;
    for place in 1..ids.len() {
        let id = ids[place];
        if !id.same_as(&ids[kept - 1]) {
            ids[kept] = id;
            kept += 1;
        }
    }
    kept
}

/// Sorts the ids, moves each of them to the front once, and says how many they are.
pub(crate) fn sort_and_pack(ids: &mut [Id16]) -> usize
    ensures few { result ≤ length ids.old }
    ensures front { take result ids.new ≡ chosen (λ _. true) ids.old }
{
    ids.sort_unstable();
    pack(ids)
}

/// The ids, ascending and each once.
pub(crate) fn distinct(alloc: Global, ids: &[Id16]) -> Result<Vec<Id16>, AllocError>
    ensures { IfOk result (λ v. v.items ≡ chosen (λ _. true) ids.now) }
{
    let mut sorted = Vec::from_slice(alloc, ids)?;
    let kept = sort_and_pack(&mut sorted);
    sorted.truncate(kept);
    Ok(sorted)
}
