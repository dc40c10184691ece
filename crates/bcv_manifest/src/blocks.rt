//! The blocks that the databases list, held against dead ones.

ghost use Rattle.std.specs.Prelude.{◌≡◌, ◌≤◌, ◌<◌, IfOk, IsSorted, length};
ghost use Rattle.std.specs.List.{list_any};
ghost use Rattle.bcv_base.specs.declared.id.Id16.{Id16};
ghost use Rattle.bcv_base.specs.Ids.{has_id};
ghost use Rattle.bcv_base.specs.ManifestRules.{lists};
ghost use Rattle.std.specs.Ordering.{nat_cmp};
ghost use Rattle.std.specs.Cmp.Lexicographic.{slice_cmp};
ghost use Rattle.bcv_manifest.specs.Marks.{place_of_mark, is_dead_id, AreMarked};

use bcv_base::{DbEntry, Dead, Id16};
use std::alloc::{AllocError, Global};

// How many marks there are for each dead block. With more of them fewer other ids meet one that is set, but the marks
// leave the processor's cache.
const MARKS_FOR_EACH: usize = 16;

/// Whether a database lists one of the dead blocks, which ascend. The listed ids are neither copied nor sorted.
pub(crate) fn lists_dead(alloc: Global, dbs: &[DbEntry], dead: &[Dead]) -> Result<bool, AllocError>
    requires { IsSorted (λ a b. slice_cmp nat_cmp a.id.0 b.id.0) dead.now }
    ensures { IfOk result (λ found. found ≡ list_any (λ e. lists dbs.now e.id) dead.now) }
{
    if dead.is_empty() {
        return Ok(false);
    }
    let marks = marks_of(alloc, dead)?;
    Ok(any_lists_dead(dbs, dead, &marks))
}

fn any_lists_dead(dbs: &[DbEntry], dead: &[Dead], marks: &[bool]) -> bool
    requires sorted { IsSorted (λ a b. slice_cmp nat_cmp a.id.0 b.id.0) dead.now }
    requires marked { AreMarked dead.now marks.now }
    ensures { result ≡ list_any (λ d. list_any (is_dead_id dead.now) d.blocks) dbs.now }
{
    dbs.iter()
        .any(|db| any_is_dead(db.blocks.items(), dead, marks))
}

fn any_is_dead(ids: &[Id16], dead: &[Dead], marks: &[bool]) -> bool
    requires sorted { IsSorted (λ a b. slice_cmp nat_cmp a.id.0 b.id.0) dead.now }
    requires marked { AreMarked dead.now marks.now }
    ensures { result ≡ list_any (is_dead_id dead.now) ids.now }
{
    ids.iter().any(|id| is_dead(id, dead, marks))
}

// Whether the block is dead. Few others meet a mark that is set, so the search is seldom made.
fn is_dead(id: &Id16, dead: &[Dead], marks: &[bool]) -> bool
    requires sorted { IsSorted (λ a b. slice_cmp nat_cmp a.id.0 b.id.0) dead.now }
    requires marked { AreMarked dead.now marks.now }
    ensures { result ≡ is_dead_id dead.now id.now }
{
    if !marks[place_of_mark(marks.len(), id)] {
        return false;
    }
    has_dead(dead, id)
}

fn has_dead(dead: &[Dead], id: &Id16) -> bool
    requires { IsSorted (λ a b. slice_cmp nat_cmp a.id.0 b.id.0) dead.now }
    ensures { result ≡ is_dead_id dead.now id.now }
{
    dead.binary_search_by_key(id, |entry| entry.id).is_ok()
}

// Marks at the places of the dead blocks' ids.
fn marks_of(alloc: Global, dead: &[Dead]) -> Result<Vec<bool>, AllocError>
    ensures { IfOk result (λ v. AreMarked dead.now v.items) }
{
    let count = dead.len().saturating_mul(MARKS_FOR_EACH).saturating_add(1);
    let mut marks = vec![in alloc; false; count]?;
    for entry in dead {
        let place = place_of_mark(count, &entry.id);
        marks[place] = true;
    }
    Ok(marks)
}

// Where an id's mark stands among so many.
fn place_of_mark(count: usize, id: &Id16) -> usize
    requires { 1 ≤ count }
    ensures place { result ≡ place_of_mark count id.now }
    ensures within { result < count }
{
    let end = u128::from_be_bytes(id.0) % (1 << 64);
    end as usize % count
}

/// The ids of all listed blocks, ascending.
pub(crate) fn listed_blocks(alloc: Global, dbs: &[DbEntry]) -> Result<Vec<Id16>, AllocError>
    ensures order { IfOk result (λ v. IsSorted (λ a b. slice_cmp nat_cmp a.0 b.0) v.items) }
    ensures same { IfOk result (λ v. (i : Id16) → has_id i v.items ≡ lists dbs.now i) }
{
    let mut ids = all_blocks(alloc, dbs)?;
    ids.sort_unstable();
    Ok(ids)
}

// The ids of all listed blocks, in the order of the databases.
fn all_blocks(alloc: Global, dbs: &[DbEntry]) -> Result<Vec<Id16>, AllocError>
    ensures { IfOk result (λ v. (i : Id16) → has_id i v.items ≡ lists dbs.now i) }
{
    let mut ids = Vec::with_capacity(alloc, block_count(dbs))?;
    for db in dbs {
        ids.extend_from_slice(db.blocks.items())?;
    }
    Ok(ids)
}

// How many ids the databases list.
fn block_count(dbs: &[DbEntry]) -> usize {
    let mut count: usize = 0;
    for db in dbs {
        count = count.saturating_add(db.blocks.items().len());
    }
    count
}
