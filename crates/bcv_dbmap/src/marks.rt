//! Marks beside ascending ids: which of them some other lists have. Each id that is held against them costs one binary
//! search, so that no list is searched for each id.

ghost use Rattle.std.specs.Prelude.{◌≡◌, IfOk, not, length};
ghost use Rattle.std.specs.List.{filter};
ghost use Rattle.bcv_base.specs.Ids.{has_id, id_eq};
ghost use Rattle.bcv_base.specs.ManifestRules.{Ascends, lists};
ghost use Rattle.bcv_dbmap.specs.Merged.{chosen, marked, unmarked, own_key};

use crate::ids::distinct;
use bcv_base::{DbEntry, Id16};
use std::alloc::{AllocError, Global};

/// Marks the id, where it is one of these.
pub(crate) fn mark_one(ids: &[Id16], marks: &mut [bool], id: &Id16)
    requires order { Ascends own_key ids.now }
    requires len { length marks.old ≡ length ids.now }
    ensures { marks.new ≡ marked (id_eq id.now) ids.now marks.old }
{
    if let Ok(place) = ids.binary_search(id) {
        marks[place] = true;
    }
}

/// Marks each of these ids that is among others, which need not ascend.
pub(crate) fn mark(ids: &[Id16], marks: &mut [bool], others: &[Id16])
    requires order { Ascends own_key ids.now }
    requires len { length marks.old ≡ length ids.now }
    ensures { marks.new ≡ marked (λ i. has_id i others.now) ids.now marks.old }
{
    for other in others {
        mark_one(ids, marks, other);
    }
}

// Marks each of these ids that a database lists.
fn mark_listed(ids: &[Id16], marks: &mut [bool], dbs: &[DbEntry])
    requires order { Ascends own_key ids.now }
    requires len { length marks.old ≡ length ids.now }
    ensures { marks.new ≡ marked (lists dbs.now) ids.now marks.old }
{
    for db in dbs {
        mark(ids, marks, db.blocks.items());
    }
}

// The ids that have no mark.
fn without_mark(alloc: Global, ids: &[Id16], marks: &[bool]) -> Result<Vec<Id16>, AllocError>
    requires { length marks.now ≡ length ids.now }
    ensures { IfOk result (λ v. v.items ≡ unmarked ids.now marks.now) }
{
    let mut kept = Vec::new(alloc);
    for place in 0..ids.len() {
        if !marks[place] {
            kept.push(ids[place])?;
        }
    }
    Ok(kept)
}

// Of ids that ascend, those that no database lists.
fn unlisted_of(alloc: Global, ids: &[Id16], dbs: &[DbEntry]) -> Result<Vec<Id16>, AllocError>
    requires { Ascends own_key ids.now }
    ensures { IfOk result (λ v. v.items ≡ filter (λ i. not (lists dbs.now i)) ids.now) }
{
    // Most plans let no block go, and then there is nothing to walk over the listed blocks for.
    if ids.is_empty() {
        return Ok(Vec::new(alloc));
    }
    let mut marks = vec![in alloc; false; ids.len()]?;
    mark_listed(ids, &mut marks, dbs);
    without_mark(alloc, ids, &marks)
}

/// Of these ids, those that no database lists, ascending and each once.
pub(crate) fn unlisted(
    alloc: Global,
    ids: &[Id16],
    dbs: &[DbEntry],
) -> Result<Vec<Id16>, AllocError>
    ensures { IfOk result (λ v. v.items ≡ chosen (λ i. not (lists dbs.now i)) ids.now) }
{
    let sorted = distinct(alloc, ids)?;
    unlisted_of(alloc, &sorted, dbs)
}
