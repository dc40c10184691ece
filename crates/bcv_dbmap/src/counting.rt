//! How many dead blocks a plan leaves, counted without memory.
//!
//! An upload and a removal let blocks go, an upload and a sweep take dead ones off, and no list may be searched for each
//! id of another one. So some two thousand ids at a time are sorted in place, and one walk over the other list marks them.

ghost use Rattle.std.specs.Prelude.{◌≡◌, ◌≤◌, ◌||◌, ◌&&◌, false, not, length, map, replicate, None};
ghost use Rattle.std.specs.List.{filter};
ghost use Rattle.std.specs.Str.{bytes_eq};
ghost use Rattle.bcv_base.specs.Ids.{has_id, id_eq};
ghost use Rattle.bcv_base.specs.ManifestRules.{Ascends, MeetsRules, MeetsLimits, dead_id};
ghost use Rattle.bcv_base.specs.declared.id.Id16.{Id16};
ghost use Rattle.bcv_dbmap.specs.Checked.{counted, dead_length, plan_fault, zero_id};
ghost use Rattle.bcv_dbmap.specs.Counted.{gone_length, is_filled, lists_other, lists_behind};
ghost use Rattle.bcv_dbmap.specs.Merged.{chosen, leaving, marked, own_key, taken_off};

use crate::dead::leaving;
use crate::ids::sort_and_pack;
use crate::marks::{mark, mark_one};
use crate::plan::EditPlan;
use bcv_base::{DbEntry, DbName, Dead, Id16, Manifest};

// How many ids are held against a list at a time: more take fewer walks over it, and 16 bytes of the stack each.
const CHUNK: usize = 2_048;

// The id that stands for a block which is still to be put.
const ZERO: Id16 = Id16([0; 16]);

// Marks the id, where it is one of these and not of zeros.
fn mark_if_filled(ids: &[Id16], marks: &mut [bool], id: &Id16)
    requires order { Ascends own_key ids.now }
    requires len { length marks.old ≡ length ids.now }
    ensures { marks.new ≡ marked (λ i. not (id_eq id.now zero_id) && id_eq id.now i)
        ids.now marks.old }
{
    if id.same_as(&ZERO) {
        return;
    }
    mark_one(ids, marks, id);
}

// Marks each of these ids that is one of those which are not of zeros.
fn mark_filled(ids: &[Id16], marks: &mut [bool], filled: &[Id16])
    requires order { Ascends own_key ids.now }
    requires len { length marks.old ≡ length ids.now }
    ensures { marks.new ≡ marked (is_filled filled.now) ids.now marks.old }
{
    for id in filled {
        mark_if_filled(ids, marks, id);
    }
}

// Marks each of these ids that the database lists, where it has another name.
fn mark_if_other(ids: &[Id16], marks: &mut [bool], name: &DbName, db: &DbEntry)
    requires order { Ascends own_key ids.now }
    requires len { length marks.old ≡ length ids.now }
    ensures { marks.new ≡ marked (λ i. not (bytes_eq db.now.name name.now)
        && has_id i db.now.blocks) ids.now marks.old }
{
    if db.name.same_as(name) {
        return;
    }
    mark(ids, marks, db.blocks.items());
}

// Marks each of these ids that a database of another name lists.
fn mark_others(ids: &[Id16], marks: &mut [bool], name: &DbName, dbs: &[DbEntry])
    requires order { Ascends own_key ids.now }
    requires len { length marks.old ≡ length ids.now }
    ensures { marks.new ≡ marked (lists_other name.now dbs.now) ids.now marks.old }
{
    for db in dbs {
        mark_if_other(ids, marks, name, db);
    }
}

fn count_unmarked(marks: &[bool]) -> usize
    ensures { result ≡ length (filter (λ b. not b) marks.now) }
{
    marks.iter().filter(|is_marked| !**is_marked).count()
}

// How many of these ids, which ascend, neither come later nor are listed behind the plan.
fn count_left(
    ids: &[Id16],
    marks: &mut [bool],
    later: &[Id16],
    name: &DbName,
    filled: &[Id16],
    dbs: &[DbEntry],
) -> usize
    requires order { Ascends own_key ids.now }
    requires none { marks.old ≡ replicate (length ids.now) false }
    ensures { result ≡ length (filter
        (λ i. not (lists_behind name.now filled.now dbs.now i || has_id i later.now)) ids.now) }
{
    mark_others(ids, marks, name, dbs);
    mark_filled(ids, marks, filled);
    mark(ids, marks, later);
    count_unmarked(marks)
}

// The same of ids in any order, each counted once.
fn count_chunk(
    chunk: &[Id16],
    later: &[Id16],
    name: &DbName,
    filled: &[Id16],
    dbs: &[DbEntry],
) -> usize
    requires { length chunk.now ≤ 2048 }
    ensures { result ≡ length (chosen
        (λ i. not (lists_behind name.now filled.now dbs.now i || has_id i later.now)) chunk.now) }
{
    let mut room = [ZERO; CHUNK];
    let ids = &mut room[..chunk.len()];
    ids.copy_from_slice(chunk);
    let kept = sort_and_pack(ids);
    let mut marks = [false; CHUNK];
    count_left(&ids[..kept], &mut marks[..kept], later, name, filled, dbs)
}

// How many of these ids, each counted once, are not listed behind a plan which puts such blocks under a name.
fn count_unlisted(ids: &[Id16], name: &DbName, filled: &[Id16], dbs: &[DbEntry]) -> usize
    requires { length ids.now ≤ 65536 }
    ensures { result ≡ length (chosen (λ i. not (lists_behind name.now filled.now dbs.now i))
        ids.now) }
{
    let mut count = 0;
    let mut rest = ids;
    while !rest.is_empty() {
        // An id that comes again is counted where it comes last.
        let (chunk, later) = rest.split_at(rest.len().min(CHUNK));
        count += count_chunk(chunk, later, name, filled, dbs);
        rest = later;
    }
    count
}

// Marks each of these ids that a plan takes off the delete list.
fn mark_taken(ids: &[Id16], marks: &mut [bool], plan: &EditPlan)
    requires order { Ascends own_key ids.now }
    requires len { length marks.old ≡ length ids.now }
    ensures { marks.new ≡ marked (λ i. has_id i (taken_off (counted plan.now))) ids.now marks.old }
{
    match plan {
        EditPlan::New(entry) => mark_filled(ids, marks, entry.blocks.items()),
        EditPlan::Upload { from: _, entry } => mark_filled(ids, marks, entry.blocks.items()),
        EditPlan::Sweep { ids: swept } => mark(ids, marks, swept.items()),
        EditPlan::Copy { from: _, to: _ } => (),
        EditPlan::Remove { name: _ } => (),
    }
}

// Writes the ids of the dead blocks.
fn copy_ids(ids: &mut [Id16], dead: &[Dead])
    requires { length ids.old ≡ length dead.now }
    ensures { ids.new ≡ map (λ e. e.id) dead.now }
{
    for place in 0..dead.len() {
        ids[place] = dead[place].id;
    }
}

// How many of these ids, which ascend, a plan does not take off the delete list.
fn count_kept(ids: &[Id16], marks: &mut [bool], plan: &EditPlan) -> usize
    requires order { Ascends own_key ids.now }
    requires none { marks.old ≡ replicate (length ids.now) false }
    ensures { result ≡ length (filter (λ i. not (has_id i (taken_off (counted plan.now))))
        ids.now) }
{
    mark_taken(ids, marks, plan);
    count_unmarked(marks)
}

// The same of dead blocks.
fn count_dead_chunk(chunk: &[Dead], plan: &EditPlan) -> usize
    requires order { Ascends dead_id chunk.now }
    requires few { length chunk.now ≤ 2048 }
    ensures { result ≡ length (filter (λ e. not (has_id e.id (taken_off (counted plan.now))))
        chunk.now) }
{
    let mut room = [ZERO; CHUNK];
    let ids = &mut room[..chunk.len()];
    copy_ids(ids, chunk);
    let mut marks = [false; CHUNK];
    count_kept(ids, &mut marks[..chunk.len()], plan)
}

// How many dead blocks a plan does not take off the delete list.
fn count_staying(dead: &[Dead], plan: &EditPlan) -> usize
    requires order { Ascends dead_id dead.now }
    requires few { length dead.now ≤ 1048576 }
    ensures { result ≡ length (filter (λ e. not (has_id e.id (taken_off (counted plan.now))))
        dead.now) }
{
    let mut count = 0;
    let mut rest = dead;
    while !rest.is_empty() {
        let (chunk, later) = rest.split_at(rest.len().min(CHUNK));
        count += count_dead_chunk(chunk, plan);
        rest = later;
    }
    count
}

// How many blocks a plan lists no longer.
fn count_gone(plan: &EditPlan, dbs: &[DbEntry]) -> usize
    requires { length (leaving plan.now dbs.now) ≤ 65536 }
    ensures { result ≡ gone_length plan.now dbs.now }
{
    match plan {
        EditPlan::Upload { from: _, entry } => {
            count_unlisted(leaving(plan, dbs), &entry.name, entry.blocks.items(), dbs)
        }
        EditPlan::Remove { name } => count_unlisted(leaving(plan, dbs), name, &[], dbs),
        EditPlan::New(_) | EditPlan::Copy { .. } | EditPlan::Sweep { .. } => 0,
    }
}

/// How many dead blocks a manifest has behind a plan whose databases pass. Ids of zeros in the plan stand for blocks that
/// are still to be put.
///
/// It walks over the listed blocks once for each 2,048 blocks of the database that the plan replaces or removes, and over
/// the ids that the plan takes off once for each 2,048 dead blocks: ask only where the limits are near.
pub(crate) fn dead_count(m: &Manifest, plan: &EditPlan) -> usize
    requires rules { MeetsRules m.now }
    requires limits { MeetsLimits m.now }
    requires passes { plan_fault m.now.block m.now.dbs plan.now ≡ None }
    ensures { result ≡ dead_length m.now plan.now }
{
    count_staying(m.dead.items(), plan) + count_gone(plan, m.dbs.items())
}
