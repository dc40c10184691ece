//! The delete list behind a plan.

ghost use Rattle.std.specs.Prelude.{◌≡◌, ◌++◌, map, IfOk, OnOk, not, None};
ghost use Rattle.std.specs.List.{filter};
ghost use Rattle.bcv_base.specs.Ids.{has_id};
ghost use Rattle.bcv_base.specs.Keyed.{keyed};
ghost use Rattle.bcv_base.specs.ManifestRules.{Ascends, MeetsRules, db_name, dead_id};
ghost use Rattle.bcv_base.specs.declared.id.Id16.{Id16};
ghost use Rattle.bcv_dbmap.specs.Applied.{dbs_after, dead_after};
ghost use Rattle.bcv_dbmap.specs.Checked.{plan_fault};
ghost use Rattle.bcv_dbmap.specs.Merged.{blocks_of, leaving, taken_off, with_dead, dead_of, step_of, own_key};

use crate::databases::database_of;
use crate::ids::distinct;
use crate::marks::unlisted;
use crate::plan::EditPlan;
use bcv_base::{DbEntry, DbName, Dead, Id16, Manifest, is_one_of};
use std::alloc::{AllocError, Global};
use std::cmp::Ordering;

// The blocks of the database of a name, or none where there is no such database.
fn blocks_of_name<'a>(dbs: &'a [DbEntry], name: &DbName) -> &'a [Id16]
    ensures { result.now ≡ blocks_of (keyed db_name name.now dbs.now) }
{
    match database_of(dbs, name) {
        Some(db) => db.blocks.items(),
        None => &[],
    }
}

/// The blocks of the database that a plan replaces or removes.
pub(crate) fn leaving<'a>(plan: &EditPlan, dbs: &'a [DbEntry]) -> &'a [Id16]
    ensures { result.now ≡ leaving plan.now dbs.now }
{
    match plan {
        EditPlan::Upload { from: _, entry } => blocks_of_name(dbs, &entry.name),
        EditPlan::Remove { name } => blocks_of_name(dbs, name),
        EditPlan::New(_) | EditPlan::Copy { .. } | EditPlan::Sweep { .. } => &[],
    }
}

/// The ids that a plan lists anew or sweeps.
pub(crate) fn taken_off(plan: &EditPlan) -> &[Id16]
    ensures { result.now ≡ taken_off plan.now }
{
    match plan {
        EditPlan::New(entry) => entry.blocks.items(),
        EditPlan::Upload { from: _, entry } => entry.blocks.items(),
        EditPlan::Sweep { ids } => ids.items(),
        EditPlan::Copy { .. } | EditPlan::Remove { .. } => &[],
    }
}

// The dead blocks that are none of these ids, which ascend.
fn others_of(alloc: Global, ids: &[Id16], dead: &[Dead]) -> Result<Vec<Dead>, AllocError>
    requires { Ascends own_key ids.now }
    ensures { IfOk result (λ v. v.items ≡ filter (λ e. not (has_id e.id ids.now)) dead.now) }
{
    let mut kept = Vec::with_capacity(alloc, dead.len())?;
    for entry in dead {
        if !is_one_of(ids, &entry.id) {
            kept.push(*entry)?;
        }
    }
    Ok(kept)
}

// The dead blocks that are none of these ids.
fn others(alloc: Global, ids: &[Id16], dead: &[Dead]) -> Result<Vec<Dead>, AllocError>
    ensures { IfOk result (λ v. v.items ≡ filter (λ e. not (has_id e.id ids.now)) dead.now) }
{
    let sorted = distinct(alloc, ids)?;
    others_of(alloc, &sorted, dead)
}

// The first of an id with a stamp and a dead block, the id's own where both have one id, and how many of the ids and of
// the dead blocks are done with.
fn first_of(stamp: u64, id: &Id16, entry: &Dead) -> (Dead, usize, usize)
    ensures { result ≡ step_of stamp id.now entry.now }
{
    let buried = Dead { id: *id, stamp };
    match id.cmp(&entry.id) {
        Ordering::Less => (buried, 1, 0),
        Ordering::Equal => (buried, 1, 1),
        Ordering::Greater => (*entry, 0, 1),
    }
}

// Appends the ids with a stamp.
fn push_ids(into: &mut Vec<Dead>, stamp: u64, ids: &[Id16]) -> Result<(), AllocError>
    ensures { OnOk result (into.new.items ≡ into.old.items ++ map (dead_of stamp) ids.now) }
{
    for id in ids {
        into.push(Dead { id: *id, stamp })?;
    }
    Ok(())
}

// The dead blocks and these ids with a stamp, both ascending, as one ascending list.
fn with_dead(
    alloc: Global,
    stamp: u64,
    ids: &[Id16],
    dead: &[Dead],
) -> Result<Vec<Dead>, AllocError>
    requires ids { Ascends own_key ids.now }
    requires dead { Ascends dead_id dead.now }
    ensures { IfOk result (λ v. v.items ≡ with_dead stamp ids.now dead.now) }
{
    let mut merged = Vec::with_capacity(alloc, ids.len().saturating_add(dead.len()))?;
    let mut id = 0;
    let mut entry = 0;
    while id < ids.len() && entry < dead.len() {
        let (first, of_ids, of_dead) = first_of(stamp, &ids[id], &dead[entry]);
        merged.push(first)?;
        id += of_ids;
        entry += of_dead;
    }
    push_ids(&mut merged, stamp, &ids[id..])?;
    merged.extend_from_slice(&dead[entry..])?;
    Ok(merged)
}

/// The delete list behind a plan that passes, whose databases these are.
///
/// Only the blocks of the database that the plan replaces or removes can enter it, and only what the plan lists anew or
/// sweeps can leave it, so that one walk over the listed blocks and one over the delete list do.
pub(crate) fn dead_after(
    alloc: Global,
    plan: &EditPlan,
    stamp: u64,
    dbs: &[DbEntry],
    m: &Manifest,
) -> Result<Vec<Dead>, AllocError>
    requires rules { MeetsRules m.now }
    requires passes { plan_fault m.now.block m.now.dbs plan.now ≡ None }
    requires after { (id : Id16) × (dbs.now ≡ dbs_after plan.now id m.now.dbs) }
    ensures { IfOk result (λ v. v.items ≡ dead_after plan.now stamp dbs.now m.now.dbs m.now.dead) }
{
    let stays = others(alloc, taken_off(plan), m.dead.items())?;
    let gone = unlisted(alloc, leaving(plan, m.dbs.items()), dbs)?;
    with_dead(alloc, stamp, &gone, &stays)
}
