//! The databases behind a plan.

ghost use Rattle.std.specs.Prelude.{◌≡◌, ◌≤◌, ◌++◌, ◌∷◌, IfOk, OnOk, take, drop, length, Some, None};
ghost use Rattle.std.specs.Option.{option_map, MatchOption};
ghost use Rattle.bcv_base.specs.Keyed.{keyed, with_keyed, without_keyed};
ghost use Rattle.bcv_base.specs.ManifestRules.{db_name};
ghost use Rattle.bcv_base.specs.declared.manifest.DbEntry.{DbEntry};
ghost use Rattle.bcv_dbmap.specs.Applied.{dbs_after};

use crate::plan::EditPlan;
use bcv_base::{DbEntry, DbName, Id16, Seq};
use std::alloc::{AllocError, Global};

/// The database of a name, or `None` where there is none.
pub(crate) fn database_of<'a>(dbs: &'a [DbEntry], name: &DbName) -> Option<&'a DbEntry>
    ensures { option_map (λ d. d.now) result ≡ keyed db_name name.now dbs.now }
{
    for db in dbs {
        if db.name.same_as(name) {
            return Some(db);
        }
    }
    None
}

/// Where a database of the name stands or would stand, and where the later ones begin.
pub(crate) fn place_of(dbs: &[DbEntry], name: &DbName) -> (usize, usize)
    ensures order { result.0 ≤ result.1 }
    ensures within { result.1 ≤ length dbs.now }
    ensures place { (d : DbEntry) → d.name ≡ name.now
        → with_keyed db_name d dbs.now ≡ take result.0 dbs.now ++ d ∷ drop result.1 dbs.now }
{
    for place in 0..dbs.len() {
        let order = dbs[place].name.cmp_bytes(name);
        if order.is_eq() {
            return (place, place + 1);
        }
        if order.is_gt() {
            return (place, place);
        }
    }
    (dbs.len(), dbs.len())
}

fn copy_of(alloc: Global, db: &DbEntry) -> Result<DbEntry, AllocError>
    ensures { IfOk result (λ d. d ≡ db.now) }
{
    renamed(alloc, db, db.name, db.tag)
}

// The database under a name and with a tag.
fn renamed(alloc: Global, db: &DbEntry, name: DbName, tag: Id16) -> Result<DbEntry, AllocError>
    ensures { IfOk result (λ d. d ≡ record db.now { name = name; tag = tag }) }
{
    Ok(DbEntry {
        name,
        tag,
        page_size: db.page_size,
        pages: db.pages,
        blocks: Seq::of(Vec::from_slice(alloc, db.blocks.items())?),
    })
}

// Appends copies of the databases.
fn push_copies(alloc: Global, into: &mut Vec<DbEntry>, dbs: &[DbEntry]) -> Result<(), AllocError>
    ensures { OnOk result (into.new.items ≡ into.old.items ++ dbs.now) }
{
    for db in dbs {
        let copy = copy_of(alloc, db)?;
        into.push(copy)?;
    }
    Ok(())
}

// The databases with one more, which stands over one of its name.
fn with_database(alloc: Global, made: DbEntry, dbs: &[DbEntry]) -> Result<Vec<DbEntry>, AllocError>
    ensures { IfOk result (λ v. v.items ≡ with_keyed db_name made dbs.now) }
{
    let (place, later) = place_of(dbs, &made.name);
    let mut after = Vec::with_capacity(alloc, dbs.len() + 1)?;
    push_copies(alloc, &mut after, &dbs[..place])?;
    after.push(made)?;
    push_copies(alloc, &mut after, &dbs[later..])?;
    Ok(after)
}

// The databases of other names.
fn without_name(alloc: Global, name: &DbName, dbs: &[DbEntry]) -> Result<Vec<DbEntry>, AllocError>
    ensures { IfOk result (λ v. v.items ≡ without_keyed db_name name.now dbs.now) }
{
    let mut after = Vec::with_capacity(alloc, dbs.len())?;
    for db in dbs {
        if !db.name.same_as(name) {
            let copy = copy_of(alloc, db)?;
            after.push(copy)?;
        }
    }
    Ok(after)
}

// The same databases.
fn copies_of(alloc: Global, dbs: &[DbEntry]) -> Result<Vec<DbEntry>, AllocError>
    ensures { IfOk result (λ v. v.items ≡ dbs.now) }
{
    let mut after = Vec::with_capacity(alloc, dbs.len())?;
    push_copies(alloc, &mut after, dbs)?;
    Ok(after)
}

// The databases with a copy of one of them under another name.
fn with_copy(
    alloc: Global,
    from: &DbName,
    to: DbName,
    id: Id16,
    dbs: &[DbEntry],
) -> Result<Vec<DbEntry>, AllocError>
    ensures { IfOk result (λ v. v.items ≡ dbs_after (EditPlan.Copy from.now to) id dbs.now) }
{
    match database_of(dbs, from) {
        Some(db) => with_database(alloc, renamed(alloc, db, to, id)?, dbs),
        None => copies_of(alloc, dbs),
    }
}

/// The databases behind a plan, under the id of its publication.
pub(crate) fn databases_after(
    alloc: Global,
    plan: &EditPlan,
    id: Id16,
    dbs: &[DbEntry],
) -> Result<Vec<DbEntry>, AllocError>
    ensures { IfOk result (λ v. v.items ≡ dbs_after plan.now id dbs.now) }
{
    match plan {
        EditPlan::New(entry) => with_database(alloc, renamed(alloc, entry, entry.name, id)?, dbs),
        EditPlan::Upload { from: _, entry } => {
            with_database(alloc, renamed(alloc, entry, entry.name, id)?, dbs)
        }
        EditPlan::Copy { from, to } => with_copy(alloc, from, *to, id, dbs),
        EditPlan::Remove { name } => without_name(alloc, name, dbs),
        EditPlan::Sweep { ids: _ } => copies_of(alloc, dbs),
    }
}
