//! The bytes of what a plan makes, but for the delete list.

ghost use Rattle.std.specs.Prelude.{◌≡◌, ◌≤◌, ◌<◌, ◌^◌, if◌then◌else◌};
ghost use Rattle.std.specs.Str.{bytes_eq};
ghost use Rattle.bcv_base.specs.Keyed.{with_keyed, without_keyed};
ghost use Rattle.bcv_base.specs.ManifestRules.{db_name};
ghost use Rattle.bcv_base.specs.declared.manifest.DbEntry.{DbEntry};
ghost use Rattle.bcv_dbmap.specs.Applied.{dbs_after};
ghost use Rattle.bcv_dbmap.specs.Checked.{needed_length, needed_total, zero_id};

use crate::databases::{database_of, place_of};
use crate::plan::EditPlan;
use bcv_base::{DbEntry, DbName, blocks_needed};

// The bytes of a database's entry under a name.
fn needed_under(block: u32, name: &DbName, db: &DbEntry) -> u64
    requires { 512 ≤ block }
    ensures value { (d : DbEntry) → d.name ≡ name.now → d.page_size ≡ db.now.page_size
        → d.pages ≡ db.now.pages → result ≡ needed_length block d }
    ensures small { result < 2 ^ 61 }
{
    25 + name.text().len() as u64 + 16 * blocks_needed(block, db.page_size, db.pages)
}

// The bytes of the databases' entries.
fn needed_total(block: u32, dbs: &[DbEntry]) -> u64
    requires block { 512 ≤ block }
    requires fits { needed_total block dbs.now < 2 ^ 62 }
    ensures { result ≡ needed_total block dbs.now }
{
    let mut total = 0;
    for db in dbs {
        total += needed_under(block, &db.name, db);
    }
    total
}

// The bytes of the entries with one of a name and so many bytes, which stands over one of its name.
fn needed_with(block: u32, name: &DbName, own: u64, dbs: &[DbEntry]) -> u64
    requires block { 512 ≤ block }
    requires own { own < 2 ^ 61 }
    requires fits { needed_total block dbs.now < 2 ^ 60 }
    ensures value { (d : DbEntry) → d.name ≡ name.now → own ≡ needed_length block d
        → result ≡ needed_total block (with_keyed db_name d dbs.now) }
    ensures small { result < 2 ^ 62 }
{
    let (place, later) = place_of(dbs, name);
    needed_total(block, &dbs[..place]) + own + needed_total(block, &dbs[later..])
}

// The bytes of a database's entry, or none where it has the name.
fn needed_unless(block: u32, name: &DbName, db: &DbEntry) -> u64
    requires { 512 ≤ block }
    ensures { result ≡ (if bytes_eq db.now.name name.now then 0 else needed_length block db.now) }
{
    if db.name.same_as(name) {
        return 0;
    }
    needed_under(block, &db.name, db)
}

// The bytes of the entries of other names.
fn needed_without(block: u32, name: &DbName, dbs: &[DbEntry]) -> u64
    requires block { 512 ≤ block }
    requires fits { needed_total block dbs.now < 2 ^ 60 }
    ensures value { result ≡ needed_total block (without_keyed db_name name.now dbs.now) }
    ensures small { result < 2 ^ 62 }
{
    let mut total = 0;
    for db in dbs {
        total += needed_unless(block, name, db);
    }
    total
}

/// The bytes of the databases' entries behind a plan, with as many ids as their pages need.
pub(crate) fn needed_after(block: u32, plan: &EditPlan, dbs: &[DbEntry]) -> u64
    requires block { 512 ≤ block }
    requires fits { needed_total block dbs.now < 2 ^ 60 }
    ensures value { result ≡ needed_total block (dbs_after plan.now zero_id dbs.now) }
    ensures small { result < 2 ^ 62 }
{
    match plan {
        EditPlan::New(entry) => {
            needed_with(
                block,
                &entry.name,
                needed_under(block, &entry.name, entry),
                dbs,
            )
        }
        EditPlan::Upload { from: _, entry } => {
            needed_with(
                block,
                &entry.name,
                needed_under(block, &entry.name, entry),
                dbs,
            )
        }
        EditPlan::Copy { from, to } => match database_of(dbs, from) {
            Some(db) => needed_with(block, to, needed_under(block, to, db), dbs),
            None => needed_total(block, dbs),
        },
        EditPlan::Remove { name } => needed_without(block, name, dbs),
        EditPlan::Sweep { .. } => needed_total(block, dbs),
    }
}
