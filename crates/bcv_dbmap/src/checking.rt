//! Why a plan cannot be published over a manifest.

ghost use Rattle.std.specs.Prelude.{◌≡◌, ◌<◌, ◌≤◌, ◌+◌, ◌*◌, ◌^◌, length, MatchResult, Some, None};
ghost use Rattle.bcv_base.specs.Keyed.{keyed};
ghost use Rattle.bcv_base.specs.ManifestRules.{MeetsRules, MeetsLimits, db_name};
ghost use Rattle.bcv_dbmap.specs.Applied.{applied};
ghost use Rattle.bcv_dbmap.specs.Checked.{checked, copy_fault, needed_total, new_fault, plan_fault, size_fault, upload_fault, zero_id};
ghost use Rattle.bcv_dbmap.specs.Counted.{too_large};
ghost use Rattle.bcv_dbmap.specs.Merged.{leaving};

use crate::counting::dead_count;
use crate::databases::database_of;
use crate::dead::leaving;
use crate::fault::EditFault;
use crate::plan::EditPlan;
use crate::sizes::needed_after;
use crate::writers::line_count;
use bcv_base::limits::{MOST_BLOCKS, MOST_BYTES, MOST_DATABASES, MOST_DEAD, MOST_WRITERS};
use bcv_base::{DbEntry, DbName, Id16, Manifest, blocks_needed};

fn check_new(block: u32, dbs: &[DbEntry], entry: &DbEntry) -> Result<(), EditFault>
    requires { 512 ≤ block }
    ensures { MatchResult result (λ _. new_fault block dbs.now entry.now ≡ None)
        (λ f. new_fault block dbs.now entry.now ≡ Some f) }
{
    if database_of(dbs, &entry.name).is_some() {
        return Err(EditFault::Exists);
    }
    if entry.page_size > block {
        return Err(EditFault::PageTooLarge);
    }
    if blocks_needed(block, entry.page_size, entry.pages) > u64::from(MOST_BLOCKS) {
        return Err(EditFault::TooLarge);
    }
    if dbs.len() >= MOST_DATABASES as usize {
        return Err(EditFault::TooManyDatabases);
    }
    Ok(())
}

fn check_upload(dbs: &[DbEntry], name: &DbName, from: &Id16) -> Result<(), EditFault>
    ensures { MatchResult result (λ _. upload_fault (keyed db_name name.now dbs.now) from.now
        ≡ None) (λ f. upload_fault (keyed db_name name.now dbs.now) from.now ≡ Some f) }
{
    match database_of(dbs, name) {
        None => Err(EditFault::NoDatabase),
        Some(db) => {
            if db.tag.same_as(from) {
                return Ok(());
            }
            let (mine, theirs) = (*from, db.tag);
            Err(EditFault::Conflict { mine, theirs })
        }
    }
}

fn check_copy(dbs: &[DbEntry], from: &DbName, to: &DbName) -> Result<(), EditFault>
    ensures { MatchResult result (λ _. copy_fault dbs.now from.now to.now ≡ None)
        (λ f. copy_fault dbs.now from.now to.now ≡ Some f) }
{
    if database_of(dbs, from).is_none() {
        return Err(EditFault::NoDatabase);
    }
    if database_of(dbs, to).is_some() {
        return Err(EditFault::Exists);
    }
    if dbs.len() >= MOST_DATABASES as usize {
        return Err(EditFault::TooManyDatabases);
    }
    Ok(())
}

fn check_remove(dbs: &[DbEntry], name: &DbName) -> Result<(), EditFault>
    ensures { MatchResult result (λ _. plan_fault 0 dbs.now (EditPlan.Remove name.now) ≡ None)
        (λ f. plan_fault 0 dbs.now (EditPlan.Remove name.now) ≡ Some f) }
{
    match database_of(dbs, name) {
        None => Err(EditFault::NoDatabase),
        Some(_) => Ok(()),
    }
}

// The tests of the databases.
fn check_databases(block: u32, dbs: &[DbEntry], plan: &EditPlan) -> Result<(), EditFault>
    requires { 512 ≤ block }
    ensures { MatchResult result (λ _. plan_fault block dbs.now plan.now ≡ None)
        (λ f. plan_fault block dbs.now plan.now ≡ Some f) }
{
    match plan {
        EditPlan::New(entry) => check_new(block, dbs, entry),
        EditPlan::Upload { from, entry } => check_upload(dbs, &entry.name, from),
        EditPlan::Copy { from, to } => check_copy(dbs, from, to),
        EditPlan::Remove { name } => check_remove(dbs, name),
        EditPlan::Sweep { .. } => Ok(()),
    }
}

// The tests of a result of so many dead blocks, and of so many bytes beside them.
fn check_lengths(bytes: u64, dead: u64) -> Result<(), EditFault>
    requires bytes { bytes < 2 ^ 63 }
    requires dead { dead < 2 ^ 32 }
    ensures { MatchResult result (λ _. too_large bytes dead ≡ None)
        (λ f. too_large bytes dead ≡ Some f) }
{
    if dead > u64::from(MOST_DEAD) {
        return Err(EditFault::DeleteListFull);
    }
    if bytes + 24 * dead > u64::from(MOST_BYTES) {
        return Err(EditFault::ManifestTooLong);
    }
    Ok(())
}

// The bytes of the result but for its delete list.
fn bytes_beside(m: &Manifest, plan: &EditPlan, writer: &Id16) -> u64
    requires rules { MeetsRules m.now }
    requires limits { MeetsLimits m.now }
    ensures value { result ≡ 64 + 40 * length (applied m.now plan.now zero_id writer.now 0).writers
        + needed_total m.now.block (applied m.now plan.now zero_id writer.now 0).dbs }
    ensures small { result < 2 ^ 63 }
{
    let lines = line_count(m.writers.items(), writer);
    64 + 40 * lines as u64 + needed_after(m.block, plan, m.dbs.items())
}

// At most how many dead blocks the result has: those of the manifest, and all blocks of the database that goes.
fn dead_bound(m: &Manifest, plan: &EditPlan) -> u64
    requires rules { MeetsRules m.now }
    requires limits { MeetsLimits m.now }
    ensures value { result ≡ length m.now.dead + length (leaving plan.now m.now.dbs) }
    ensures small { result < 2 ^ 32 }
{
    m.dead.items().len() as u64 + leaving(plan, m.dbs.items()).len() as u64
}

// The tests of the size of the result, where those of the databases are passed.
fn check_size(m: &Manifest, plan: &EditPlan, writer: &Id16) -> Result<(), EditFault>
    requires rules { MeetsRules m.now }
    requires limits { MeetsLimits m.now }
    requires passes { plan_fault m.now.block m.now.dbs plan.now ≡ None }
    ensures { MatchResult result (λ _. size_fault m.now plan.now writer.now ≡ None)
        (λ f. size_fault m.now plan.now writer.now ≡ Some f) }
{
    if line_count(m.writers.items(), writer) > MOST_WRITERS as usize {
        return Err(EditFault::WritersFull);
    }
    let bytes = bytes_beside(m, plan, writer);
    if check_lengths(bytes, dead_bound(m, plan)).is_ok() {
        return Ok(());
    }
    // Near a limit it counts exactly.
    check_lengths(bytes, dead_count(m, plan) as u64)
}

/// Whether a plan can be published over a manifest by a writer, or the first fault of it: the manifest's number, the
/// plan's database, the table of writers, the delete list, the length. Ids of zeros in the plan's entry stand for blocks
/// that are still to be put. It takes no memory.
pub fn check(m: &Manifest, plan: &EditPlan, writer: &Id16) -> Result<(), EditFault>
    requires rules { MeetsRules m.now }
    requires limits { MeetsLimits m.now }
    ensures { MatchResult result (λ _. checked m.now plan.now writer.now ≡ None)
        (λ f. checked m.now plan.now writer.now ≡ Some f) }
{
    if m.number == u64::MAX {
        return Err(EditFault::VersionsFull);
    }
    check_databases(m.block, m.dbs.items(), plan)?;
    check_size(m, plan, writer)
}
