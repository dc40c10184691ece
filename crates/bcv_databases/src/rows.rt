//! The table of the databases that a client knows.
ghost use Rattle.std.specs.Prelude.{◌≡◌, ◌≤◌, ◌++◌, None, IfOk, OnOk, length, map};
ghost use Rattle.std.specs.List.{AllByRecursion};
ghost use Rattle.bcv_base.specs.Keyed.{keyed};
ghost use Rattle.bcv_base.specs.ManifestRules.{Ascends};
ghost use Rattle.bcv_base.specs.Views.{view_size};
ghost use Rattle.bcv_model.specs.Commits.{writes_of};
ghost use Rattle.bcv_model.specs.Notes.{kept_name};
ghost use Rattle.bcv_databases.specs.Catalog.{known_name};
ghost use Rattle.bcv_databases.specs.Table.{Merges, known_row, local_row, merged_rows};

use crate::known::Known;
use bcv_base::DbName;
use bcv_model::{Commit, Local, Row};
use std::alloc::{AllocError, Global};

fn known_row(known: &Known) -> Row
    ensures { result ≡ known_row known.now }
{
    Row {
        name: known.entry.name,
        number: known.number,
        pages: known.entry.pages,
        commits: 0,
    }
}

fn local_row(local: &Local) -> Row
    ensures { result ≡ local_row local.now }
{
    let commits = local.commits.items();
    Row {
        name: local.entry.name,
        number: local.number,
        pages: last_size(commits, local.entry.pages),
        commits: commits.len() as u64,
    }
}

// The size after the commits, in pages, over a base of so many.
fn last_size(commits: &[Commit], pages: u32) -> u32
    ensures { result ≡ view_size pages (map writes_of commits.now) }
{
    match commits.last() {
        Some(commit) => commit.size,
        None => pages,
    }
}

/// Appends the rows of the databases that stand before a name, and answers the place of the next one.
fn push_before(
    rows: &mut Vec<Row>,
    locals: &[Local],
    from: usize,
    name: &DbName,
) -> Result<usize, AllocError>
    requires inside { from ≤ length locals.now }
    requires order { Ascends kept_name locals.now }
    requires without { keyed kept_name name.now locals.now ≡ None }
    ensures { IfOk result (Merges locals.now from name.now rows.old.items rows.new.items) }
{
    for place in from..locals.len() {
        if locals[place].entry.name.cmp_bytes(name).is_ge() {
            return Ok(place);
        }
        rows.push(local_row(&locals[place]))?;
    }
    Ok(locals.len())
}

/// The rows of all databases, ascending by name.
pub(crate) fn table(
    alloc: Global,
    locals: &[Local],
    known: &[Known],
) -> Result<Vec<Row>, AllocError>
    requires locals { Ascends kept_name locals.now }
    requires known { Ascends known_name known.now }
    requires without { AllByRecursion (λ k. keyed kept_name (known_name k) locals.now
        ≡ None) known.now }
    ensures { IfOk result (λ rows. rows.items ≡ merged_rows known.now (map local_row locals.now)) }
{
    let mut rows = Vec::new(alloc);
    let mut next = 0;
    for database in known {
        next = push_before(&mut rows, locals, next, &database.entry.name)?;
        rows.push(known_row(database))?;
    }
    push_rows(&mut rows, &locals[next..])?;
    Ok(rows)
}

// Appends the rows of databases with commits.
fn push_rows(rows: &mut Vec<Row>, locals: &[Local]) -> Result<(), AllocError>
    ensures { OnOk result (rows.new.items ≡ rows.old.items ++ map local_row locals.now) }
{
    for local in locals {
        rows.push(local_row(local))?;
    }
    Ok(())
}
