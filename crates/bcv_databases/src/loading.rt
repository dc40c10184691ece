//! The sets of loaded databases.
ghost use Rattle.std.specs.Prelude.{◌≡◌, true, IfOk, None, Some, map};
ghost use Rattle.std.specs.List.{AllByRecursion, list_all};
ghost use Rattle.bcv_base.specs.Views.{is_commit};
ghost use Rattle.bcv_model.specs.Commits.{writes_of};
ghost use Rattle.bcv_databases.specs.Sound.{IsLoaded};
ghost use Rattle.bcv_databases.specs.Slots.{loaded_set, uses_from};

use crate::copies::copy_commit;
use crate::set_slots::reserve;
use crate::set_use::SetUse;
use bcv_model::{Commit, Local};
use bcv_pages::PageSet;
use std::alloc::{AllocError, Global};

/// A set of these commits.
fn set_of(alloc: Global, page_size: u32, commits: &[Commit]) -> Result<PageSet, AllocError>
    requires { list_all (is_commit page_size) (map writes_of commits.now) ≡ true }
    ensures { IfOk result
        (λ h. h ≡ record { page_size = page_size; forgotten = 0; kept = map writes_of commits.now; ready = None }) }
{
    let mut set = PageSet::new(alloc, page_size);
    for commit in commits {
        let copy = copy_commit(alloc, commit)?;
        reserve(&mut set, commit)?;
        set.add(copy);
    }
    Ok(set)
}

/// The sets of the databases, one for each.
pub(crate) fn sets_of(alloc: Global, locals: &[Local]) -> Result<Vec<Option<PageSet>>, AllocError>
    requires { AllByRecursion IsLoaded locals.now }
    ensures { IfOk result (λ sets. sets.items ≡ map loaded_set locals.now) }
{
    let mut sets = Vec::with_capacity(alloc, locals.len())?;
    for local in locals {
        let set = set_of(alloc, local.entry.page_size, local.commits.items())?;
        sets.push(Some(set))?;
    }
    Ok(sets)
}

/// That each database uses the set of its place.
pub(crate) fn uses_of(alloc: Global, locals: &[Local]) -> Result<Vec<SetUse>, AllocError>
    ensures { IfOk result (λ uses. uses.items ≡ uses_from 0 locals.now) }
{
    let mut uses = Vec::with_capacity(alloc, locals.len())?;
    for place in 0..locals.len() {
        uses.push(SetUse {
            name: locals[place].entry.name,
            set: place,
            from: 0,
        })?;
    }
    Ok(uses)
}
