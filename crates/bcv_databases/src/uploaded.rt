//! What an upload that was published leaves.
ghost use Rattle.std.specs.Prelude.{◌≡◌, ◌<◌, ◌≤◌, ◌+◌, false, IfSome, drop, length};
ghost use Rattle.bcv_base.specs.Keyed.{keyed};
ghost use Rattle.bcv_base.specs.ManifestRules.{Ascends};
ghost use Rattle.bcv_model.specs.Notes.{kept_name, with_uploaded};
ghost use Rattle.bcv_databases.specs.Catalog.{use_name};
ghost use Rattle.bcv_databases.specs.Changes.{left_known, published};
ghost use Rattle.bcv_databases.specs.Slots.{uses_after};

use crate::known::Known;
use crate::named::place_of;
use crate::set_use::SetUse;
use bcv_base::{DbName, Seq};
use bcv_model::{Commit, Local, Uploading};
use std::alloc::Global;
use std::mem::replace;

/// The commits after the first so many.
fn later_commits(commits: Seq<Commit>, count: usize) -> Seq<Commit>
    requires { count ≤ length commits }
    ensures { result ≡ drop count commits }
{
    let mut commits = commits.into_vec();
    let _ = commits.drain(..count);
    Seq::of(commits)
}

/// Lets the commits go that an upload took, which was published as the version of this number. Answers its database as
/// it was published, where no commits are left.
pub(crate) fn end_upload(
    alloc: Global,
    locals: &mut Seq<Local>,
    number: u64,
    upload: Uploading,
) -> Option<Known>
    requires { Ascends kept_name locals.old }
    ensures locals { locals.new ≡ with_uploaded number upload locals.old }
    ensures known { result ≡ left_known number locals.new upload }
{
    let mut changed = replace(locals, Seq::of(Vec::new(alloc))).into_vec();
    let left = upload_in(alloc, &mut changed, number, upload);
    *locals = Seq::of(changed);
    left
}

fn upload_in(
    alloc: Global,
    locals: &mut Vec<Local>,
    number: u64,
    upload: Uploading,
) -> Option<Known>
    requires { Ascends kept_name locals.old.items }
    ensures locals { locals.new.items ≡ with_uploaded number upload locals.old.items }
    ensures known { result ≡ left_known number locals.new.items upload }
{
    let Ok(place) = place_of(locals, &upload.entry.name) else {
        return Some(published(number, upload));
    };
    if upload.count >= locals[place].commits.items().len() as u64 {
        let _ = locals.remove(place);
        return Some(published(number, upload));
    }
    rebase(alloc, &mut locals[place], number, upload);
    None
}

// The database of an upload, as it was published.
fn published(number: u64, upload: Uploading) -> Known
    ensures { result ≡ published number upload }
{
    let Uploading {
        count: _,
        block,
        entry,
    } = upload;
    Known {
        entry,
        number,
        block,
    }
}

// Moves a database to the base that an upload of its first commits published.
fn rebase(alloc: Global, local: &mut Local, number: u64, upload: Uploading)
    requires { upload.count ≤ length local.old.commits }
    ensures { local.new ≡ record {
      entry = upload.entry;
      number = number;
      block = upload.block;
      commits = drop upload.count local.old.commits;
    } }
{
    let Uploading {
        count,
        block,
        entry,
    } = upload;
    let commits = replace(&mut local.commits, Seq::of(Vec::new(alloc)));
    local.commits = later_commits(commits, count as usize);
    local.entry = entry;
    local.number = number;
    local.block = block;
}

/// Moves the number after which a database's commits begin in its set, no further than to the last one's.
pub(crate) fn move_from(uses: &mut Vec<SetUse>, db: &DbName, count: u64, last: u64)
    requires order { Ascends use_name uses.old.items }
    requires small { IfSome (keyed use_name db.now uses.old.items) (λ u. u.from + count ≤ last) }
    ensures { uses.new.items ≡ uses_after false db.now count uses.old.items }
{
    if let Ok(place) = place_of(uses, db) {
        uses[place].from += count;
    }
}
