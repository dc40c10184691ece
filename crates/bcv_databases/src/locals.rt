//! The databases with commits, changed without memory of their own.
ghost use Rattle.std.specs.Prelude.{◌≡◌, ◌<◌, ◌++◌, ◌∷◌, [], IfSome, IsSome, None, length, vec_len, vec_capacity, drop};
ghost use Rattle.bcv_base.specs.Keyed.{keyed, with_keyed, without_keyed};
ghost use Rattle.bcv_base.specs.ManifestRules.{Ascends};
ghost use Rattle.bcv_model.specs.Notes.{kept_name, with_local_commit};

use crate::named::{place_of, put, take};
use bcv_base::{DbName, Seq};
use bcv_model::{Commit, Local};
use std::alloc::Global;
use std::mem::{replace, swap};

/// The commits in a vector that has room for one more: their own, or the spare one, which takes the other's place.
fn with_room(commits: Vec<Commit>, spare: &mut Vec<Commit>) -> Vec<Commit>
    requires empty { spare.old.items ≡ [] }
    requires room { length commits.items < vec_capacity spare.old }
    ensures commits { result.items ≡ commits.items }
    ensures room { vec_len result < vec_capacity result }
    ensures spare { spare.new.items ≡ [] }
{
    let mut commits = commits;
    if commits.len() < commits.capacity() {
        return commits;
    }
    match spare.append(&mut commits) {
        Ok(()) => (),
        Err(_) => unreachable!(),
    }
    swap(spare, &mut commits);
    commits
}

/// The commits with one more.
fn with_commit(commits: Seq<Commit>, spare: &mut Vec<Commit>, commit: Commit) -> Seq<Commit>
    requires empty { spare.old.items ≡ [] }
    requires room { length commits < vec_capacity spare.old }
    ensures commits { result ≡ commits ++ commit ∷ [] }
    ensures spare { spare.new.items ≡ [] }
{
    let mut commits = with_room(commits.into_vec(), spare);
    match commits.push(commit) {
        Ok(()) => (),
        Err(_) => unreachable!(),
    }
    Seq::of(commits)
}

/// Adds a commit to those of a database.
pub(crate) fn add_later(
    alloc: Global,
    locals: &mut Seq<Local>,
    spare: &mut Vec<Commit>,
    db: &DbName,
    commit: Commit,
)
    requires order { Ascends kept_name locals.old }
    requires empty { spare.old.items ≡ [] }
    requires there { IsSome (keyed kept_name db.now locals.old) }
    requires room { IfSome (keyed kept_name db.now locals.old)
        (λ l. length l.commits < vec_capacity spare.old) }
    ensures locals { locals.new ≡ with_local_commit db.now commit locals.old }
    ensures spare { spare.new.items ≡ [] }
{
    let mut changed = replace(locals, Seq::of(Vec::new(alloc))).into_vec();
    let Ok(place) = place_of(&changed, db) else {
        unreachable!()
    };
    add_at(alloc, &mut changed[place], spare, commit);
    *locals = Seq::of(changed);
}

// Adds a commit to those of the database.
fn add_at(alloc: Global, local: &mut Local, spare: &mut Vec<Commit>, commit: Commit)
    requires empty { spare.old.items ≡ [] }
    requires room { length local.old.commits < vec_capacity spare.old }
    ensures local { local.new ≡ record local.old { commits = local.old.commits ++ commit ∷ [] } }
    ensures spare { spare.new.items ≡ [] }
{
    let commits = replace(&mut local.commits, Seq::of(Vec::new(alloc)));
    local.commits = with_commit(commits, spare, commit);
}

/// Adds a database, in a vector with room for all.
pub(crate) fn add_first(alloc: Global, locals: &mut Seq<Local>, into: Vec<Local>, local: Local)
    requires order { Ascends kept_name locals.old }
    requires empty { into.items ≡ [] }
    requires room { length locals.old < vec_capacity into }
    ensures { locals.new ≡ with_keyed kept_name local locals.old }
{
    let mut from = replace(locals, Seq::of(Vec::new(alloc))).into_vec();
    let mut into = into;
    match into.append(&mut from) {
        Ok(()) => (),
        Err(_) => unreachable!(),
    }
    put(&mut into, local);
    *locals = Seq::of(into);
}

/// Takes out the database of a name.
pub(crate) fn take_local(alloc: Global, locals: &mut Seq<Local>, db: &DbName) -> Option<Local>
    requires order { Ascends kept_name locals.old }
    ensures found { result ≡ keyed kept_name db.now locals.old }
    ensures others { locals.new ≡ without_keyed kept_name db.now locals.old }
{
    let mut changed = replace(locals, Seq::of(Vec::new(alloc))).into_vec();
    let taken = take(&mut changed, db);
    *locals = Seq::of(changed);
    taken
}
