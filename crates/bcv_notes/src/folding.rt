//! What is kept after a note.

ghost use Rattle.std.specs.Prelude.{◌≡◌, ◌<◌, ◌≤◌, ◌+◌, ◌++◌, ◌∷◌, [], ℕ, List, Option, length, take, drop, Some, None, IfOk, IfErr, get_or, MatchOption};
ghost use Rattle.bcv_base.specs.Keyed.{with_keyed, without_keyed};
ghost use Rattle.bcv_model.specs.declared.kept.Local.{Local};
ghost use Rattle.bcv_model.specs.declared.kept.PendingPub.{PendingPub};
ghost use Rattle.bcv_model.specs.declared.kept.Uploading.{Uploading};
ghost use Rattle.bcv_model.specs.declared.note.Note.TheVariants.{Committed, Revert};
ghost use Rattle.bcv_model.specs.Notes.{kept_name, replaced_local, with_local_commit, with_uploaded, with_published, kept_published, after_note};

use bcv_base::{DbName, Id16, Seq};
use bcv_model::{Commit, Kept, Local, Note, PendingPub, Uploading};
use std::alloc::{AllocError, Global};
use std::mem::replace;

// Where the first database of a name stands.
fn first_of(locals: &[Local], db: &DbName) -> Option<usize>
    ensures { MatchOption result ((change : Local → List Local)
        → replaced_local change db.now locals.now ≡ locals.now)
        (λ i. (i < length locals.now) × ((change : Local → List Local) (l : Local) → l ≡ get_or locals.now i l → replaced_local change db.now locals.now ≡ take i locals.now ++ (change l ++ drop (i + 1) locals.now))) }
{
    for place in 0..locals.len() {
        if locals[place].entry.name.same_as(db) {
            return Some(place);
        }
    }
    None
}

// Where the database of a name stands, or where it would stand.
fn place_of(locals: &[Local], db: &DbName) -> Result<usize, usize>
    ensures there { IfOk result (λ i. (i < length locals.now)
        × ((l : Local) → kept_name l ≡ db.now → with_keyed kept_name l locals.now
        ≡ take i locals.now ++ l ∷ drop (i + 1) locals.now)) }
    ensures free { IfErr result (λ i. (i ≤ length locals.now)
        × ((l : Local) → kept_name l ≡ db.now → with_keyed kept_name l locals.now
        ≡ take i locals.now ++ l ∷ drop i locals.now)) }
{
    for place in 0..locals.len() {
        let order = locals[place].entry.name.cmp_bytes(db);
        if order.is_eq() {
            return Ok(place);
        }
        if order.is_gt() {
            return Err(place);
        }
    }
    Err(locals.len())
}

// The databases with one more, which stands over one of its name.
fn with_local(locals: Seq<Local>, local: Local) -> Result<Seq<Local>, AllocError>
    ensures { IfOk result (λ ls. ls ≡ with_keyed kept_name local locals) }
{
    let mut locals = locals.into_vec();
    match place_of(&locals, &local.entry.name) {
        Ok(place) => {
            locals[place] = local;
            Ok(Seq::of(locals))
        }
        Err(place) => {
            locals.insert(place, local)?;
            Ok(Seq::of(locals))
        }
    }
}

// The commits with one more.
fn with_commit(commits: Seq<Commit>, commit: Commit) -> Result<Seq<Commit>, AllocError>
    ensures { IfOk result (λ cs. cs ≡ commits ++ commit ∷ []) }
{
    let mut commits = commits.into_vec();
    commits.push(commit)?;
    Ok(Seq::of(commits))
}

// The databases with one more commit of one of them.
fn with_local_commit(
    alloc: Global,
    locals: Seq<Local>,
    db: &DbName,
    commit: Commit,
) -> Result<Seq<Local>, AllocError>
    ensures { IfOk result (λ ls. ls ≡ with_local_commit db.now commit locals) }
{
    let mut locals = locals.into_vec();
    let Some(place) = first_of(&locals, db) else {
        return Ok(Seq::of(locals));
    };
    let local = &mut locals[place];
    let commits = replace(&mut local.commits, Seq::of(Vec::new(alloc)));
    local.commits = with_commit(commits, commit)?;
    Ok(Seq::of(locals))
}

// The commits after the first so many.
fn later_commits(commits: Seq<Commit>, count: u64) -> Result<Seq<Commit>, AllocError>
    ensures { IfOk result (λ cs. cs ≡ drop count commits) }
{
    let mut commits = commits.into_vec();
    if count >= commits.len() as u64 {
        commits.clear();
        return Ok(Seq::of(commits));
    }
    Ok(Seq::of(commits.split_off(count as usize)?))
}

// The databases after an upload that was published.
fn with_uploaded(
    locals: Seq<Local>,
    number: u64,
    upload: Uploading,
) -> Result<Seq<Local>, AllocError>
    ensures { IfOk result (λ ls. ls ≡ with_uploaded number upload locals) }
{
    let mut locals = locals.into_vec();
    let Uploading {
        count,
        block,
        entry,
    } = upload;
    let Some(place) = first_of(&locals, &entry.name) else {
        return Ok(Seq::of(locals));
    };
    let local = locals.remove(place);
    let commits = later_commits(local.commits, count)?;
    if commits.items().is_empty() {
        return Ok(Seq::of(locals));
    }
    let local = Local {
        entry,
        number,
        block,
        commits,
    };
    locals.insert(place, local)?;
    Ok(Seq::of(locals))
}

// What is kept after a publication that was pending has been made.
fn published(
    me: Option<Id16>,
    locals: Seq<Local>,
    pending: Option<PendingPub>,
    number: u64,
) -> Result<Kept, AllocError>
    ensures { IfOk result (λ k. k ≡ kept_published number
        (record { me = me; locals = locals; pending = pending }) pending) }
{
    let locals = match pending {
        Some(
            PendingPub {
                id: _,
                upload: Some(upload),
            },
        ) => with_uploaded(locals, number, upload)?,
        _ => locals,
    };
    Ok(Kept {
        me,
        locals,
        pending: None,
    })
}

// The databases of other names.
fn without_local(locals: Seq<Local>, db: &DbName) -> Seq<Local>
    ensures { result ≡ without_keyed kept_name db.now locals }
{
    let mut locals = locals.into_vec();
    locals.retain(|local| !local.entry.name.same_as(db));
    Seq::of(locals)
}

// What is kept after a database's first commit.
fn after_first(kept: Kept, local: Local) -> Result<Kept, AllocError>
    ensures { IfOk result (λ k. k ≡ record kept { locals = with_keyed kept_name local kept.locals }) }
{
    let Kept {
        me,
        locals,
        pending,
    } = kept;
    let locals = with_local(locals, local)?;
    Ok(Kept {
        me,
        locals,
        pending,
    })
}

// What is kept after one more commit.
fn after_commit(alloc: Global, kept: Kept, db: &DbName, commit: Commit) -> Result<Kept, AllocError>
    ensures { IfOk result (λ k. k ≡ after_note kept (Committed db.now commit)) }
{
    let Kept {
        me,
        locals,
        pending,
    } = kept;
    let locals = with_local_commit(alloc, locals, db, commit)?;
    Ok(Kept {
        me,
        locals,
        pending,
    })
}

// What is kept after a publication has been made.
fn after_done(kept: Kept, number: u64) -> Result<Kept, AllocError>
    ensures { IfOk result (λ k. k ≡ kept_published number kept kept.pending) }
{
    let Kept {
        me,
        locals,
        pending,
    } = kept;
    published(me, locals, pending, number)
}

// What is kept after the commits of a database have been given up.
fn after_revert(kept: Kept, db: &DbName) -> Kept
    ensures { result ≡ after_note kept (Revert db.now) }
{
    let Kept {
        me,
        locals,
        pending,
    } = kept;
    let locals = without_local(locals, db);
    Kept {
        me,
        locals,
        pending,
    }
}

// What is kept with another pending publication, or none.
fn with_pending(kept: Kept, pending: Option<PendingPub>) -> Kept
    ensures { result ≡ record kept { pending = pending } }
{
    let Kept {
        me,
        locals,
        pending: _,
    } = kept;
    Kept {
        me,
        locals,
        pending,
    }
}

// What is kept with a name of the client.
fn with_me(kept: Kept, id: Id16) -> Kept
    ensures { result ≡ record kept { me = Some id } }
{
    let Kept {
        me: _,
        locals,
        pending,
    } = kept;
    Kept {
        me: Some(id),
        locals,
        pending,
    }
}

/// Applies a note to what is kept.
pub fn after_note(alloc: Global, kept: Kept, note: Note) -> Result<Kept, AllocError>
    ensures { IfOk result (λ k. k ≡ after_note kept note) }
{
    match note {
        Note::Me(id) => Ok(with_me(kept, id)),
        Note::First {
            entry,
            number,
            block,
            commit,
        } => {
            let commits = with_commit(Seq::of(Vec::new(alloc)), commit)?;
            let local = Local {
                entry,
                number,
                block,
                commits,
            };
            after_first(kept, local)
        }
        Note::Committed { db, commit } => after_commit(alloc, kept, &db, commit),
        Note::Intent(intent) => Ok(with_pending(kept, Some(intent))),
        Note::Done { id: _, number } => after_done(kept, number),
        Note::Void(_) => Ok(with_pending(kept, None)),
        Note::Revert(db) => Ok(after_revert(kept, &db)),
    }
}
