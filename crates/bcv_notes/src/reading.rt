//! Notes as bytes, read where something is kept.

ghost use Rattle.std.specs.Prelude.{◌≡◌, ◌&&◌, ℕ, None, Some, IfOk, IfSome, true, is_some, is_none, nat_eq};
ghost use Rattle.std.specs.List.{list_all};
ghost use Rattle.bcv_base.specs.declared.id.Id16.{Id16};
ghost use Rattle.bcv_base.specs.Keyed.{keyed};
ghost use Rattle.bcv_model.specs.declared.kept.Local.{Local};
ghost use Rattle.bcv_model.specs.declared.note.Note.{Note};
ghost use Rattle.bcv_model.specs.NoteRules.{MayStand};
ghost use Rattle.bcv_model.specs.Notes.{kept_name, note_text};
ghost use Rattle.bcv_notes.specs.NoteGrammar.{ends_at, is_new_local, is_pending_as, me_at, first_at, committed_at, intent_at, done_at, void_at, revert_at, kind_at, note_at};
ghost use Rattle.bcv_notes.specs.Reading.{IsNoteAt, Yields};

use crate::fields::{block_size_of, id_of, name_of, version_of};
use crate::locals::local_of;
use crate::parts::{commit_of, entry_of, upload_of};
use crate::stop::Stop;
use bcv_base::{DbName, Id16};
use bcv_model::{Kept, Local, Note, PendingPub};
use std::alloc::{AllocError, Global};

// The note, where it may stand and nothing follows it.
fn ended(may: bool, note: Note, rest: &[u8]) -> Result<Note, Stop>
    ensures { Yields (λ x. x) result (ends_at may note rest.now) }
{
    if may && rest.is_empty() {
        Ok(note)
    } else {
        Err(Stop::NoNote)
    }
}

fn all_have_block(locals: &[Local], block: u32) -> bool
    ensures { result ≡ list_all (λ (l : Local). nat_eq l.block block) locals.now }
{
    locals.iter().all(|local| local.block == block)
}

fn is_new_local(kept: &Kept, db: &DbName, block: u32) -> bool
    ensures { result ≡ is_new_local kept.now db.now block }
{
    local_of(kept.locals.items(), db).is_none() && all_have_block(kept.locals.items(), block)
}

fn is_pending_as(kept: &Kept, id: &Id16) -> bool
    ensures { result ≡ is_pending_as kept.now.pending id.now }
{
    match &kept.pending {
        Some(pending) => pending.id.same_as(id),
        None => false,
    }
}

#[tactic(auto, unfolding(crate::specs::NoteGrammar::me_at))]
fn me_of(kept: &Kept, bytes: &[u8]) -> Result<Note, Stop>
    ensures { Yields (λ x. x) result (me_at kept.now bytes.now) }
{
    let (id, rest) = id_of(bytes)?;
    ended(kept.me.is_none(), Note::Me(id), rest)
}

#[tactic(auto, unfolding(crate::specs::NoteGrammar::first_at))]
fn first_of(alloc: Global, kept: &Kept, bytes: &[u8]) -> Result<Note, Stop>
    ensures { Yields (λ x. x) result (first_at kept.now bytes.now) }
{
    let (block, rest) = block_size_of(bytes)?;
    let (number, rest) = version_of(rest)?;
    let (entry, rest) = match entry_of(alloc, block, rest) {
        Ok(field) => field,
        Err(stop) => return Err(stop),
    };
    let (commit, rest) = match commit_of(alloc, block, entry.page_size, rest) {
        Ok(field) => field,
        Err(stop) => return Err(stop),
    };
    let may = is_new_local(kept, &entry.name, block);
    let note = Note::First {
        entry,
        number,
        block,
        commit,
    };
    ended(may, note, rest)
}

#[tactic(auto, unfolding(crate::specs::NoteGrammar::committed_at))]
fn committed_of(alloc: Global, kept: &Kept, bytes: &[u8]) -> Result<Note, Stop>
    ensures { Yields (λ x. x) result (committed_at kept.now bytes.now) }
{
    let (db, rest) = match name_of(bytes) {
        Ok(field) => field,
        Err(stop) => return Err(stop),
    };
    let Some(local) = local_of(kept.locals.items(), &db) else {
        return Err(Stop::NoNote);
    };
    let (commit, rest) = match commit_of(alloc, local.block, local.entry.page_size, rest) {
        Ok(field) => field,
        Err(stop) => return Err(stop),
    };
    ended(true, Note::Committed { db, commit }, rest)
}

#[tactic(auto, unfolding(crate::specs::NoteGrammar::intent_at))]
fn intent_of(alloc: Global, kept: &Kept, bytes: &[u8]) -> Result<Note, Stop>
    ensures { Yields (λ x. x) result (intent_at kept.now bytes.now) }
{
    let (id, rest) = id_of(bytes)?;
    let (upload, rest) = match upload_of(alloc, kept, rest) {
        Ok(field) => field,
        Err(stop) => return Err(stop),
    };
    ended(
        kept.pending.is_none(),
        Note::Intent(PendingPub { id, upload }),
        rest,
    )
}

#[tactic(auto, unfolding(crate::specs::NoteGrammar::done_at))]
fn done_of(kept: &Kept, bytes: &[u8]) -> Result<Note, Stop>
    ensures { Yields (λ x. x) result (done_at kept.now bytes.now) }
{
    let (id, rest) = id_of(bytes)?;
    let (number, rest) = version_of(rest)?;
    ended(is_pending_as(kept, &id), Note::Done { id, number }, rest)
}

#[tactic(auto, unfolding(crate::specs::NoteGrammar::void_at))]
fn void_of(kept: &Kept, bytes: &[u8]) -> Result<Note, Stop>
    ensures { Yields (λ x. x) result (void_at kept.now bytes.now) }
{
    let (id, rest) = id_of(bytes)?;
    ended(is_pending_as(kept, &id), Note::Void(id), rest)
}

#[tactic(auto, unfolding(crate::specs::NoteGrammar::revert_at))]
fn revert_of(kept: &Kept, bytes: &[u8]) -> Result<Note, Stop>
    ensures { Yields (λ x. x) result (revert_at kept.now bytes.now) }
{
    let (db, rest) = match name_of(bytes) {
        Ok(field) => field,
        Err(stop) => return Err(stop),
    };
    let may = local_of(kept.locals.items(), &db).is_some() && kept.pending.is_none();
    ended(may, Note::Revert(db), rest)
}

// The fields of a note after a Me, by its kind.
fn kind_of(alloc: Global, kind: u8, kept: &Kept, bytes: &[u8]) -> Result<Note, Stop>
    ensures { Yields (λ x. x) result (kind_at kind kept.now bytes.now) }
{
    match kind {
        2 => first_of(alloc, kept, bytes),
        3 => committed_of(alloc, kept, bytes),
        4 => intent_of(alloc, kept, bytes),
        5 => done_of(kept, bytes),
        6 => void_of(kept, bytes),
        7 => revert_of(kept, bytes),
        _ => Err(Stop::NoNote),
    }
}

// The note that the bytes are.
#[tactic(auto, unfolding(crate::specs::NoteGrammar::note_at))]
fn note_of(alloc: Global, kept: &Kept, item: &[u8]) -> Result<Note, Stop>
    ensures { Yields (λ x. x) result (note_at kept.now item.now) }
{
    let [kind, fields @ ..] = item else {
        return Err(Stop::NoNote);
    };
    if *kind == 1 {
        return me_of(kept, fields);
    }
    if kept.me.is_none() {
        return Err(Stop::NoNote);
    }
    kind_of(alloc, *kind, kept, fields)
}

/// Reads an item of the log as the note that it is where this is kept; `None` where it is none that may stand there.
pub fn read_note(alloc: Global, kept: &Kept, item: &[u8]) -> Result<Option<Note>, AllocError>
    ensures { IfOk result (IsNoteAt kept.now item.now) }
{
    match note_of(alloc, kept, item) {
        Ok(note) => Ok(Some(note)),
        Err(Stop::NoNote) => Ok(None),
        Err(Stop::NoMemory) => Err(AllocError),
    }
}
