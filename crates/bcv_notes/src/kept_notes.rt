//! The fewest notes that come to what is kept.

ghost use Rattle.std.specs.Prelude.{◌≡◌, ◌<◌, ◌≤◌, ◌+◌, ◌-◌, ◌^◌, ◌++◌, ℕ, List, length, map, min, OnOk, IfOk};
ghost use Rattle.std.specs.List.{flat_map};
ghost use Rattle.bcv_base.specs.ManifestRules.{entry_length};
ghost use Rattle.bcv_model.specs.Notes.{commit_size, note_text, pages_size, upload_size};
ghost use Rattle.bcv_notes.specs.KeptBy.{items_of};
ghost use Rattle.bcv_notes.specs.KeptNotes.{committed_notes, first_notes, intent_notes, kept_notes, local_notes, me_notes, notes_size};

use crate::writing::{committed_note, first_note, intent_note, me_note};
use bcv_base::{DbEntry, DbName, Id16, Seq};
use bcv_model::{Commit, Kept, Local, PendingPub};
use std::alloc::{AllocError, Global};

// The bytes of a database's entry.
fn entry_size(entry: &DbEntry) -> u64
    ensures { result ≡ min (entry_length entry.now) (2 ^ 64 - 1) }
{
    let ids = (entry.blocks.items().len() as u64).saturating_mul(16);
    ids.saturating_add(25 + entry.name.text().len() as u64)
}

// The bytes of pages, each after its number.
fn pages_size(pages: &[(u32, Seq<u8>)]) -> u64
    ensures { result ≡ min (pages_size pages.now) (2 ^ 64 - 1) }
{
    let mut size = 0u64;
    let mut rest = pages;
    while let Some((page, after)) = rest.split_first() {
        size = size
            .saturating_add(4)
            .saturating_add(page.1.items().len() as u64);
        rest = after;
    }
    size
}

// The bytes of further commits of a database, as notes.
fn committed_size(name: usize, commits: &[Commit]) -> u64
    requires { name ≤ 255 }
    ensures { (db : List ℕ) → length db ≡ name → result
        ≡ min (notes_size (committed_notes db commits.now)) (2 ^ 64 - 1) }
{
    let mut size = 0u64;
    let mut rest = commits;
    while let Some((commit, after)) = rest.split_first() {
        let pages = pages_size(commit.pages.items());
        size = size.saturating_add(pages).saturating_add(15 + name as u64);
        rest = after;
    }
    size
}

// The bytes of a database's notes.
fn local_size(local: &Local) -> u64
    ensures { result ≡ min (notes_size (local_notes local.now)) (2 ^ 64 - 1) }
{
    match local.commits.items().split_first() {
        Some((first, after)) => {
            let pages = pages_size(first.pages.items());
            let base = entry_size(&local.entry).saturating_add(26);
            let name = local.entry.name.text().len();
            base.saturating_add(pages)
                .saturating_add(committed_size(name, after))
        }
        None => 0,
    }
}

fn locals_size(locals: &[Local]) -> u64
    ensures { result ≡ min (notes_size (flat_map local_notes locals.now)) (2 ^ 64 - 1) }
{
    let mut size = 0u64;
    let mut rest = locals;
    while let Some((local, after)) = rest.split_first() {
        size = size.saturating_add(local_size(local));
        rest = after;
    }
    size
}

fn me_size(me: &Option<Id16>) -> u64
    ensures { result ≡ notes_size (me_notes me.now) }
{
    match me {
        Some(_) => 22,
        None => 0,
    }
}

fn intent_size(pending: &Option<PendingPub>) -> u64
    ensures { result ≡ min (notes_size (intent_notes pending.now)) (2 ^ 64 - 1) }
{
    match pending {
        None => 0,
        Some(pending) => match &pending.upload {
            None => 23,
            Some(upload) => entry_size(&upload.entry).saturating_add(35),
        },
    }
}

/// How many bytes the fewest notes take in a file that come to what is kept, or 2^64 - 1 where they are more. It
/// takes
/// no memory.
pub fn kept_size(kept: &Kept) -> u64
    ensures { result ≡ min (notes_size (kept_notes kept.now)) (2 ^ 64 - 1) }
{
    let locals = locals_size(kept.locals.items());
    me_size(&kept.me)
        .saturating_add(locals)
        .saturating_add(intent_size(&kept.pending))
}

fn push_me(alloc: Global, items: &mut Vec<Vec<u8>>, me: &Option<Id16>) -> Result<(), AllocError>
    ensures { OnOk result (items_of items.new.items
        ≡ items_of items.old.items ++ map note_text (me_notes me.now)) }
{
    if let Some(id) = me {
        items.push(me_note(alloc, id)?)?;
        return Ok(());
    }
    Ok(())
}

fn push_intent(
    alloc: Global,
    items: &mut Vec<Vec<u8>>,
    pending: &Option<PendingPub>,
) -> Result<(), AllocError>
    ensures { OnOk result (items_of items.new.items
        ≡ items_of items.old.items ++ map note_text (intent_notes pending.now)) }
{
    if let Some(pending) = pending {
        items.push(intent_note(alloc, pending)?)?;
        return Ok(());
    }
    Ok(())
}

fn push_committed(
    alloc: Global,
    items: &mut Vec<Vec<u8>>,
    db: &DbName,
    commits: &[Commit],
) -> Result<(), AllocError>
    requires { notes_size (committed_notes db.now commits.now) < 2 ^ 32 }
    ensures { OnOk result (items_of items.new.items
        ≡ items_of items.old.items ++ map note_text (committed_notes db.now commits.now)) }
{
    let mut rest = commits;
    while let Some((commit, after)) = rest.split_first() {
        items.push(committed_note(alloc, db, commit)?)?;
        rest = after;
    }
    Ok(())
}

fn push_local(alloc: Global, items: &mut Vec<Vec<u8>>, local: &Local) -> Result<(), AllocError>
    requires { notes_size (local_notes local.now) < 2 ^ 32 }
    ensures { OnOk result (items_of items.new.items
        ≡ items_of items.old.items ++ map note_text (local_notes local.now)) }
{
    match local.commits.items().split_first() {
        Some((first, after)) => {
            items.push(first_note(alloc, &local.entry, local.number, local.block, first)?)?;
            push_committed(alloc, items, &local.entry.name, after)?;
            Ok(())
        }
        None => Ok(()),
    }
}

fn push_locals(alloc: Global, items: &mut Vec<Vec<u8>>, locals: &[Local]) -> Result<(), AllocError>
    requires { notes_size (flat_map local_notes locals.now) < 2 ^ 32 }
    ensures { OnOk result (items_of items.new.items
        ≡ items_of items.old.items ++ map note_text (flat_map local_notes locals.now)) }
{
    let mut rest = locals;
    while let Some((local, after)) = rest.split_first() {
        push_local(alloc, items, local)?;
        rest = after;
    }
    Ok(())
}

/// The bytes of the fewest notes that come to what is kept: the client's id, the databases ascending by name, each
/// with
/// its commits, and the pending publication.
pub fn kept_items(alloc: Global, kept: &Kept) -> Result<Vec<Vec<u8>>, AllocError>
    requires { notes_size (kept_notes kept.now) < 2 ^ 32 }
    ensures { IfOk result (λ v. items_of v.items ≡ map note_text (kept_notes kept.now)) }
{
    let mut items = Vec::new(alloc);
    push_me(alloc, &mut items, &kept.me)?;
    push_locals(alloc, &mut items, kept.locals.items())?;
    push_intent(alloc, &mut items, &kept.pending)?;
    Ok(items)
}
