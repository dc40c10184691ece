//! Notes as they are written.

ghost use Rattle.std.specs.Prelude.{◌≡◌, ◌<◌, ◌^◌, ◌++◌, ◌∷◌, [], List, ℕ, take, length, OnOk, OnErr, IfOk};
ghost use Rattle.std.specs.Int.{w32, w64, to_be_bytes};
ghost use Rattle.std.specs.List.{flat_map};
ghost use Rattle.bcv_model.specs.Notes.{numbered_page, commit_text, name_field, upload_text, note_text};
ghost use Rattle.bcv_base.specs.ManifestText.{entry_text};
ghost use Rattle.bcv_model.specs.declared.note.Note.TheVariants.{Me, First, Committed, Intent, Done, Void, Revert};

use bcv_base::{DbEntry, DbName, Id16, Seq};
use bcv_manifest::write_entry;
use bcv_model::{Commit, PendingPub, Uploading};
use std::alloc::{AllocError, Global};

fn put_u32(out: &mut Vec<u8>, number: u32) -> Result<(), AllocError>
    ensures { OnOk result (out.new.items ≡ out.old.items ++ to_be_bytes w32 number) }
{
    out.extend_from_slice(&number.to_be_bytes())
}

fn put_u64(out: &mut Vec<u8>, number: u64) -> Result<(), AllocError>
    ensures { OnOk result (out.new.items ≡ out.old.items ++ to_be_bytes w64 number) }
{
    out.extend_from_slice(&number.to_be_bytes())
}

fn put_id(out: &mut Vec<u8>, id: &Id16) -> Result<(), AllocError>
    ensures { OnOk result (out.new.items ≡ out.old.items ++ id.now.0) }
{
    out.extend_from_slice(id.bytes())
}

fn put_name(out: &mut Vec<u8>, name: &DbName) -> Result<(), AllocError>
    ensures { OnOk result (out.new.items ≡ out.old.items ++ name_field name.now) }
{
    let text = name.text();
    out.push(text.len() as u8)?;
    out.extend_from_slice(text)
}

fn put_page(out: &mut Vec<u8>, page: &(u32, Seq<u8>)) -> Result<(), AllocError>
    ensures { OnOk result (out.new.items ≡ out.old.items ++ numbered_page page.now) }
{
    put_u32(out, page.0)?;
    out.extend_from_slice(page.1.items())
}

fn put_pages(out: &mut Vec<u8>, pages: &[(u32, Seq<u8>)]) -> Result<(), AllocError>
    ensures { OnOk result (out.new.items ≡ out.old.items ++ flat_map numbered_page pages.now) }
{
    for page in pages {
        put_page(out, page)?;
    }
    Ok(())
}

fn put_commit(out: &mut Vec<u8>, commit: &Commit) -> Result<(), AllocError>
    requires { length commit.now.pages < 2 ^ 32 }
    ensures { OnOk result (out.new.items ≡ out.old.items ++ commit_text commit.now) }
{
    let pages = commit.pages.items();
    put_u32(out, commit.size)?;
    put_u32(out, pages.len() as u32)?;
    put_pages(out, pages)
}

fn put_upload(alloc: Global, out: &mut Vec<u8>, upload: &Uploading) -> Result<(), AllocError>
    ensures { OnOk result (out.new.items ≡ out.old.items
        ++ (1 ∷ (to_be_bytes w64 upload.now.count ++ (to_be_bytes w32 upload.now.block
        ++ entry_text upload.now.entry)))) }
{
    out.push(1)?;
    put_u64(out, upload.count)?;
    put_u32(out, upload.block)?;
    write_entry(alloc, &upload.entry, out)?;
    Ok(())
}

/// The bytes of the note Me.
pub fn me_note(alloc: Global, id: &Id16) -> Result<Vec<u8>, AllocError>
    ensures { IfOk result (λ v. v.items ≡ note_text (Me id.now)) }
{
    let mut out = Vec::with_capacity(alloc, 17)?;
    out.push(1)?;
    put_id(&mut out, id)?;
    Ok(out)
}

/// The bytes of the note First.
pub fn first_note(
    alloc: Global,
    entry: &DbEntry,
    number: u64,
    block: u32,
    commit: &Commit,
) -> Result<Vec<u8>, AllocError>
    requires { length commit.now.pages < 2 ^ 32 }
    ensures { IfOk result (λ v. v.items ≡ note_text (First entry.now number block commit.now)) }
{
    let mut out = Vec::new(alloc);
    out.push(2)?;
    put_u32(&mut out, block)?;
    put_u64(&mut out, number)?;
    write_entry(alloc, entry, &mut out)?;
    put_commit(&mut out, commit)?;
    Ok(out)
}

/// The bytes of the note Committed.
pub fn committed_note(alloc: Global, db: &DbName, commit: &Commit) -> Result<Vec<u8>, AllocError>
    requires { length commit.now.pages < 2 ^ 32 }
    ensures { IfOk result (λ v. v.items ≡ note_text (Committed db.now commit.now)) }
{
    let mut out = Vec::new(alloc);
    out.push(3)?;
    put_name(&mut out, db)?;
    put_commit(&mut out, commit)?;
    Ok(out)
}

/// The bytes of the note Intent.
pub fn intent_note(alloc: Global, pending: &PendingPub) -> Result<Vec<u8>, AllocError>
    ensures { IfOk result (λ v. v.items ≡ note_text (Intent pending.now)) }
{
    let mut out = Vec::new(alloc);
    out.push(4)?;
    put_id(&mut out, &pending.id)?;
    match &pending.upload {
        None => out.push(0)?,
        Some(upload) => put_upload(alloc, &mut out, upload)?,
    }
    Ok(out)
}

/// The bytes of the note Done.
pub fn done_note(alloc: Global, id: &Id16, number: u64) -> Result<Vec<u8>, AllocError>
    ensures { IfOk result (λ v. v.items ≡ note_text (Done id.now number)) }
{
    let mut out = Vec::with_capacity(alloc, 25)?;
    out.push(5)?;
    put_id(&mut out, id)?;
    put_u64(&mut out, number)?;
    Ok(out)
}

/// The bytes of the note Void.
pub fn void_note(alloc: Global, id: &Id16) -> Result<Vec<u8>, AllocError>
    ensures { IfOk result (λ v. v.items ≡ note_text (Void id.now)) }
{
    let mut out = Vec::with_capacity(alloc, 17)?;
    out.push(6)?;
    put_id(&mut out, id)?;
    Ok(out)
}

/// The bytes of the note Revert.
pub fn revert_note(alloc: Global, db: &DbName) -> Result<Vec<u8>, AllocError>
    ensures { IfOk result (λ v. v.items ≡ note_text (Revert db.now)) }
{
    let mut out = Vec::new(alloc);
    out.push(7)?;
    put_name(&mut out, db)?;
    Ok(out)
}
