//! Copies of what has memory of its own.
ghost use Rattle.std.specs.Prelude.{◌≡◌, IfOk, map};
ghost use Rattle.bcv_base.specs.declared.manifest.DbEntry.{DbEntry};
ghost use Rattle.bcv_databases.specs.Changes.{known_in};

use crate::known::Known;
use bcv_base::{DbEntry, Manifest, Seq};
use bcv_model::Commit;
use std::alloc::{AllocError, Global};

fn copy_pages(alloc: Global, pages: &[(u32, Seq<u8>)]) -> Result<Vec<(u32, Seq<u8>)>, AllocError>
    ensures { IfOk result (λ v. v.items ≡ pages.now) }
{
    let mut copies = Vec::with_capacity(alloc, pages.len())?;
    for (number, bytes) in pages {
        copies.push((*number, Seq::of(Vec::from_slice(alloc, bytes.items())?)))?;
    }
    Ok(copies)
}

/// The commit once more.
pub(crate) fn copy_commit(alloc: Global, commit: &Commit) -> Result<Commit, AllocError>
    ensures { IfOk result (λ c. c ≡ commit.now) }
{
    Ok(Commit {
        size: commit.size,
        pages: Seq::of(copy_pages(alloc, commit.pages.items())?),
    })
}

/// A database of a manifest, of this number and with blocks of this size.
fn known_of(alloc: Global, entry: &DbEntry, number: u64, block: u32) -> Result<Known, AllocError>
    ensures { IfOk result (λ k. k ≡ record { entry = entry.now; number = number; block = block }) }
{
    Ok(Known {
        entry: DbEntry {
            name: entry.name,
            tag: entry.tag,
            page_size: entry.page_size,
            pages: entry.pages,
            blocks: Seq::of(Vec::from_slice(alloc, entry.blocks.items())?),
        },
        number,
        block,
    })
}

/// The databases of a manifest, for [`Databases::polled`](crate::Databases::polled): a copy of each entry.
pub fn known_in(alloc: Global, manifest: &Manifest) -> Result<Vec<Known>, AllocError>
    ensures { IfOk result (λ found. found.items ≡ known_in manifest.now) }
{
    let mut found = Vec::with_capacity(alloc, manifest.dbs.items().len())?;
    for entry in manifest.dbs.items() {
        found.push(known_of(alloc, entry, manifest.number, manifest.block)?)?;
    }
    Ok(found)
}
