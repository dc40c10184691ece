//! The parts of notes: entries, commits and uploads.

ghost use Rattle.std.specs.Prelude.{◌≡◌, ◌&&◌, true, None, Some, nat_lt, nat_le};
ghost use Rattle.std.specs.Int.{w32};
ghost use Rattle.std.specs.Option.{option_map};
ghost use Rattle.bcv_base.specs.ManifestGrammar.{such, number_at, entry_at};
ghost use Rattle.bcv_base.specs.ManifestRules.{is_block_size, blocks_needed};
ghost use Rattle.bcv_notes.specs.NoteGrammar.{front, page_at, pages_at, commit_at, is_upload_of, may_upload, uploading_at, flagged, upload_at};
ghost use Rattle.bcv_notes.specs.Reading.{Yields};

use crate::fields::{block_size_of, byte_of, bytes_of, u32_of, u64_of};
use crate::locals::local_of;
use crate::stop::Stop;
use bcv_base::{DbEntry, Seq};
use bcv_manifest::{ReadFault, read_entry};
use bcv_model::{Commit, Kept, Local, Uploading};
use std::alloc::Global;

const MOST_BLOCKS: u64 = 65_536;

/// A database's entry, over blocks of a size.
pub(crate) fn entry_of(alloc: Global, block: u32, bytes: &[u8]) -> Result<(DbEntry, &[u8]), Stop>
    requires { is_block_size block ≡ true }
    ensures { Yields (λ x. (x.0, x.1.now)) result (front (entry_at block None bytes.now)) }
{
    match read_entry(alloc, block, bytes) {
        Ok((entry, taken)) => {
            let (_, rest) = bytes.split_at(taken);
            Ok((entry, rest))
        }
        Err(ReadFault::Bad(_)) => Err(Stop::NoNote),
        Err(ReadFault::NoMemory) => Err(Stop::NoMemory),
    }
}

// A page's number: above the one before it, and at most the size.
fn page_number_of(before: u32, most: u32, bytes: &[u8]) -> Result<(u32, &[u8]), Stop>
    ensures { Yields (λ x. (x.0, x.1.now)) result
        (front (such (number_at w32) (λ n. nat_lt before n && nat_le n most) bytes.now)) }
{
    let (number, rest) = u32_of(bytes)?;
    if number <= before || number > most {
        return Err(Stop::NoNote);
    }
    Ok((number, rest))
}

// A page after its number.
fn page_of(
    alloc: Global,
    page_size: u32,
    most: u32,
    before: u32,
    bytes: &[u8],
) -> Result<((u32, Seq<u8>), &[u8]), Stop>
    ensures { Yields (λ x. (x.0, x.1.now)) result (page_at page_size most before bytes.now) }
{
    let (number, rest) = page_number_of(before, most, bytes)?;
    let (page, rest) = bytes_of(page_size as usize, rest)?;
    let page = page.to_vec(alloc)?;
    Ok(((number, Seq::of(page)), rest))
}

// So many pages.
fn pages_of(
    alloc: Global,
    page_size: u32,
    most: u32,
    count: u32,
    bytes: &[u8],
) -> Result<(Vec<(u32, Seq<u8>)>, &[u8]), Stop>
    ensures { Yields (λ x. (x.0.items, x.1.now)) result
        (pages_at page_size most count 0 bytes.now) }
{
    let mut pages = Vec::new(alloc);
    let mut rest = bytes;
    let mut before = 0;
    for _ in 0..count {
        let (page, after) = match page_of(alloc, page_size, most, before, rest) {
            Ok(field) => field,
            Err(stop) => return Err(stop),
        };
        before = page.0;
        pages.push(page)?;
        rest = after;
    }
    Ok((pages, rest))
}

// How many blocks of a size hold so many pages; none of size 0.
fn blocks_needed(block: u32, page_size: u32, pages: u32) -> u64
    ensures { result ≡ blocks_needed block page_size pages }
{
    let bytes = pages as u64 * page_size as u64 + (block as u64).saturating_sub(1);
    bytes.checked_div(block as u64).unwrap_or(0)
}

// A commit's size in pages.
fn size_of(block: u32, page_size: u32, bytes: &[u8]) -> Result<(u32, &[u8]), Stop>
    ensures { Yields (λ x. (x.0, x.1.now)) result
        (front (such (number_at w32) (λ n. nat_le (blocks_needed block page_size n) 65536)
        bytes.now)) }
{
    let (size, rest) = u32_of(bytes)?;
    if blocks_needed(block, page_size, size) > MOST_BLOCKS {
        return Err(Stop::NoNote);
    }
    Ok((size, rest))
}

/// A commit of a database with blocks and pages of these sizes.
#[tactic(auto, unfolding(crate::specs::NoteGrammar::commit_at))]
pub(crate) fn commit_of(
    alloc: Global,
    block: u32,
    page_size: u32,
    bytes: &[u8],
) -> Result<(Commit, &[u8]), Stop>
    ensures { Yields (λ x. (x.0, x.1.now)) result (commit_at block page_size bytes.now) }
{
    let (size, rest) = size_of(block, page_size, bytes)?;
    let (count, rest) = u32_of(rest)?;
    let (pages, rest) = pages_of(alloc, page_size, size, count, rest)?;
    let pages = Seq::of(pages);
    Ok((Commit { size, pages }, rest))
}

fn is_upload_of(local: &Local, upload: &Uploading) -> bool
    ensures { result ≡ is_upload_of (Some local.now) upload.now }
{
    1 <= upload.count
        && upload.count <= local.commits.items().len() as u64
        && upload.block == local.block
        && upload.entry.page_size == local.entry.page_size
}

fn may_upload(kept: &Kept, upload: &Uploading) -> bool
    ensures { result ≡ may_upload kept.now upload.now }
{
    match local_of(kept.locals.items(), &upload.entry.name) {
        Some(local) => is_upload_of(local, upload),
        None => false,
    }
}

// An upload that may stand.
#[tactic(auto, unfolding(crate::specs::NoteGrammar::uploading_at))]
fn uploading_of<'a>(
    alloc: Global,
    kept: &Kept,
    bytes: &'a [u8],
) -> Result<(Option<Uploading>, &'a [u8]), Stop>
    ensures { Yields (λ x. (x.0, x.1.now)) result (uploading_at kept.now bytes.now) }
{
    let (count, rest) = u64_of(bytes)?;
    let (block, rest) = block_size_of(rest)?;
    let (entry, rest) = match entry_of(alloc, block, rest) {
        Ok(field) => field,
        Err(stop) => return Err(stop),
    };
    let upload = Uploading {
        count,
        block,
        entry,
    };
    if !may_upload(kept, &upload) {
        return Err(Stop::NoNote);
    }
    Ok((Some(upload), rest))
}

/// An upload that may stand, or none, by the flag before it.
#[tactic(auto, unfolding(crate::specs::NoteGrammar::upload_at))]
pub(crate) fn upload_of<'a>(
    alloc: Global,
    kept: &Kept,
    bytes: &'a [u8],
) -> Result<(Option<Uploading>, &'a [u8]), Stop>
    ensures { Yields (λ x. (x.0, x.1.now)) result (upload_at kept.now bytes.now) }
{
    let (flag, rest) = byte_of(bytes)?;
    if flag == 0 {
        return Ok((None, rest));
    }
    if flag == 1 {
        return uploading_of(alloc, kept, rest);
    }
    Err(Stop::NoNote)
}
