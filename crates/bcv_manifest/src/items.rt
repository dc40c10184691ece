//! Lists of fields.

ghost use Rattle.std.specs.Prelude.{◌≡◌, ◌≤◌, ◌&&◌, length, Ok, None, nat_le, IfSome, IsSorted};
ghost use Rattle.std.specs.Int.{w32};
ghost use Rattle.std.specs.Option.{option_map};
ghost use Rattle.std.specs.Ordering.{nat_cmp};
ghost use Rattle.std.specs.Cmp.Lexicographic.{slice_cmp};
ghost use Rattle.bcv_base.specs.Ids.{has_id};
ghost use Rattle.bcv_base.specs.ManifestGrammar.{such, id_at, number_at, items_at, is_above, writer_at, entry_at, dead_at};
ghost use Rattle.bcv_base.specs.ManifestRules.{writer_id, db_name, dead_id, lists, is_page_size, blocks_needed};
ghost use Rattle.bcv_base.specs.ManifestText.{id_text};
ghost use Rattle.bcv_base.specs.SizeLimits.{most_blocks};
ghost use Rattle.bcv_manifest.specs.Reading.{Gives};

use crate::blocks::{listed_blocks, lists_dead};
use crate::fault::Stop;
use crate::fields::{id_of, name_len_of, name_of, number_of, u32_of, u64_of};
use crate::rules::is_id_above;
use bcv_base::limits::MOST_BLOCKS;
use bcv_base::{DbEntry, DbName, Dead, Id16, Seq, Writer, blocks_needed, is_one_of, is_page_size};
use std::alloc::Global;

// How many items to make room for: as many as are told, and no more than the bytes can hold.
fn room(count: usize, bytes: &[u8], size: usize) -> usize
    requires { 1 ≤ size }
{
    count.min(bytes.len() / size)
}

fn id_above_of(before: Option<Id16>, bytes: &[u8]) -> Result<(Id16, &[u8]), Stop>
    ensures { Gives (λ x. (x.0, x.1.now)) result (such id_at
        (λ i. is_above (option_map (λ b. b.0) before) i.0) bytes.now) }
{
    let (id, rest) = id_of(bytes)?;
    if !is_id_above(before, &id) {
        return Err(Stop::at(bytes));
    }
    Ok((id, rest))
}

#[tactic(auto, unfolding(bcv_base::specs::ManifestGrammar::writer_at))]
fn writer_of(most: u64, before: Option<Id16>, bytes: &[u8]) -> Result<(Writer, &[u8]), Stop>
    ensures { Gives (λ x. (x.0, x.1.now)) result (writer_at most
        (option_map (λ b. b.0) before) bytes.now) }
{
    let (id, rest) = id_above_of(before, bytes)?;
    let (last, rest) = id_of(rest)?;
    let (number, rest) = number_of(most, rest)?;
    Ok((Writer { id, last, number }, rest))
}

pub(crate) fn writers_of(
    alloc: Global,
    most: u64,
    count: u32,
    bytes: &[u8],
) -> Result<(Vec<Writer>, &[u8]), Stop>
    ensures { Gives (λ x. (x.0.items, x.1.now)) result
        (items_at writer_id (writer_at most) count None bytes.now) }
{
    let mut writers = Vec::with_capacity(alloc, room(count as usize, bytes, 40))?;
    let mut rest = bytes;
    let mut before = None;
    for _ in 0..count {
        let (writer, after) = writer_of(most, before, rest)?;
        writers.push(writer)?;
        before = Some(writer.id);
        rest = after;
    }
    Ok((writers, rest))
}

fn ids_of(alloc: Global, count: usize, bytes: &[u8]) -> Result<(Vec<Id16>, &[u8]), Stop>
    ensures { Gives (λ x. (x.0.items, x.1.now)) result
        (items_at id_text (λ _. id_at) count None bytes.now) }
{
    let mut ids = Vec::with_capacity(alloc, room(count, bytes, 16))?;
    let mut rest = bytes;
    for _ in 0..count {
        let (id, after) = id_of(rest)?;
        ids.push(id)?;
        rest = after;
    }
    Ok((ids, rest))
}

// The size of a database's pages.
fn page_size_of(block: u32, bytes: &[u8]) -> Result<(u32, &[u8]), Stop>
    ensures { Gives (λ x. (x.0, x.1.now)) result (such (number_at w32)
        (is_page_size block) bytes.now) }
{
    let (size, rest) = u32_of(bytes)?;
    if !is_page_size(block, size) {
        return Err(Stop::at(bytes));
    }
    Ok((size, rest))
}

// How many pages a database has.
fn pages_of(block: u32, page_size: u32, bytes: &[u8]) -> Result<(u32, &[u8]), Stop>
    requires { 1 ≤ block }
    ensures { Gives (λ x. (x.0, x.1.now)) result (such (number_at w32)
        (λ n. nat_le (blocks_needed block page_size n) most_blocks) bytes.now) }
{
    let (pages, rest) = u32_of(bytes)?;
    if blocks_needed(block, page_size, pages) > u64::from(MOST_BLOCKS) {
        return Err(Stop::at(bytes));
    }
    Ok((pages, rest))
}

#[tactic(auto, unfolding(bcv_base::specs::ManifestGrammar::entry_at))]
pub(crate) fn entry_of(
    alloc: Global,
    block: u32,
    before: Option<DbName>,
    bytes: &[u8],
) -> Result<(DbEntry, &[u8]), Stop>
    requires { 1 ≤ block }
    ensures { Gives (λ x. (x.0, x.1.now)) result (entry_at block before bytes.now) }
{
    let (len, rest) = name_len_of(bytes)?;
    let (name, rest) = match name_of(len, before, rest) {
        Ok(field) => field,
        Err(stop) => return Err(stop),
    };
    let (tag, rest) = id_of(rest)?;
    let (page_size, rest) = page_size_of(block, rest)?;
    let (pages, rest) = pages_of(block, page_size, rest)?;
    let count = blocks_needed(block, page_size, pages);
    let (blocks, rest) = ids_of(alloc, count as usize, rest)?;
    Ok((
        DbEntry {
            name,
            tag,
            page_size,
            pages,
            blocks: Seq::of(blocks),
        },
        rest,
    ))
}

pub(crate) fn entries_of(
    alloc: Global,
    block: u32,
    count: u32,
    bytes: &[u8],
) -> Result<(Vec<DbEntry>, &[u8]), Stop>
    requires { 1 ≤ block }
    ensures { Gives (λ x. (x.0.items, x.1.now)) result
        (items_at db_name (entry_at block) count None bytes.now) }
{
    let mut dbs = Vec::with_capacity(alloc, room(count as usize, bytes, 26))?;
    let mut rest = bytes;
    let mut before = None;
    for _ in 0..count {
        let (db, after) = match entry_of(alloc, block, before, rest) {
            Ok(field) => field,
            Err(stop) => return Err(stop),
        };
        before = Some(db.name);
        dbs.push(db)?;
        rest = after;
    }
    Ok((dbs, rest))
}

#[tactic(auto, unfolding(bcv_base::specs::ManifestGrammar::dead_at))]
fn dead_of<'a>(
    listed: &[Id16],
    before: Option<Id16>,
    bytes: &'a [u8],
) -> Result<(Dead, &'a [u8]), Stop>
    requires { IsSorted (λ a b. slice_cmp nat_cmp a.0 b.0) listed.now }
    ensures { Gives (λ x. (x.0, x.1.now)) result (dead_at (λ i. has_id i listed.now)
        (option_map (λ b. b.0) before) bytes.now) }
{
    let (id, rest) = id_above_of(before, bytes)?;
    if is_one_of(listed, &id) {
        return Err(Stop::at(bytes));
    }
    let (stamp, rest) = u64_of(rest)?;
    Ok((Dead { id, stamp }, rest))
}

fn dead_list_of<'a>(
    alloc: Global,
    listed: &[Id16],
    count: u32,
    bytes: &'a [u8],
) -> Result<(Vec<Dead>, &'a [u8]), Stop>
    requires { IsSorted (λ a b. slice_cmp nat_cmp a.0 b.0) listed.now }
    ensures { Gives (λ x. (x.0.items, x.1.now)) result
        (items_at dead_id (dead_at (λ i. has_id i listed.now)) count None bytes.now) }
{
    let mut dead = Vec::with_capacity(alloc, room(count as usize, bytes, 24))?;
    let mut rest = bytes;
    let mut before = None;
    for _ in 0..count {
        let (entry, after) = dead_of(listed, before, rest)?;
        dead.push(entry)?;
        before = Some(entry.id);
        rest = after;
    }
    Ok((dead, rest))
}

// So many dead blocks, none of them listed by a database; none where a field is at fault, or memory ran out.
fn right_dead_blocks_of<'a>(
    alloc: Global,
    dbs: &[DbEntry],
    count: u32,
    bytes: &'a [u8],
) -> Option<(Vec<Dead>, &'a [u8])>
    ensures { IfSome result (λ x. items_at dead_id (dead_at (lists dbs.now)) count None bytes.now
        ≡ Ok (x.0.items, x.1.now)) }
{
    let Ok((dead, rest)) = dead_list_of(alloc, &[], count, bytes) else {
        return None;
    };
    match lists_dead(alloc, dbs, &dead) {
        Ok(false) => Some((dead, rest)),
        _ => None,
    }
}

/// So many dead blocks, none of them listed by a database.
pub(crate) fn dead_blocks_of<'a>(
    alloc: Global,
    dbs: &[DbEntry],
    count: u32,
    bytes: &'a [u8],
) -> Result<(Vec<Dead>, &'a [u8]), Stop>
    ensures { Gives (λ x. (x.0.items, x.1.now)) result
        (items_at dead_id (dead_at (lists dbs.now)) count None bytes.now) }
{
    if let Some(list) = right_dead_blocks_of(alloc, dbs, count, bytes) {
        return Ok(list);
    }
    // The first field at fault is found by asking of each dead block, in its turn, whether it is listed.
    let listed = listed_blocks(alloc, dbs)?;
    dead_list_of(alloc, &listed, count, bytes)
}
