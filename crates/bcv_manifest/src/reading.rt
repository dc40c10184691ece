ghost use Rattle.std.specs.Prelude.{◌≡◌, ◌<◌, ◌≤◌, ◌++◌, ℕ, List, length, true, Ok, Err, IfOk};
ghost use Rattle.std.specs.Int.{w32};
ghost use Rattle.bcv_base.specs.declared.manifest.DbEntry.{DbEntry};
ghost use Rattle.bcv_base.specs.declared.manifest.Manifest.{Manifest};
ghost use Rattle.bcv_base.specs.ManifestGrammar.{such, number_at, counted_at, writer_at, entry_at, dead_at, manifest_at, whole_at, manifest_of, entry_of};
ghost use Rattle.bcv_base.specs.ManifestRules.{writer_id, db_name, dead_id, lists, MeetsRules, MeetsLimits, IsShort, MeetsEntryRules, is_block_size, entry_length};
ghost use Rattle.bcv_base.specs.SizeLimits.{most_writers, most_databases, most_dead};
ghost use Rattle.bcv_base.specs.ManifestText.{manifest_text, entry_text};
ghost use Rattle.bcv_manifest.specs.Reading.{Gives, Answers, fault_of};

use crate::fault::{Bad, ReadFault, Stop};
use crate::fields::{after_magic, count_of, id_of, u32_of, u64_of, version_of};
use crate::items::{dead_blocks_of, entries_of, entry_of, writers_of};
use bcv_base::limits::{MOST_BYTES, MOST_DATABASES, MOST_DEAD, MOST_WRITERS};
use bcv_base::{DbEntry, Dead, Manifest, Seq, Writer, is_block_size};
use std::alloc::Global;

fn block_size_of(bytes: &[u8]) -> Result<(u32, &[u8]), Stop>
    ensures { Gives (λ x. (x.0, x.1.now)) result (such (number_at w32) is_block_size bytes.now) }
{
    let (block, rest) = u32_of(bytes)?;
    if !is_block_size(block) {
        return Err(Stop::at(bytes));
    }
    Ok((block, rest))
}

#[tactic(auto, unfolding(bcv_base::specs::ManifestGrammar::counted_at))]
fn counted_writers(alloc: Global, most: u64, bytes: &[u8]) -> Result<(Vec<Writer>, &[u8]), Stop>
    ensures { Gives (λ x. (x.0.items, x.1.now)) result
        (counted_at most_writers writer_id (writer_at most) bytes.now) }
{
    let (count, rest) = count_of(MOST_WRITERS, bytes)?;
    writers_of(alloc, most, count, rest)
}

#[tactic(auto, unfolding(bcv_base::specs::ManifestGrammar::counted_at))]
fn counted_entries(alloc: Global, block: u32, bytes: &[u8]) -> Result<(Vec<DbEntry>, &[u8]), Stop>
    requires { 1 ≤ block }
    ensures { Gives (λ x. (x.0.items, x.1.now)) result
        (counted_at most_databases db_name (entry_at block) bytes.now) }
{
    let (count, rest) = count_of(MOST_DATABASES, bytes)?;
    entries_of(alloc, block, count, rest)
}

#[tactic(auto, unfolding(bcv_base::specs::ManifestGrammar::counted_at))]
fn counted_dead<'a>(
    alloc: Global,
    dbs: &[DbEntry],
    bytes: &'a [u8],
) -> Result<(Vec<Dead>, &'a [u8]), Stop>
    ensures { Gives (λ x. (x.0.items, x.1.now)) result
        (counted_at most_dead dead_id (dead_at (lists dbs.now)) bytes.now) }
{
    let (count, rest) = count_of(MOST_DEAD, bytes)?;
    dead_blocks_of(alloc, dbs, count, rest)
}

#[tactic(auto, unfolding(bcv_base::specs::ManifestGrammar::manifest_at, bcv_base::specs::ManifestGrammar::head_at, bcv_base::specs::ManifestGrammar::lists_at))]
fn manifest_of(alloc: Global, bytes: &[u8]) -> Result<(Manifest, &[u8]), Stop>
    ensures { Gives (λ x. (x.0, x.1.now)) result (manifest_at bytes.now) }
{
    let rest = after_magic(bytes)?;
    let (number, rest) = version_of(rest)?;
    let (moment, rest) = u64_of(rest)?;
    let (block, rest) = block_size_of(rest)?;
    let (retention, rest) = u64_of(rest)?;
    let (id, rest) = id_of(rest)?;
    let (writers, rest) = counted_writers(alloc, number, rest)?;
    let (dbs, rest) = match counted_entries(alloc, block, rest) {
        Ok(list) => list,
        Err(stop) => return Err(stop),
    };
    let (dead, rest) = counted_dead(alloc, &dbs, rest)?;
    let writers = Seq::of(writers);
    let dbs = Seq::of(dbs);
    let dead = Seq::of(dead);
    Ok((
        Manifest {
            number,
            moment,
            block,
            retention,
            id,
            writers,
            dbs,
            dead,
        },
        rest,
    ))
}

// The manifest that the bytes are, however long.
#[tactic(auto, unfolding(bcv_base::specs::ManifestGrammar::whole_at))]
fn whole(alloc: Global, bytes: &[u8]) -> Result<Manifest, Stop>
    ensures { Gives (λ m. m) result (whole_at bytes.now) }
{
    let (manifest, rest) = match manifest_of(alloc, bytes) {
        Ok(front) => front,
        Err(stop) => return Err(stop),
    };
    if !rest.is_empty() {
        return Err(Stop::at(rest));
    }
    Ok(manifest)
}

// What a stop in these bytes is answered with.
fn placed(bytes: &[u8], stop: Stop) -> ReadFault
    ensures { result ≡ fault_of (length bytes.now) stop }
{
    match stop {
        Stop::NoMemory => ReadFault::NoMemory,
        Stop::Fault(left) => ReadFault::Bad(Bad {
            at: bytes.len().saturating_sub(left) as u64,
        }),
    }
}

// The manifest that the bytes are, or the place of the fault.
#[tactic(auto, unfolding(bcv_base::specs::ManifestGrammar::manifest_of))]
fn answer(alloc: Global, bytes: &[u8]) -> Result<Manifest, ReadFault>
    ensures { Answers (λ x. x) result (manifest_of bytes.now) }
{
    if bytes.len() > MOST_BYTES as usize {
        return Err(ReadFault::Bad(Bad {
            at: u64::from(MOST_BYTES),
        }));
    }
    match whole(alloc, bytes) {
        Ok(manifest) => Ok(manifest),
        Err(stop) => Err(placed(bytes, stop)),
    }
}

// The entry at the front of the bytes, or the place of the fault.
#[tactic(auto, unfolding(bcv_base::specs::ManifestGrammar::entry_of))]
fn entry_answer(alloc: Global, block: u32, bytes: &[u8]) -> Result<(DbEntry, usize), ReadFault>
    requires { 1 ≤ block }
    ensures { Answers (λ x. x) result (entry_of block bytes.now) }
{
    match entry_of(alloc, block, None, bytes) {
        Ok((entry, rest)) => Ok((entry, bytes.len().saturating_sub(rest.len()))),
        Err(stop) => Err(placed(bytes, stop)),
    }
}

/// The manifest that the bytes are, all of them.
pub fn read_manifest(alloc: Global, bytes: &[u8]) -> Result<Manifest, ReadFault>
    // What is read meets the rules, and is spelled so.
    ensures found { IfOk result (λ m. MeetsRules m × MeetsLimits m
        × (bytes.now ≡ manifest_text m)) }
    // What meets the rules and is spelled so is read, unless memory runs out.
    ensures only { (m : Manifest) → MeetsRules m → MeetsLimits m → IsShort m
        → bytes.now ≡ manifest_text m → Answers (λ x. x) result (Ok m) }
    // Where the fault is.
    ensures exact { Answers (λ x. x) result (manifest_of bytes.now) }
{
    answer(alloc, bytes)
}

/// The database's entry at the front of the bytes, over blocks of a size, and how many bytes it took. What follows it
/// isn't looked at.
pub fn read_entry(alloc: Global, block: u32, bytes: &[u8]) -> Result<(DbEntry, usize), ReadFault>
    requires { is_block_size block ≡ true }
    // What is read meets the rules, and is spelled so.
    ensures found { IfOk result (λ x. MeetsEntryRules block x.0 × (x.1 ≡ entry_length x.0)
        × ((rest : List ℕ) × (bytes.now ≡ entry_text x.0 ++ rest))) }
    // What meets the rules and is spelled so is read, unless memory runs out.
    ensures only { (d : DbEntry) (rest : List ℕ) → MeetsEntryRules block d
        → bytes.now ≡ entry_text d ++ rest → Answers (λ x. x) result (Ok (d, entry_length d)) }
    // Where the fault is.
    ensures exact { Answers (λ x. x) result (entry_of block bytes.now) }
{
    entry_answer(alloc, block, bytes)
}
