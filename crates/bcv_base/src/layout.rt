ghost use Rattle.std.specs.Prelude.{◌≡◌, ◌-◌, ◌*◌, ◌^◌, min};
ghost use Rattle.bcv_base.specs.ManifestRules.{manifest_length, entry_length, total_length};

use crate::manifest::{DbEntry, Manifest};

/// How many bytes a manifest takes as it is written; 2^64 - 1 where it would take more.
pub fn manifest_len(manifest: &Manifest) -> u64
    ensures { result ≡ min (manifest_length manifest.now) (2 ^ 64 - 1) }
{
    let writers = items_len(manifest.writers.items().len(), 40);
    let dbs = entries_len(manifest.dbs.items());
    let dead = items_len(manifest.dead.items().len(), 24);
    64_u64
        .saturating_add(writers)
        .saturating_add(dbs)
        .saturating_add(dead)
}

// The bytes of so many items of one size.
fn items_len(count: usize, size: u64) -> u64
    ensures { result ≡ min (count * size) (2 ^ 64 - 1) }
{
    (count as u64).saturating_mul(size)
}

// The bytes of a database's entry.
fn entry_len(entry: &DbEntry) -> u64
    ensures { result ≡ min (entry_length entry.now) (2 ^ 64 - 1) }
{
    let name = entry.name.text().len();
    let blocks = items_len(entry.blocks.items().len(), 16);
    25_u64.saturating_add(name as u64).saturating_add(blocks)
}

// The bytes of all entries.
fn entries_len(entries: &[DbEntry]) -> u64
    ensures { result ≡ min (total_length entries.now) (2 ^ 64 - 1) }
{
    let mut total: u64 = 0;
    for entry in entries {
        total = total.saturating_add(entry_len(entry));
    }
    total
}
