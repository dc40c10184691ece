// A log that is mostly dead is written anew.
ghost use Rattle.std.specs.Prelude.{◌≡◌, ◌⊎◌, ◌↔◌, ◌<◌, ◌≤◌, ◌+◌, ◌-◌, ◌*◌, ◌^◌, IsTrue, true, false, min};
ghost use Rattle.bcv_journal.specs.Parts.{is_closed, start_at, tail_at};
ghost use Rattle.bcv_notes.specs.KeptBy.{items_of};
ghost use Rattle.bcv_notes.specs.KeptNotes.{items_size, kept_notes, notes_size};
ghost use Rattle.bcv_clientlog.specs.AddedNote.{JournalCompacts};
ghost use Rattle.bcv_clientlog.specs.Compaction.{Compacts};

use bcv_disk::Disk;
use bcv_journal::{Journal, Noted};
use bcv_model::Kept;
use bcv_notes::{kept_items, kept_size};
use std::alloc::Global;

/// The longest log that is never written anew, in bytes of its notes.
const FREE: u64 = 65_536;

/// Whether notes from `start` to `tail` give way to others of `size` bytes, before a note of `more` bytes.
fn frees(start: u64, tail: u64, size: u64, more: u64) -> bool
    requires order { start ≤ tail }
    requires short { tail < 2 ^ 31 }
    ensures { IsTrue result ↔ Compacts start tail size more }
{
    let area = tail - start;
    let most: u64 = 1 << 31;
    if area <= FREE || size >= area || 2 * (size + 1) > area {
        return false;
    }
    18 + size <= start || (more <= most && tail + 71 + size + more <= most)
}

/// How many bytes items take in a file, or 2^64 - 1 where they are more.
pub fn items_size(items: &[Vec<u8>]) -> u64
    ensures { result ≡ min (items_size (items_of items.now)) (2 ^ 64 - 1) }
{
    let mut size = 0u64;
    let mut rest = items;
    while let Some((item, after)) = rest.split_first() {
        size = size.saturating_add(5).saturating_add(item.len() as u64);
        rest = after;
    }
    size
}

/// Whether a log is long and more than half of it stays, where that is known or shows now. So it remains while only
/// notes
/// are added that stay.
pub fn is_dense<D: Disk>(journal: &Journal<D>, kept: &Kept, known: bool) -> bool
    ensures { IsTrue result → (known ≡ true)
        ⊎ (tail_at journal.now - start_at journal.now < 2 * (notes_size (kept_notes kept.now) + 1)) }
{
    if known {
        return true;
    }
    let (start, tail) = journal.span();
    let area = tail - start;
    area > FREE && area / 2 <= kept_size(kept)
}

/// Writes a log anew, as the fewest notes that come to what is kept, where that frees more than half of a long one,
/// which it never does where the log is `dense`. `more` is the length of the note to come, in bytes. It is `Done`
/// where
/// nothing is to do, too.
pub fn compact<D: Disk>(
    alloc: Global,
    journal: &mut Journal<D>,
    kept: &Kept,
    dense: bool,
    more: u64,
) -> Noted
    requires { is_closed journal.old ≡ false }
    ensures { JournalCompacts D.told D.shown journal.old journal.new kept.now dense more result }
{
    let (start, tail) = journal.span();
    if dense {
        return Noted::Done;
    }
    if !frees(start, tail, kept_size(kept), more) {
        return Noted::Done;
    }
    let Ok(items) = kept_items(alloc, kept) else {
        return Noted::NoMemory;
    };
    // `kept` is the caller's word, so the items are measured before they take the place of all
    if !frees(start, tail, items_size(&items), more) {
        return Noted::Done;
    }
    journal.restart(alloc, &items)
}
