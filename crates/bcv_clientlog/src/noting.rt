// The text of a note is added to a journal.
ghost use Rattle.std.specs.Prelude.{◌≡◌, ◌<◌, ◌≤◌, ◌^◌, IfOk, length, if◌then◌else◌};
ghost use Rattle.bcv_clientlog.specs.AddedNote.{AddsText, CompactsText};

use crate::compaction::compact;
use bcv_disk::Disk;
use bcv_journal::{Journal, Noted};
use bcv_model::Kept;
use std::alloc::{AllocError, Global};

/// What stays free after each note but the end of a publication, in bytes.
pub const SPARE: u64 = 64;

/// Adds a text, where there was memory for it, and leaves so many bytes free.
pub fn add<D: Disk>(
    alloc: Global,
    journal: &mut Journal<D>,
    text: Result<Vec<u8>, AllocError>,
    spare: u64,
) -> Noted
    requires some { IfOk text (λ v. 0 < length v.items) }
    requires spare { spare ≤ 2 ^ 31 }
    ensures { AddsText D.told D.shown journal.old journal.new text spare result }
{
    match text {
        Ok(bytes) => journal.append(alloc, &bytes, spare),
        Err(_) => untried(journal.closed()),
    }
}

/// Adds a text, where there was memory for it, after a compaction where there is one; there is none where the log is
/// `dense`.
pub fn add_compactly<D: Disk>(
    alloc: Global,
    journal: &mut Journal<D>,
    kept: &Kept,
    dense: bool,
    text: Result<Vec<u8>, AllocError>,
) -> Noted
    requires some { IfOk text (λ v. 0 < length v.items) }
    ensures { CompactsText D.told D.shown journal.old journal.new kept.now dense text result }
{
    let bytes = match text {
        Ok(bytes) => bytes,
        Err(_) => return untried(journal.closed()),
    };
    if journal.closed() {
        return Noted::Closed;
    }
    match compact(alloc, journal, kept, dense, bytes.len() as u64) {
        Noted::Done => journal.append(alloc, &bytes, SPARE),
        Noted::DiskFault => Noted::DiskFault,
        Noted::NoMemory => Noted::NoMemory,
        Noted::JournalFull | Noted::Closed => unreachable!(),
    }
}

/// What is answered where there was no memory for a text.
fn untried(closed: bool) -> Noted
    ensures { result ≡ (if closed then Noted.Closed else Noted.NoMemory) }
{
    if closed {
        Noted::Closed
    } else {
        Noted::NoMemory
    }
}
