ghost use Rattle.std.specs.Prelude.{◌≡◌, ◌↔◌, ◌+◌, ◌<◌, ◌≤◌, ◌^◌, IsTrue, drop, length};
ghost use Rattle.bcv_model.specs.NoteRules.{HasRoom};
ghost use Rattle.bcv_notes.specs.KeptBy.{items_of};
ghost use Rattle.bcv_notes.specs.KeptNotes.{items_size};

use crate::ClientLog;
use crate::compaction::items_size;
use bcv_disk::Disk;
use bcv_journal::{Journal, JournalFault, Load};
use bcv_model::Kept;
use bcv_notes::{Fold, keep_all};
use std::alloc::Global;

/// The greatest tail after which a client's id and a whole publication have room.
const ROOM_TO_BEGIN: u64 = (1 << 31) - 87;

/// The greatest tail after which the end of a publication has room.
const ROOM_TO_END: u64 = (1 << 31) - 65;

/// What a load gives: the log and what its notes come to, or the disk back.
#[derive(Drop)]
pub enum LogLoad<D: Disk> {
    Ready(ClientLog<D>, Kept),
    Refused(D, JournalFault),
}

/// The place of the gate of an item in front of which so many stand, where the items end at `tail`.
fn place_of(tail: u64, items: &[Vec<u8>], number: usize) -> u64
    requires number { number ≤ length items.now }
    requires within { items_size (items_of items.now) ≤ tail }
    ensures { result + items_size (drop number (items_of items.now)) ≡ tail }
{
    tail - items_size(&items[number..])
}

/// Whether what is kept has the room that it needs after a tail.
fn has_room(kept: &Kept, tail: u64) -> bool
    ensures { IsTrue result ↔ HasRoom kept.now tail }
{
    (kept.me.is_some() || tail <= ROOM_TO_BEGIN) && (kept.pending.is_none() || tail <= ROOM_TO_END)
}

impl<D: Disk> ClientLog<D> {
    ghost use Rattle.bcv_clientlog.specs.LogLoads.{LogLoads};

    /// Loads the log of a disk, with what its notes come to.
    ///
    /// An item that is no note or may not stand where it stands is refused with the place of its gate, and notes that
    /// break a rule on the tail with the tail.
    pub fn load(alloc: Global, disk: D) -> LogLoad<D>
        ensures { LogLoads D.told D.shown disk result }
    {
        let (journal, items) = match Journal::load(alloc, disk) {
            Load::Ready(journal, items) => (journal, items),
            Load::Refused(disk, fault) => return LogLoad::Refused(disk, fault),
        };
        let (_, tail) = journal.span();
        let kept = match keep_all(alloc, &items) {
            Ok(Fold::Kept(kept)) => kept,
            Ok(Fold::Stops(number)) => {
                let place = place_of(tail, &items, number);
                return LogLoad::Refused(journal.down(), JournalFault::NotJournal(place));
            }
            Err(_) => return LogLoad::Refused(journal.down(), JournalFault::NoMemory),
        };
        if !has_room(&kept, tail) {
            return LogLoad::Refused(journal.down(), JournalFault::NotJournal(tail));
        }
        let pending = kept.pending.is_some();
        let log = ClientLog {
            journal,
            pending,
            dense: false,
        };
        LogLoad::Ready(log, kept)
    }
}
