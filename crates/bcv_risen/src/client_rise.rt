ghost use Rattle.std.specs.Prelude.{◌≡◌, ◌+◌, ◌≤◌, ◌^◌, false};
ghost use Rattle.bcv_clientlog.specs.LogParts.{is_shut, log_tail};
ghost use Rattle.bcv_model.specs.Notes.{nothing_kept};
ghost use Rattle.bcv_risen.specs.Naming.{IsUpWith, NamesClient};
ghost use Rattle.bcv_risen.specs.Rises.{Rises};
ghost use Rattle.bcv_risen.specs.RisenSides.{RisesAgain, RisesFirst};

use crate::risen::{RiseFault, Risen, fault_of};
use crate::seen::seen_in;
use bcv_base::{Draw, Id16, Names};
use bcv_disk::Disk;
use bcv_journal::Noted;
use bcv_ledger::{Ledger, LedgerLoad};
use std::alloc::Global;

/// Brings up the client of a disk: loads its ledger, and where it keeps no id yet, draws one and notes it. No database without
/// commits is known then, and what was seen of the container is as what is kept says. The disk comes back at each fault.
pub fn rise<D: Disk, N: Names>(alloc: Global, disk: D, names: &mut N) -> Risen<D>
    ensures rises { Rises D.told D.shown disk (N.shown names.old) (N.shown names.new) result }
    ensures again { RisesAgain D.told D.shown disk result }
    ensures first { RisesFirst D.told D.shown disk result }
{
    let ledger = match Ledger::load(alloc, disk) {
        LedgerLoad::Ready(ledger) => ledger,
        LedgerLoad::Refused(disk, fault) => return Risen::Refused(disk, fault_of(fault)),
    };
    match ledger.databases.kept().me {
        Some(id) => up_with(ledger, id),
        None => name_client(alloc, ledger, names),
    }
}

// Draws an id for a client that keeps nothing, and notes it.
fn name_client<D: Disk, N: Names>(alloc: Global, ledger: Ledger<D>, names: &mut N) -> Risen<D>
    requires kept { ledger.databases.kept ≡ nothing_kept }
    requires is_open { is_shut ledger.log ≡ false }
    requires room { log_tail ledger.log + 87 ≤ 2 ^ 31 }
    ensures { NamesClient D.told D.shown ledger (N.shown names.old) (N.shown names.new) result }
{
    let mut ledger = ledger;
    let id = match names.draw() {
        Draw::Drawn(id) => id,
        Draw::Failed => return Risen::Refused(ledger.down(), RiseFault::NamesFault),
    };
    let _ = id.bytes();
    match ledger.me(alloc, id) {
        Noted::Done => up_with(ledger, id),
        Noted::DiskFault => Risen::Refused(ledger.down(), RiseFault::DiskFault),
        Noted::NoMemory => Risen::Refused(ledger.down(), RiseFault::NoMemory),
        Noted::JournalFull | Noted::Closed => unreachable!(),
    }
}

// The client of a ledger at rest is up, under its id.
fn up_with<D: Disk>(ledger: Ledger<D>, id: Id16) -> Risen<D>
    ensures { IsUpWith D.shown ledger id result }
{
    let _ = id.bytes();
    ledger.rests();
    let seen = seen_in(ledger.databases.kept());
    Risen::Ready(ledger, id, seen)
}
