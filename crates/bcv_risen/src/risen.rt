ghost use Rattle.std.specs.Prelude.{◌≡◌};
ghost use Rattle.bcv_risen.specs.Rises.{fault_as};

use bcv_base::{Id16, Seen};
use bcv_disk::Disk;
use bcv_journal::JournalFault;
use bcv_ledger::Ledger;

/// Why a client does not come up.
#[derive(Clone, Copy, Debug, PartialEq, Eq)]
pub enum RiseFault {
    /// The disk's file is no log of a client, for what stands at this place.
    NotJournal(u64),
    /// The disk failed in this call.
    DiskFault,
    /// The source of names failed in this call.
    NamesFault,
    NoMemory,
}

/// A client that is up, with its ledger, its id and what it has seen of the container; or the disk back.
#[derive(Drop)]
pub enum Risen<D: Disk> {
    Ready(Ledger<D>, Id16, Seen),
    Refused(D, RiseFault),
}

/// The fault of a load as one of coming up.
pub(crate) fn fault_of(fault: JournalFault) -> RiseFault
    ensures { result ≡ fault_as fault }
{
    match fault {
        JournalFault::NotJournal(place) => RiseFault::NotJournal(place),
        JournalFault::DiskFault => RiseFault::DiskFault,
        JournalFault::NoMemory => RiseFault::NoMemory,
    }
}
