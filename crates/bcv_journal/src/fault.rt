ghost use Rattle.std.specs.Prelude.{◌≡◌};
ghost use Rattle.bcv_journal.specs.declared.fault.JournalFault.TheVariants.{NoMemory};

use std::alloc::{AllocError, AllocFailed};

/// Why a file did not load.
#[derive(Clone, Copy, Debug, PartialEq, Eq)]
pub enum JournalFault {
    /// The file is no journal, for what stands at this place.
    NotJournal(u64),
    /// The disk failed in this call.
    DiskFault,
    NoMemory,
}

/// How an append ended.
#[derive(Clone, Copy, Debug, PartialEq, Eq)]
pub enum Noted {
    /// The item is on the disk.
    Done,
    /// The file would pass its limit; the journal is as it was.
    JournalFull,
    /// The disk failed in this call. The item may be on the disk or not, and the journal is closed.
    DiskFault,
    /// An earlier append met a fault of the disk.
    Closed,
    /// The items are as before, and appends go on.
    NoMemory,
}

impl From<AllocError> for JournalFault {
    ghost from_gives = { λ _ e. e ≡ NoMemory };

    fn from(_: AllocError) -> Self {
        JournalFault::NoMemory
    }
}

impl<T: Drop> From<AllocFailed<T>> for JournalFault {
    ghost from_gives = { λ _ e. e ≡ NoMemory };

    fn from(_: AllocFailed<T>) -> Self {
        JournalFault::NoMemory
    }
}
