ghost use Rattle.std.specs.Prelude.{◌≡◌, length};
ghost use Rattle.bcv_manifest.specs.declared.fault.Stop.TheVariants.{NoMemory, Fault};

use std::alloc::{AllocError, AllocFailed};

/// Bytes that are none: the place in them of the first field that is cut by their end or breaks its rule.
#[derive(Clone, Copy, Debug, PartialEq, Eq)]
pub struct Bad {
    pub at: u64,
}

/// Why nothing was read.
#[derive(Clone, Copy, Debug, PartialEq, Eq)]
pub enum ReadFault {
    Bad(Bad),
    NoMemory,
}

/// Why the reading of a field stopped: no memory, or a field at fault, with the number of bytes from its start on.
#[derive(Debug, Drop)]
pub(crate) enum Stop {
    NoMemory,
    Fault(usize),
}

impl Stop {
    /// A fault of the field that these bytes start with.
    pub(crate) fn at(bytes: &[u8]) -> Stop
        ensures { result ≡ Fault (length bytes.now) }
    {
        Stop::Fault(bytes.len())
    }
}

impl From<AllocError> for Stop {
    ghost from_gives = { λ _ e. e ≡ NoMemory };

    fn from(_e: AllocError) -> Stop {
        Stop::NoMemory
    }
}

impl<T: Drop> From<AllocFailed<T>> for Stop {
    ghost from_gives = { λ _ e. e ≡ NoMemory };

    fn from(_e: AllocFailed<T>) -> Stop {
        Stop::NoMemory
    }
}
