ghost use Rattle.std.specs.Prelude.{◌≡◌, ◌≤◌, length};
ghost use Rattle.bcv_script.specs.declared.stop.Stop.TheVariants.{NoMemory};
ghost use Rattle.bcv_script.specs.Reading.{fault_of};

use crate::fault::LineFault;
use std::alloc::{AllocError, AllocFailed};

// Why the reading of words stopped: a word that cannot stand, with the number of bytes that the line has from it on, or no
// memory.
#[derive(Clone, Copy, Debug, PartialEq, Eq)]
pub enum Stop {
    Fault(usize),
    NoMemory,
}

impl Stop {
    // The fault of a line of so many bytes.
    pub fn placed(self, line: &[u8]) -> LineFault
        requires { length line.now ≤ 1048576 }
        ensures { result ≡ fault_of (length line.now) self }
    {
        match self {
            Stop::Fault(left) => LineFault::BadLine {
                at: line.len().saturating_sub(left) as u32,
            },
            Stop::NoMemory => LineFault::NoMemory,
        }
    }
}

impl From<AllocError> for Stop {
    ghost from_gives = { λ _ e. e ≡ NoMemory };

    fn from(_fault: AllocError) -> Stop {
        Stop::NoMemory
    }
}

impl<T: Drop> From<AllocFailed<T>> for Stop {
    ghost from_gives = { λ _ e. e ≡ NoMemory };

    fn from(_fault: AllocFailed<T>) -> Stop {
        Stop::NoMemory
    }
}
