ghost use Rattle.std.specs.Prelude.{◌≡◌};
ghost use Rattle.bcv_script.specs.declared.fault.LineFault.TheVariants.{NoMemory};

use std::alloc::{AllocError, AllocFailed};

/// Why a line gave nothing: it isn't in the grammar, or memory ran out.
#[derive(Clone, Copy, Debug, PartialEq, Eq)]
pub enum LineFault {
    /// `at` is the place, from 0, of the first word that cannot stand after those before it; where the line ends too
    /// early it is the line's length.
    BadLine { at: u32 },
    NoMemory,
}

impl From<AllocError> for LineFault {
    ghost from_gives = { λ _ e. e ≡ NoMemory };

    fn from(_fault: AllocError) -> LineFault {
        LineFault::NoMemory
    }
}

impl<T: Drop> From<AllocFailed<T>> for LineFault {
    ghost from_gives = { λ _ e. e ≡ NoMemory };

    fn from(_fault: AllocFailed<T>) -> LineFault {
        LineFault::NoMemory
    }
}
