ghost use Rattle.std.specs.Prelude.{◌≡◌, ℕ, Option};

use bcv_base::{Clock, Now};
use std::rt::Clock as SystemClock;

/// The system's clock, in whole seconds since the start of 1970.
///
/// It tells no moment, and fails only where the system's clock cannot be read.
#[derive(Drop)]
pub struct SysClock<R> {
    rt: R,
    faults: u64,
}

impl<R: SystemClock> SysClock<R> {
    ghost use Rattle.bcv_host.specs.Told.{clock_faults};

    /// The clock of a runtime.
    pub fn new(rt: R) -> SysClock<R>
        ensures { clock_faults result ≡ 0 }
    {
        SysClock { rt, faults: 0 }
    }
}

impl<R: SystemClock> Clock for SysClock<R> {
    ghost use Rattle.bcv_host.specs.Told.{clock_faults, untold_clock};

    ghost shown = { λ clock. untold_clock (clock_faults clock) };

    fn now(&mut self) -> Now {
        match self.rt.since_1970() {
            Ok(passed) => Now::At(passed.as_secs()),
            Err(_) => {
                self.faults = self.faults.saturating_add(1);
                Now::Failed
            }
        }
    }
}
