ghost use Rattle.std.specs.Prelude.{◌≡◌, ◌^◌, ◌<◌};
ghost use Rattle.bcv_base.specs.Plan.{planned, fails_next, after_call};

use std::marker::Model;

/// Which calls of an object in memory fail: a test's plan, with the count of the calls so far and of those that failed.
///
/// Both counts stand still at the end of their type.
#[derive(Debug, Drop)]
pub(crate) struct FaultPlan {
    fails: Vec<u64>,
    calls: u64,
    faults: u64,
}

impl Model for FaultPlan {
    ghost use Rattle.bcv_base.specs.Plan.{Plan};

    ghost Value = { Plan };

    ghost view = { λ p. record { fails = p.fails.items; calls = p.calls; faults = p.faults } };
}

impl FaultPlan {
    /// A plan by the numbers, from 1, of the calls that fail.
    pub(crate) fn new(fails: Vec<u64>) -> FaultPlan
        ensures { result ≡ planned fails.items }
    {
        FaultPlan {
            fails,
            calls: 0,
            faults: 0,
        }
    }

    /// Counts a call, and says whether it fails.
    pub(crate) fn strikes(&mut self) -> bool
        ensures which { result ≡ fails_next self.old }
        ensures after { self.new ≡ after_call self.old }
        ensures bounded { self.old.faults < 2 ^ 64 }
    {
        self.calls = self.calls.saturating_add(1);
        let fails = self.fails.contains(&self.calls);
        let faults = self.faults;
        if fails {
            self.faults = faults.saturating_add(1);
        }
        fails
    }
}
