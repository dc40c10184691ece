ghost use Rattle.std.specs.Prelude.{◌≡◌, ℕ, ◌<◌, [], ◌↔◌, true, List, length, Option};
ghost use Rattle.bcv_base.specs.Streams.{Gives, GiveCause};
ghost use Rattle.bcv_base.specs.Plan.{planned, after_call, fails_next};

use crate::plan::FaultPlan;
use crate::sink::{Gave, Sink};
use std::alloc::Global;
use std::marker::Model;

/// A sink that keeps what it is given in memory, and fails where it is told to.
///
/// Contracts see the bytes that were given and the plan of the failures.
#[derive(Debug, Drop)]
pub struct MemSink {
    bytes: Vec<u8>,
    plan: FaultPlan,
}

impl Model for MemSink {
    ghost use Rattle.bcv_base.specs.Memory.{Basin};

    ghost Value = { Basin };

    ghost view = { λ s. record { given = s.bytes.items; plan = s.plan } };
}

impl MemSink {
    /// An empty sink: the gives that `fails` numbers, from 1, fail and add nothing.
    pub fn new(alloc: Global, fails: Vec<u64>) -> MemSink
        ensures { result ≡ record { given = []; plan = planned fails.items } }
    {
        MemSink {
            bytes: Vec::new(alloc),
            plan: FaultPlan::new(fails),
        }
    }

    /// The bytes that were given.
    pub fn bytes(&self) -> &[u8]
        ensures { result.now ≡ self.now.given }
    {
        &self.bytes
    }
}

impl Sink for MemSink {
    ghost use Rattle.std.specs.Prelude.{Some};

    ghost given = { λ s. Some s.given };

    ghost faults = { λ s. s.plan.faults };

    fn give(&mut self, bytes: &[u8]) -> Gave
        requires { 0 < length bytes.now }
        ensures bytes { Gives (Some self.old.given) (Some self.new.given) result bytes.now }
        ensures cause { GiveCause self.old.plan.faults self.new.plan.faults result }
        ensures failed { (result ≡ Gave.Failed) ↔ (fails_next self.old.plan ≡ true) }
        ensures unmoved { result ≡ Gave.Failed → self.new.given ≡ self.old.given }
        ensures plan { self.new.plan ≡ after_call self.old.plan }
    {
        if self.plan.strikes() {
            return Gave::Failed;
        }
        match self.bytes.extend_from_slice(bytes) {
            Ok(()) => Gave::Some(bytes.len()),
            Err(_) => Gave::NoMemory,
        }
    }
}
