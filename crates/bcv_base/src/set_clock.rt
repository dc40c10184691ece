ghost use Rattle.std.specs.Prelude.{◌≡◌, ℕ, Option, Some, None};
ghost use Rattle.bcv_base.specs.Moments.{Tells};

use crate::clock::{Clock, Now};
use std::marker::Model;

/// A clock that stands at the moment that it is set to, and never fails.
///
/// Contracts see that moment, and the one that it gave last.
#[derive(Debug, Drop)]
pub struct SetClock {
    moment: u64,
    last: Option<u64>,
}

impl Model for SetClock {
    ghost use Rattle.bcv_base.specs.SetMoment.{SetMoment};

    ghost Value = { SetMoment };

    ghost view = { λ c. record { moment = c.moment; last = c.last } };
}

impl SetClock {
    /// Makes a clock that is set to a moment and has given none.
    pub fn new(moment: u64) -> SetClock
        ensures { result ≡ record { moment = moment; last = None } }
    {
        SetClock { moment, last: None }
    }

    /// Sets it to a moment.
    pub fn set(&mut self, moment: u64)
        ensures { self.new ≡ record self.old { moment = moment } }
    {
        self.moment = moment;
    }
}

impl Clock for SetClock {
    ghost use Rattle.bcv_base.specs.SetMoment.{shown_by};

    ghost shown = { shown_by };

    fn now(&mut self) -> Now
        ensures tells { Tells (shown_by self.old) (shown_by self.new) result }
        ensures is { result ≡ Now.At self.old.moment }
        ensures last { self.new ≡ record self.old { last = Some self.old.moment } }
    {
        self.last = Some(self.moment);
        Now::At(self.moment)
    }
}
