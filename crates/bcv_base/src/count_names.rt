ghost use Rattle.std.specs.Prelude.{◌≡◌, ℕ, ◌+◌, ◌-◌, ◌^◌, ◌<◌, List, Option};
ghost use Rattle.bcv_base.specs.Drawn.{Draws};
ghost use Rattle.bcv_base.specs.Plan.{one_more};
ghost use Rattle.bcv_base.specs.Numbered.{numbered, counted};

use crate::id::Id16;
use crate::names::{Draw, Names};
use std::marker::Model;

/// Names 1, 2, 3 and so on, each the number as 16 big-endian bytes.
///
/// Contracts see how many names it gave and how often it failed, which it does only after 2^128 - 1 names.
#[derive(Debug, Drop)]
pub struct CountNames {
    count: u128,
    faults: u64,
}

impl Model for CountNames {
    ghost use Rattle.std.specs.Prelude.{◌≡◌, ◌-◌, ◌^◌, ◌<◌};
    ghost use Rattle.bcv_base.specs.Numbered.{Counter};

    ghost Value = { Counter };

    ghost view = { λ c. record { count = c.count; faults = c.faults } };

    ghost invariant = { λ c. c.count < 2 ^ 128 - 1 → c.faults ≡ 0 };
}

impl CountNames {
    /// Names from 1 on.
    pub fn new() -> CountNames
        ensures { result ≡ record { count = 0; faults = 0 } }
    {
        CountNames {
            count: 0,
            faults: 0,
        }
    }

    /// How often it failed: never while it gave fewer than 2^128 - 1 names.
    pub fn faults(&self) -> u64
        ensures is { result ≡ self.now.faults }
        ensures none { self.now.count < 2 ^ 128 - 1 → self.now.faults ≡ 0 }
    {
        self.faults
    }
}

impl Names for CountNames {
    ghost shown = { counted };

    fn draw(&mut self) -> Draw
        ensures draws { Draws (counted self.old) (counted self.new) result }
        ensures next { self.old.count < 2 ^ 128 - 1
            → (result ≡ Draw.Drawn (numbered (self.old.count + 1)))
            × (self.new ≡ record { count = self.old.count + 1; faults = 0 }) }
        ensures ended { self.old.count ≡ 2 ^ 128 - 1 → (result ≡ Draw.Failed)
            × (self.new ≡ record self.old { faults = one_more self.old.faults }) }
        ensures within { self.old.count < 2 ^ 128 }
    {
        if self.count == u128::MAX {
            self.faults = self.faults.saturating_add(1);
            return Draw::Failed;
        }
        self.count += 1;
        Draw::Drawn(Id16(self.count.to_be_bytes()))
    }
}
