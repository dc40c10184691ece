ghost use Rattle.std.specs.Prelude.{ℕ, Option};

/// What a clock answers: the moment, in seconds, or that it failed.
#[derive(Clone, Copy, Debug, PartialEq, Eq)]
pub enum Now {
    At(u64),
    Failed,
}

/// Where moments come from.
pub trait Clock {
    ghost use Rattle.bcv_base.specs.Moments.{ClockShown, Tells};

    /// What it shows: the moment that it gave last and the one that it is set to, where they are told, and how many of
    /// its calls have failed.
    ghost shown: { Self → ClockShown };

    /// Answers with the moment that it is.
    fn now(&mut self) -> Now
        ensures tells { Tells (shown self.old) (shown self.new) result };
}
