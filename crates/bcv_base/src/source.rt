ghost use Rattle.std.specs.Prelude.{◌≡◌, ℕ, ◌<◌, false, Bool, List, length, Option};
ghost use Rattle.bcv_base.specs.Streams.{Takes, TakeCause, is_end};

/// What a take answers: how many bytes it gave, that none is left, or that it failed.
#[derive(Clone, Copy, Debug, PartialEq, Eq)]
pub enum Took {
    Some(usize),
    End,
    Failed,
}

/// Where input comes from. A source that has answered `End` is not asked again.
pub trait Source {
    /// The bytes that are left, where the source tells them.
    ghost left: { Self → Option (List ℕ) };

    /// It has answered that no byte is left.
    ghost ended: { Self → Bool };

    /// How many of its calls have failed.
    ghost faults: { Self → ℕ };

    /// Moves some of the bytes that are left to the front of `into`.
    fn take(&mut self, into: &mut [u8]) -> Took
        requires room { 0 < length into.old }
        requires unended { ended self.old ≡ false }
        ensures bytes { Takes (left self.old) (left self.new) result into.new }
        ensures ends { ended self.new ≡ is_end result }
        ensures cause { TakeCause (faults self.old) (faults self.new) result };
}
