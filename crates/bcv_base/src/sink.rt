ghost use Rattle.std.specs.Prelude.{ℕ, ◌<◌, List, length, Option};
ghost use Rattle.bcv_base.specs.Streams.{Gives, GiveCause};

/// What a give answers: how many bytes it took, that it failed, or that memory ran out.
#[derive(Clone, Copy, Debug, PartialEq, Eq)]
pub enum Gave {
    Some(usize),
    Failed,
    NoMemory,
}

/// Where output goes.
pub trait Sink {
    /// The bytes that were given, where the sink tells them.
    ghost given: { Self → Option (List ℕ) };

    /// How many of its calls have failed.
    ghost faults: { Self → ℕ };

    /// Adds some of the first of `bytes` to those that were given.
    fn give(&mut self, bytes: &[u8]) -> Gave
        requires { 0 < length bytes.now }
        ensures bytes { Gives (given self.old) (given self.new) result bytes.now }
        ensures cause { GiveCause (faults self.old) (faults self.new) result };
}
