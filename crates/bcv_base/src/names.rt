ghost use Rattle.std.specs.Prelude.{ℕ, List, Option};

use crate::id::Id16;

/// What a draw answers: a name, or that it failed.
#[derive(Clone, Copy, Debug, PartialEq, Eq)]
pub enum Draw {
    Drawn(Id16),
    Failed,
}

/// Where new names come from.
pub trait Names {
    ghost use Rattle.bcv_base.specs.Drawn.{NamesShown, Draws};

    /// What it shows: the names that were drawn, where they are told, and how many of its calls have failed.
    ghost shown: { Self → NamesShown };

    /// Draws a new name.
    fn draw(&mut self) -> Draw
        ensures draws { Draws (shown self.old) (shown self.new) result };
}
