//! Slots of a cache, and pins on them.
ghost use Rattle.std.specs.Prelude.{◌≡◌};

use bcv_base::Id16;
use std::marker::Model;

/// The place of an entry in its cache, which it keeps as long as it is there.
#[derive(Clone, Copy, Debug, PartialEq, Eq)]
pub struct Slot(pub(crate) u16);

impl Model for Slot {
    ghost use Rattle.std.specs.Prelude.{ℕ};

    ghost Value = { ℕ };

    ghost view = { λ s. s.0 };

    ghost inverse = { λ n. record { 0 = n } };
}

impl Slot {
    /// The place among the slots, from 0.
    pub(crate) fn index(self) -> usize
        ensures { result ≡ self }
    {
        usize::from(self.0)
    }
}

/// A hold on one entry of a cache. It has to be given back to `BlockCache::unpin`, and cannot be dropped.
pub struct Pin {
    pub(crate) slot: Slot,
    pub(crate) id: Id16,
}

impl Model for Pin {
    ghost use Rattle.bcv_cache.specs.Entry.{Pinned};

    ghost Value = { Pinned };

    ghost view = { λ p. record { slot = p.slot; id = p.id } };
}
