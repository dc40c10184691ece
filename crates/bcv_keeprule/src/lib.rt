//! The rule on how long a deleted block is kept.
//!
//! Whoever runs a cleanup chooses the rule; this crate keeps it and asks it. The rule may keep blocks
//! longer than their retention, for reasons of its own, but a rule that would let one go earlier, that
//! may not be asked some numbers, or that could answer the same question both ways is no argument that
//! `KeepRule::new` takes: the caller's proof fails. So 'no block goes within its retention' holds for
//! every rule, and nothing above asks what the rule is. The crate stands on std alone.
#![tactic(auto)]

ghost use Rattle.std.specs.Prelude.{◌≡◌, ◌+◌, ◌≤◌, ◌↔◌, IsTrue};
ghost use Rattle.bcv_keeprule.specs.Retention.{IsKeepRule};

/// A rule that was found patient, kept to be asked of each block on a delete list.
///
/// A function that is handed one requires the same of it as `KeepRule::new`.
#[derive(Drop)]
pub struct KeepRule<F> {
    /// What was handed in: it is asked the stamp, the present moment and the retention, in this order.
    pub rule: F,
}

impl<F: Fn(u64, u64, u64) -> bool> KeepRule<F> {
    /// Keeps the rule as it is.
    pub fn new(f: F) -> KeepRule<F>
        requires { IsKeepRule (F.pre f) (F.post f) }
        ensures { result.rule ≡ f }
    {
        KeepRule { rule: f }
    }

    /// Whether a block that was put on the delete list at `stamp` may go at `now`, where its container
    /// keeps deleted blocks for `retention`; all three in the clock's units.
    pub fn releases(&self, stamp: u64, now: u64, retention: u64) -> bool
        requires { IsKeepRule (F.pre self.now.rule) (F.post self.now.rule) }
        ensures answer { F.post self.now.rule stamp now retention result }
        ensures patient { IsTrue result → stamp + retention ≤ now }
    {
        (self.rule)(stamp, now, retention)
    }
}

/// The rule that keeps no block longer than it must: yes exactly where the retention has passed.
///
/// `KeepRule::new` takes it by its name, and a rule of the caller's own may call it.
pub fn retention_passed(stamp: u64, now: u64, retention: u64) -> bool
    ensures { IsTrue result ↔ (stamp + retention ≤ now) }
{
    now >= stamp && now - stamp >= retention
}
