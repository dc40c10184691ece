ghost use Rattle.std.specs.Prelude.{◌≡◌, ℕ, ◌<◌, ◌≤◌, false, List, length, take, Option};
ghost use Rattle.bcv_base.specs.Streams.{Takes, TakeCause, is_end};
ghost use Rattle.bcv_base.specs.Memory.{TakesPiece};
ghost use Rattle.bcv_base.specs.Plan.{planned, after_call};

use crate::plan::FaultPlan;
use crate::source::{Source, Took};
use std::marker::Model;

/// A source over bytes in memory, which gives them in pieces and fails where it is told to.
///
/// Contracts see the bytes that are left, the size of a piece, whether it has ended, and the plan of the failures.
#[derive(Debug, Drop)]
pub struct MemSource {
    bytes: Vec<u8>,
    at: usize,
    piece: usize,
    ended: bool,
    plan: FaultPlan,
}

impl Model for MemSource {
    ghost use Rattle.std.specs.Prelude.{◌≤◌, length, drop};
    ghost use Rattle.bcv_base.specs.Memory.{Feed};

    ghost Value = { Feed };

    ghost view = { λ s. record { left = drop s.at s.bytes.items; piece = s.piece; ended = s.ended; plan = s.plan } };

    ghost invariant = { λ s. (s.at ≤ length s.bytes.items) × (1 ≤ s.piece) };
}

impl MemSource {
    /// Makes a source of these bytes: a take gives at most `piece` of them, and the takes that `fails` numbers, from 1, fail
    /// and move none.
    pub fn new(bytes: Vec<u8>, piece: usize, fails: Vec<u64>) -> MemSource
        requires { 1 ≤ piece }
        ensures { result ≡ record {
          left = bytes.items;
          piece = piece;
          ended = false;
          plan = planned fails.items;
        } }
    {
        MemSource {
            bytes,
            at: 0,
            piece,
            ended: false,
            plan: FaultPlan::new(fails),
        }
    }
}

impl Source for MemSource {
    ghost use Rattle.std.specs.Prelude.{Some};

    ghost left = { λ s. Some s.left };

    ghost ended = { λ s. s.ended };

    ghost faults = { λ s. s.plan.faults };

    fn take(&mut self, into: &mut [u8]) -> Took
        requires room { 0 < length into.old }
        requires unended { self.old.ended ≡ false }
        ensures bytes { Takes (Some self.old.left) (Some self.new.left) result into.new }
        ensures ends { self.new.ended ≡ is_end result }
        ensures cause { TakeCause self.old.plan.faults self.new.plan.faults result }
        ensures piece { TakesPiece self.old result (length into.old) }
        ensures plan { self.new.plan ≡ after_call self.old.plan }
        ensures same { self.new.piece ≡ self.old.piece }
    {
        if self.plan.strikes() {
            return Took::Failed;
        }
        let rest = &self.bytes[self.at..];
        let count = self.piece.min(rest.len()).min(into.len());
        if count == 0 {
            self.ended = true;
            return Took::End;
        }
        copy_front(rest, into, count);
        self.at += count;
        Took::Some(count)
    }
}

// Copies the first bytes of a slice to the front of another one.
fn copy_front(from: &[u8], into: &mut [u8], count: usize)
    requires given { count ≤ length from.now }
    requires room { count ≤ length into.old }
    ensures { take count into.new ≡ take count from.now }
{
    into[..count].copy_from_slice(&from[..count]);
}
