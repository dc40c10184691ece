//! Bytes that were taken from a source and not handed on yet.
//!
//! An inbox takes bytes in large pieces behind those that it still holds, and lets go of some in front. So whoever cuts its
//! bytes into parts finds each part whole, in whatever pieces they came. It holds at most 65,536 bytes.
#![tactic(auto)]

ghost use Rattle.std.specs.Prelude.{◌≡◌, ◌<◌, ◌≤◌, ◌-◌, false, [], drop, take, length, IfOk};
ghost use Rattle.bcv_base.specs.Streams.{TakeCause, is_end};
ghost use Rattle.bcv_inbox.specs.Refilled.{Fills, Refills, most_held};

use bcv_base::{Source, Took};
use std::alloc::{AllocError, Global};
use std::marker::Model;

// How many bytes there is room for.
const SIZE: usize = 65536;

/// Bytes of a source. Contracts see the list of them.
#[derive(Drop)]
pub struct Inbox {
    room: Vec<u8>,
    from: usize,
    to: usize,
}

impl Model for Inbox {
    ghost use Rattle.std.specs.Prelude.{◌≡◌, ℕ, List, ◌≤◌, length, drop, take};
    ghost use Rattle.std.specs.Coded.{coded_list, coded_ℕ};

    ghost Value = { List ℕ };

    ghost coded = { coded_list coded_ℕ };

    ghost view = { λ c. drop c.from (take c.to c.room.items) };

    ghost invariant = { λ c. (c.from ≤ c.to) × (c.to ≤ length c.room.items)
        × (length c.room.items ≡ 65536) };
}

impl Inbox {
    /// An empty inbox, and the room for what it will hold.
    pub fn new(alloc: Global) -> Result<Inbox, AllocError>
        ensures { IfOk result (λ c. c ≡ []) }
    {
        let room = Vec::from_elem(alloc, 0, SIZE)?;
        Ok(Inbox {
            room,
            from: 0,
            to: 0,
        })
    }

    /// The bytes.
    pub fn bytes(&self) -> &[u8]
        ensures bytes { result.now ≡ self.now }
        ensures few { length self.now ≤ most_held }
    {
        &self.room[self.from..self.to]
    }

    /// Lets go of so many bytes in front.
    pub fn skip(&mut self, count: usize)
        requires { count ≤ length self.old }
        ensures { self.new ≡ drop count self.old }
    {
        self.from += count;
    }

    /// Takes more bytes behind those that are here.
    pub fn refill<I: Source>(&mut self, input: &mut I) -> Took
        requires room { length self.old < most_held }
        requires unended { I.ended input.old ≡ false }
        ensures ends { I.ended input.new ≡ is_end result }
        ensures bytes { Refills (I.left input.old) (I.left input.new) result self.old self.new }
        ensures cause { TakeCause (I.faults input.old) (I.faults input.new) result }
    {
        let (from, to) = (self.from, self.to);
        pack(&mut self.room, from, to);
        self.from = 0;
        self.to = to - from;
        let held = self.to;
        let took = fill(&mut self.room, held, input);
        if let Took::Some(count) = took {
            self.to = held + count;
        }
        took
    }
}

// Moves the bytes between two places to the front.
fn pack(room: &mut Vec<u8>, from: usize, to: usize)
    requires within { (from ≤ to) × (to ≤ length room.old.items) }
    ensures len { length room.new.items ≡ length room.old.items }
    ensures front { take (to - from) room.new.items ≡ drop from (take to room.old.items) }
{
    room.copy_within(from..to, 0);
}

// Takes bytes into a room after so many that stay.
fn fill<I: Source>(room: &mut [u8], held: usize, input: &mut I) -> Took
    requires within { held < length room.old }
    requires unended { I.ended input.old ≡ false }
    ensures ends { I.ended input.new ≡ is_end result }
    ensures len { length room.new ≡ length room.old }
    ensures bytes { Fills (I.left input.old) (I.left input.new) result held room.old room.new }
    ensures cause { TakeCause (I.faults input.old) (I.faults input.new) result }
{
    input.take(&mut room[held..])
}
