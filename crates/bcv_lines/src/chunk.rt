ghost use Rattle.std.specs.Prelude.{◌≡◌, ◌≤◌, false, [], drop, length, IfOk};
ghost use Rattle.bcv_base.specs.Streams.{TakeCause, is_end};
ghost use Rattle.bcv_lines.specs.Reading.{Refills};

use bcv_base::{Source, Took};
use std::alloc::{AllocError, Global};
use std::marker::Model;

// How many bytes one take asks for.
const SIZE: usize = 65536;

/// Bytes that were taken from a source and not handed on yet. Contracts see the list of them.
#[derive(Drop)]
pub struct Chunk {
    room: Vec<u8>,
    from: usize,
    to: usize,
}

impl Model for Chunk {
    ghost use Rattle.std.specs.Prelude.{ℕ, List, ◌<◌, ◌≤◌, length, drop, take};
    ghost use Rattle.std.specs.Coded.{coded_list, coded_ℕ};

    ghost Value = { List ℕ };

    ghost coded = { coded_list coded_ℕ };

    ghost view = { λ c. drop c.from (take c.to c.room.items) };

    ghost invariant = { λ c. (c.from ≤ c.to) × (c.to ≤ length c.room.items) × (0 < length c.room.items) };
}

impl Chunk {
    /// An empty chunk, and the room for what it will hold.
    pub fn new(alloc: Global) -> Result<Chunk, AllocError>
        ensures { IfOk result (λ c. c ≡ []) }
    {
        let room = Vec::from_elem(alloc, 0, SIZE)?;
        Ok(Chunk {
            room,
            from: 0,
            to: 0,
        })
    }

    /// The bytes.
    pub fn bytes(&self) -> &[u8]
        ensures { result.now ≡ self.now }
    {
        &self.room[self.from..self.to]
    }

    /// Lets go of so many bytes in front.
    pub fn skip(&mut self, count: usize)
        requires { count ≤ length self.old }
        ensures { self.new ≡ drop count self.old }
    {
        self.from += count;
    }

    /// Takes bytes in place of those that are here.
    pub fn refill<I: Source>(&mut self, input: &mut I) -> Took
        requires unended { I.ended input.old ≡ false }
        ensures ends { I.ended input.new ≡ is_end result }
        ensures bytes { Refills (I.left input.old) (I.left input.new) result self.new }
        ensures cause { TakeCause (I.faults input.old) (I.faults input.new) result }
    {
        self.from = 0;
        self.to = 0;
        let took = input.take(&mut self.room);
        if let Took::Some(count) = took {
            self.to = count;
        }
        took
    }
}
