ghost use Rattle.std.specs.Prelude.{◌≡◌, ◌+◌, ◌^◌, ◌<◌, ◌≤◌, [], ◌∷◌, ◌++◌, true, false, is_ok, length, drop, min, slice_index, vec_len, vec_capacity, if◌then◌else◌};
ghost use Rattle.bcv_pages.specs.Minima.{Minima, IsLeast, IsColumn, are_columns, held_columns, sizes_of};

use crate::fronts::drop_first;
use std::alloc::{AllocError, Global};
use std::marker::Model;

/// The sizes of commits, and their minima by doubling: entry j of a commit's column is the least of the last 2^j sizes
/// up to its own, as far as there are so many.
#[derive(Drop)]
pub(crate) struct SizeMinima {
    columns: Vec<Vec<u32>>,
    next: Option<Vec<u32>>,
}

impl Model for SizeMinima {
    ghost use Rattle.std.specs.Prelude.{vec_len, vec_capacity};
    ghost use Rattle.bcv_pages.specs.Minima.{Minima, minima_of, IsMinima};

    ghost Value = { Minima };

    ghost view = { λ s. minima_of s.columns.items s.next };

    ghost invariant = { λ s. IsMinima s.columns.items (vec_len s.columns) (vec_capacity s.columns) s.next };
}

impl SizeMinima {
    /// No sizes yet.
    pub(crate) fn new(alloc: Global) -> SizeMinima
        ensures { result ≡ record { sizes = []; ready = false } }
    {
        SizeMinima {
            columns: Vec::new(alloc),
            next: None,
        }
    }

    /// Makes room for one more size.
    pub(crate) fn reserve(&mut self) -> Result<(), AllocError>
        ensures { self.new ≡ (if is_ok result then record self.old { ready = true } else self.old) }
    {
        let levels = (self.columns.len() + 1).ilog2() as usize + 1;
        let next = Vec::with_capacity(*self.columns.allocator(), levels)?;
        self.columns.reserve(1)?;
        self.next = Some(next);
        Ok(())
    }

    /// Adds the size for which there is room.
    pub(crate) fn push(&mut self, size: u32)
        requires { self.old.ready ≡ true }
        ensures { self.new ≡ record { sizes = self.old.sizes ++ size ∷ []; ready = false } }
    {
        match self.next.take() {
            Some(next) => {
                let column = filled(self.columns.as_slice(), next, size);
                match self.columns.push(column) {
                    Ok(()) => (),
                    Err(_) => unreachable!(),
                }
            }
            None => unreachable!(),
        }
    }

    /// Drops the first `count` sizes.
    pub(crate) fn drop_first(&mut self, count: usize)
        requires { count ≤ length self.old.sizes }
        ensures { self.new ≡ record self.old { sizes = drop count self.old.sizes } }
    {
        drop_first(&mut self.columns, count);
    }

    /// The least of the sizes from place `start` to before place `end`.
    pub(crate) fn least(&self, start: usize, end: usize) -> u32
        requires some { start < end }
        requires there { end ≤ length self.now.sizes }
        ensures { IsLeast self.now.sizes start end result }
    {
        let level = (end - start).ilog2();
        let front = &self.columns[start + 2usize.pow(level) - 1];
        let back = &self.columns[end - 1];
        front[level as usize].min(back[level as usize])
    }
}

// The column of one more size.
fn filled(columns: &[Vec<u32>], next: Vec<u32>, size: u32) -> Vec<u32>
    requires columns { are_columns (held_columns columns.now) }
    requires empty { next.items ≡ [] }
    requires levels { length columns.now + 1 < 2 ^ vec_capacity next }
    ensures column { IsColumn (sizes_of (held_columns columns.now) ++ size ∷ [])
        (length columns.now + 1) result.items }
    ensures size { slice_index result.items 0 ≡ size }
{
    let count = columns.len() + 1;
    let mut column = next;
    append(&mut column, size);
    let mut level = 0;
    let mut width = 1;
    while width <= count / 2 {
        let least = columns[count - width - 1][level].min(column[level]);
        append(&mut column, least);
        level += 1;
        width *= 2;
    }
    column
}

// Puts a number into room that is there.
fn append(numbers: &mut Vec<u32>, number: u32)
    requires { vec_len numbers.old < vec_capacity numbers.old }
    ensures items { numbers.new.items ≡ numbers.old.items ++ number ∷ [] }
    ensures len { vec_len numbers.new ≡ vec_len numbers.old + 1 }
    ensures room { vec_capacity numbers.old ≤ vec_capacity numbers.new }
{
    match numbers.push(number) {
        Ok(()) => (),
        Err(_) => unreachable!(),
    }
}
