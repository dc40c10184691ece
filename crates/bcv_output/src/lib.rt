//! Texts written to a sink, in as many pieces as the sink takes.
//!
//! A sink may take a front of what it is given. `write_all` gives it the rest until all is taken, the sink fails or memory
//! runs out. It promises that all of the text was given, or else a front of it, and that it fails only where the sink did.
#![tactic(auto)]

ghost use Rattle.std.specs.Prelude.{◌≡◌, ℕ, ◌≤◌, List, drop, length};
ghost use Rattle.std.specs.Io.KnownBytes.{Appends};
ghost use Rattle.bcv_base.specs.Faults.{Rose};
ghost use Rattle.bcv_output.specs.Writing.{IsSteady, Writes};

use bcv_base::{Gave, Sink};

/// How the writing of a text ended.
#[derive(Clone, Copy, Debug, PartialEq, Eq)]
pub enum Wrote {
    /// All of it was given.
    All,
    /// The sink failed, after a front of it.
    Failed,
    /// Memory ran out, after a front of it.
    NoMemory,
}

/// Writes all of a text. An empty one is no write.
pub fn write_all<O: Sink>(out: &mut O, text: &[u8]) -> Wrote
    ensures bytes { (written : List ℕ) × Appends (O.given out.old) (O.given out.new) written
        × Writes result text.now written }
    ensures later { O.faults out.old ≤ O.faults out.new }
    ensures cause { result ≡ Wrote.Failed → Rose (O.faults out.old) (O.faults out.new) }
    ensures steady { IsSteady result (O.faults out.old) (O.faults out.new) }
{
    let mut rest = text;
    while !rest.is_empty() {
        match out.give(rest) {
            Gave::Some(count) => {
                let left = after(rest, count);
                rest = left;
            }
            Gave::Failed => return Wrote::Failed,
            Gave::NoMemory => return Wrote::NoMemory,
        }
    }
    Wrote::All
}

// The bytes after so many of them.
fn after(bytes: &[u8], count: usize) -> &[u8]
    requires { count ≤ length bytes.now }
    ensures { result.now ≡ drop count bytes.now }
{
    &bytes[count..]
}
