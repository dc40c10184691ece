ghost use Rattle.std.specs.Prelude.{◌≡◌, ℕ, ◌≤◌, List, drop, length};
ghost use Rattle.std.specs.Io.KnownBytes.{Appends};
ghost use Rattle.bcv_base.specs.Faults.{Rose};
ghost use Rattle.bcv_top.specs.Writing.{Writes};

use bcv_base::{Gave, Sink};

// How the writing of a text ended.
#[derive(Clone, Copy, Debug, PartialEq, Eq)]
pub enum Wrote {
    All,
    Failed,
    NoMemory,
}

// Writes all of a text, in as many gives as it takes.
pub fn write_all<O: Sink>(out: &mut O, text: &[u8]) -> Wrote
    ensures bytes { (written : List ℕ) × Appends (O.given out.old) (O.given out.new) written × Writes result text.now written }
    ensures later { O.faults out.old ≤ O.faults out.new }
    ensures cause { result ≡ Wrote.Failed → Rose (O.faults out.old) (O.faults out.new) }
{
    let mut rest = text;
    while !rest.is_empty() {
        match out.give(rest) {
            Gave::Some(count) => {
                let left = after(rest, count);
                rest = left;
            }
            Gave::Failed => return Wrote::Failed,
            Gave::NoMemory => return Wrote::NoMemory,
        }
    }
    Wrote::All
}

// The bytes after so many of them.
fn after(bytes: &[u8], count: usize) -> &[u8]
    requires { count ≤ length bytes.now }
    ensures { result.now ≡ drop count bytes.now }
{
    &bytes[count..]
}
