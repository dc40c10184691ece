ghost use Rattle.std.specs.Prelude.{◌≡◌, ℕ, ◌<◌, List, length, Option};
ghost use Rattle.std.specs.Io.KnownBytes.{Keeps};
ghost use Rattle.bcv_base.specs.Streams.{Gives, GiveCause};

use crate::sink::{Gave, Sink};
use std::io::{ErrorKind, Write};

/// A sink over a writer: an error is a failure, and so is a write that takes no byte.
///
/// It tells the bytes that were given where the writer does. A writer that keeps bytes back is flushed by its owner,
/// through `inner`.
#[derive(Debug, Drop)]
pub struct StdSink<W> {
    pub inner: W,
    /// How many gives have failed. It stands still at the end of its type.
    pub faults: u64,
}

impl<W: Write> StdSink<W> {
    /// A sink whose bytes go to the writer.
    pub fn new(inner: W) -> StdSink<W>
        ensures inner { result.inner ≡ inner }
        ensures faults { result.faults ≡ 0 }
    {
        StdSink { inner, faults: 0 }
    }
}

impl<W: Write> Sink for StdSink<W> {
    ghost given = { λ s. W.contents s.inner };

    ghost faults = { λ s. s.faults };

    // A write that a signal cut short is made again, and is no fault.
    fn give(&mut self, bytes: &[u8]) -> Gave
        requires { 0 < length bytes.now }
        ensures bytes { Gives (W.contents self.old.inner)
            (W.contents self.new.inner) result bytes.now }
        ensures cause { GiveCause self.old.faults self.new.faults result }
        ensures unmoved { result ≡ Gave.Failed
            → Keeps (W.contents self.old.inner) (W.contents self.new.inner) }
    {
        for _ in 0..u64::MAX {
            match self.inner.write(bytes) {
                Ok(0) => break,
                Ok(count) => return Gave::Some(count),
                Err(error) => {
                    if error.kind() != ErrorKind::Interrupted {
                        break;
                    }
                }
            }
        }
        self.faults = self.faults.saturating_add(1);
        Gave::Failed
    }
}
