ghost use Rattle.std.specs.Prelude.{◌≡◌, ℕ, false, List, Option};

use crate::source::{Source, Took};
use std::io::{ErrorKind, Read};

/// A source over a reader: a read of no bytes is the end, and an error is a failure.
///
/// It tells the bytes that are left where the reader does.
#[derive(Debug, Drop)]
pub struct StdSource<R> {
    pub inner: R,
    /// Whether a read gave no byte: it has answered `End` then.
    pub ended: bool,
    /// How many takes have failed. It stands still at the end of its type.
    pub faults: u64,
}

impl<R: Read> StdSource<R> {
    /// Makes a source of what the reader gives from here on.
    pub fn new(inner: R) -> StdSource<R>
        ensures inner { result.inner ≡ inner }
        ensures unended { result.ended ≡ false }
        ensures faults { result.faults ≡ 0 }
    {
        StdSource {
            inner,
            ended: false,
            faults: 0,
        }
    }
}

impl<R: Read> Source for StdSource<R> {
    ghost left = { λ s. R.remaining s.inner };

    ghost ended = { λ s. s.ended };

    ghost faults = { λ s. s.faults };

    // A read that a signal cut short is made again, and is no fault.
    fn take(&mut self, into: &mut [u8]) -> Took {
        for _ in 0..u64::MAX {
            match self.inner.read(into) {
                Ok(0) => {
                    self.ended = true;
                    return Took::End;
                }
                Ok(count) => return Took::Some(count),
                Err(error) => {
                    if error.kind() != ErrorKind::Interrupted {
                        break;
                    }
                }
            }
        }
        self.faults = self.faults.saturating_add(1);
        Took::Failed
    }
}
