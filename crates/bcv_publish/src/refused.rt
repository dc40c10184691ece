ghost use Rattle.std.specs.Prelude.{◌≡◌, ◌<◌, [], ◌∷◌, ◌++◌, length};
ghost use Rattle.bcv_publish.specs.State.{last_number};

use std::marker::Model;

/// The numbers of the manifests that were read before refused puts, in order. Contracts see their list.
#[derive(Drop)]
pub(crate) struct Refused {
    numbers: [u64; 8],
    count: usize,
}

impl Model for Refused {
    ghost use Rattle.std.specs.Prelude.{ℕ, ◌≤◌, List, take};

    ghost Value = { List ℕ };

    ghost view = { λ r. take r.count r.numbers };

    ghost invariant = { λ r. r.count ≤ 8 };
}

impl Refused {
    pub(crate) fn new() -> Refused
        ensures { result ≡ [] }
    {
        Refused {
            numbers: [0; 8],
            count: 0,
        }
    }

    pub(crate) fn len(&self) -> usize
        ensures { result ≡ length self.now }
    {
        self.count
    }

    /// The number that was read last.
    pub(crate) fn last(&self) -> Option<u64>
        ensures { result ≡ last_number self.now }
    {
        if self.count == 0 {
            return None;
        }
        Some(self.numbers[self.count - 1])
    }

    pub(crate) fn push(&mut self, number: u64)
        requires { length self.old < 8 }
        ensures { self.new ≡ self.old ++ number ∷ [] }
    {
        self.numbers[self.count] = number;
        self.count += 1;
    }

    /// All eight numbers.
    pub(crate) fn all(&self) -> [u64; 8]
        requires { length self.now ≡ 8 }
        ensures { result ≡ self.now }
    {
        self.numbers
    }
}
