ghost use Rattle.std.specs.Prelude.{◌≡◌, ℕ, List, Option, IfSome};
ghost use Rattle.bcv_base.specs.Drawn.{Draws};

use bcv_base::{Draw, Id16, Names};
use rand_core::TryRng;

/// Names of two words of a generator, the first word first, each with its highest byte first.
///
/// It does not tell the names that it drew: that none comes twice rests on the generator.
#[derive(Drop)]
pub struct RandNames<R> {
    rng: R,
    faults: u64,
}

impl<R: TryRng> RandNames<R> {
    ghost use Rattle.bcv_host.specs.Told.{generator_of, name_faults, AreWords};

    /// Names from a generator.
    pub fn new(rng: R) -> RandNames<R>
        ensures generator { generator_of result ≡ rng }
        ensures faults { name_faults result ≡ 0 }
    {
        RandNames { rng, faults: 0 }
    }

    // The next two words, or `None` where the generator failed.
    fn words(&mut self) -> Option<(u64, u64)>
        ensures words { IfSome result (λ pair. AreWords R.may_next_u64 self.old.rng self.new.rng
            pair.0 pair.1) }
        ensures faults { self.new.faults ≡ self.old.faults }
    {
        let Ok(first) = self.rng.try_next_u64() else {
            return None;
        };
        match self.rng.try_next_u64() {
            Ok(second) => Some((first, second)),
            Err(_) => None,
        }
    }
}

impl<R: TryRng> Names for RandNames<R> {
    ghost use Rattle.bcv_host.specs.Told.{generator_of, name_faults, untold_names, IsDrawn};

    ghost shown = { λ names. untold_names (name_faults names) };

    fn draw(&mut self) -> Draw
        ensures draws { Draws (untold_names (name_faults self.old))
            (untold_names (name_faults self.new)) result }
        ensures words { (id : Id16) → result ≡ Draw.Drawn id
            → IsDrawn R.may_next_u64 (generator_of self.old) (generator_of self.new) id }
    {
        let Some((first, second)) = self.words() else {
            self.faults = self.faults.saturating_add(1);
            return Draw::Failed;
        };
        let mut bytes = [0; 16];
        bytes[..8].copy_from_slice(&first.to_be_bytes());
        bytes[8..].copy_from_slice(&second.to_be_bytes());
        Draw::Drawn(Id16(bytes))
    }
}
