//! What was seen of a container, by what a client keeps.
ghost use Rattle.std.specs.Prelude.{◌≡◌, max};
ghost use Rattle.std.specs.Option.{option_map};
ghost use Rattle.bcv_risen.specs.SeenBases.{first_block, greatest_base, seen_in};

use bcv_base::Seen;
use bcv_model::{Kept, Local};

// The greatest number of a base, or 0 where no database has commits.
fn greatest_base(locals: &[Local]) -> u64
    ensures { result ≡ greatest_base locals.now }
{
    let mut number = 0u64;
    let mut rest = locals;
    while let Some((local, after)) = rest.split_first() {
        number = number.max(local.number);
        rest = after;
    }
    number
}

// The block size of the databases with commits, where there are some.
fn first_block(locals: &[Local]) -> Option<u32>
    ensures { result ≡ first_block locals.now }
{
    match locals.first() {
        Some(local) => Some(local.block),
        None => None,
    }
}

/// What was seen of the container, by the bases of the databases with commits.
pub(crate) fn seen_in(kept: &Kept) -> Seen
    ensures { result ≡ seen_in kept.now }
{
    let locals = kept.locals.items();
    Seen {
        block: first_block(locals),
        number: greatest_base(locals),
    }
}
