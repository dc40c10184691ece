//! The first manifest of a container.

ghost use Rattle.std.specs.Prelude.{◌≡◌, true, IfOk};
ghost use Rattle.bcv_base.specs.ManifestRules.{is_block_size};
ghost use Rattle.bcv_dbmap.specs.Applied.{first_manifest};

use bcv_base::{Id16, Manifest, Seq, Writer};
use std::alloc::{AllocError, Global};

/// The first manifest of a container: number 1, no database, no dead block, and one writer, whose publication it is.
///
/// `block` is the size of the blocks in bytes, `retention` how long a dead block is kept and `moment` the clock's
/// moment, both in seconds; `id` is the publication's.
pub fn first(
    alloc: Global,
    block: u32,
    retention: u64,
    id: Id16,
    writer: Id16,
    moment: u64,
) -> Result<Manifest, AllocError>
    requires { is_block_size block ≡ true }
    ensures { IfOk result (λ m. m ≡ first_manifest block retention id writer moment) }
{
    let mut writers = Vec::with_capacity(alloc, 1)?;
    writers.push(Writer {
        id: writer,
        last: id,
        number: 1,
    })?;
    Ok(Manifest {
        number: 1,
        moment,
        block,
        retention,
        id,
        writers: Seq::of(writers),
        dbs: Seq::of(Vec::new(alloc)),
        dead: Seq::of(Vec::new(alloc)),
    })
}
