//! The table of writers.

ghost use Rattle.std.specs.Prelude.{◌≡◌, ◌≤◌, ◌&&◌, ◌++◌, ◌∷◌, IfOk, take, drop, length, is_some, is_none, nat_lt, nat_le};
ghost use Rattle.bcv_base.specs.Keyed.{keyed, with_keyed};
ghost use Rattle.bcv_base.specs.ManifestRules.{Ascends, writer_id};
ghost use Rattle.bcv_base.specs.declared.manifest.Writer.{Writer};

use bcv_base::{Id16, Writer};
use std::alloc::{AllocError, Global};

// Whether the table has the writer.
fn has_writer(writers: &[Writer], id: &Id16) -> bool
    ensures { result ≡ is_some (keyed writer_id id.now.0 writers.now) }
{
    for writer in writers {
        if writer.id.same_as(id) {
            return true;
        }
    }
    false
}

/// How many lines the table has with the writer's.
pub(crate) fn line_count(writers: &[Writer], id: &Id16) -> usize
    requires order { Ascends writer_id writers.now }
    requires few { length writers.now ≤ 4096 }
    ensures count { (w : Writer) → w.id ≡ id.now → result
        ≡ length (with_keyed writer_id w writers.now) }
    ensures small { result ≤ 4097 }
    ensures full { nat_lt 4096 result ≡ (is_none (keyed writer_id id.now.0 writers.now)
        && nat_le 4096 (length writers.now)) }
{
    if has_writer(writers, id) {
        writers.len()
    } else {
        writers.len() + 1
    }
}

// Where the writer's line stands or would stand, and where the later ones begin.
fn line_of(writers: &[Writer], id: &Id16) -> (usize, usize)
    ensures order { result.0 ≤ result.1 }
    ensures within { result.1 ≤ length writers.now }
    ensures place { (w : Writer) → w.id ≡ id.now → with_keyed writer_id w writers.now
        ≡ take result.0 writers.now ++ w ∷ drop result.1 writers.now }
{
    for place in 0..writers.len() {
        let order = writers[place].id.cmp(id);
        if order.is_eq() {
            return (place, place + 1);
        }
        if order.is_gt() {
            return (place, place);
        }
    }
    (writers.len(), writers.len())
}

/// The table with a writer's line, which stands over the one that he had.
pub(crate) fn with_line(
    alloc: Global,
    line: Writer,
    writers: &[Writer],
) -> Result<Vec<Writer>, AllocError>
    ensures { IfOk result (λ v. v.items ≡ with_keyed writer_id line writers.now) }
{
    let (place, later) = line_of(writers, &line.id);
    let mut after = Vec::with_capacity(alloc, writers.len() + 1)?;
    after.extend_from_slice(&writers[..place])?;
    after.push(line)?;
    after.extend_from_slice(&writers[later..])?;
    Ok(after)
}
