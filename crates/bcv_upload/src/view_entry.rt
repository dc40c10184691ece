//! The entry that a view makes of its base.
ghost use Rattle.std.specs.Prelude.{◌≡◌, ◌≤◌, ◌<◌, [], length, map, IfOk};
ghost use Rattle.std.specs.List.{AllByRecursion, range_with_len};
ghost use Rattle.bcv_base.specs.declared.seen.TxnBase.{TxnBase};
ghost use Rattle.bcv_base.specs.SizeLimits.{most_blocks};
ghost use Rattle.bcv_upload.specs.State.{IsBase, entry_with, ids_with, needed};

use bcv_base::{DbEntry, Id16, Seq, TxnBase, blocks_needed};
use std::alloc::{AllocError, Global};

// The id in the place of a block that is still to be put.
const ZERO: Id16 = Id16([0; 16]);

/// The entry of a view of this size, in pages, with zeros for each block that holds a local page.
pub(crate) fn view_entry(
    alloc: Global,
    base: &TxnBase,
    size: u32,
    touched: &[u32],
    id: Id16,
) -> Result<DbEntry, AllocError>
    requires base { IsBase base.now }
    requires few { needed base.now size ≤ most_blocks }
    requires within { AllByRecursion (λ n. n < needed base.now size) touched.now }
    ensures { IfOk result (λ e. e ≡ entry_with base.now size touched.now [] id) }
{
    let needed = blocks_needed(base.block, base.entry.page_size, size) as usize;
    let blocks = kept_ids(alloc, base.entry.blocks.items(), touched, needed)?;
    Ok(DbEntry {
        name: base.entry.name,
        tag: id,
        page_size: base.entry.page_size,
        pages: size,
        blocks: Seq::of(blocks),
    })
}

// The ids of so many blocks: those of the base, and zeros for the touched ones.
fn kept_ids(
    alloc: Global,
    base: &[Id16],
    touched: &[u32],
    needed: usize,
) -> Result<Vec<Id16>, AllocError>
    requires within { AllByRecursion (λ n. n < needed) touched.now }
    ensures { IfOk result (λ ids. ids.items ≡ ids_with base.now touched.now [] needed) }
{
    let kept = base.len().min(needed);
    let mut ids = Vec::with_capacity(alloc, needed)?;
    ids.extend_from_slice(&base[..kept])?;
    ids.resize(needed, ZERO)?;
    for number in touched {
        ids[*number as usize] = ZERO;
    }
    Ok(ids)
}

/// The same base once more.
pub(crate) fn copy_base(alloc: Global, base: &TxnBase) -> Result<TxnBase, AllocError>
    ensures { IfOk result (λ b. b ≡ base.now) }
{
    let mut blocks = Vec::with_capacity(alloc, base.entry.blocks.items().len())?;
    blocks.extend_from_slice(base.entry.blocks.items())?;
    Ok(TxnBase {
        entry: DbEntry {
            name: base.entry.name,
            tag: base.entry.tag,
            page_size: base.entry.page_size,
            pages: base.entry.pages,
            blocks: Seq::of(blocks),
        },
        number: base.number,
        block: base.block,
        from: base.from,
        to: base.to,
    })
}
