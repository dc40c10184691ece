//! What the notes of a whole log come to.

ghost use Rattle.std.specs.Prelude.{◌≡◌, IfOk};
ghost use Rattle.bcv_notes.specs.KeptBy.{IsFoldOf, items_of};
ghost use Rattle.bcv_model.specs.Notes.{nothing_kept};

use crate::folding::after_note;
use crate::reading::read_note;
use bcv_base::Seq;
use bcv_model::Kept;
use std::alloc::{AllocError, Global};

/// What the items of a log come to.
#[derive(Drop)]
pub enum Fold {
    /// Each item is a note that may stand where it stands, and this is kept after all of them.
    Kept(Kept),
    /// The item of this number, from 0, is the first that is no note or may not stand there.
    Stops(usize),
}

/// Makes the value of a client that has noted nothing.
pub fn nothing_kept(alloc: Global) -> Kept
    ensures { result ≡ nothing_kept }
{
    Kept {
        me: None,
        locals: Seq::of(Vec::new(alloc)),
        pending: None,
    }
}

/// Folds the items of a log, each as a note that may stand where it stands, to what is kept after them.
pub fn keep_all(alloc: Global, items: &[Vec<u8>]) -> Result<Fold, AllocError>
    ensures { IfOk result (IsFoldOf (items_of items.now)) }
{
    let mut kept = nothing_kept(alloc);
    for place in 0..items.len() {
        let Some(note) = read_note(alloc, &kept, &items[place])? else {
            return Ok(Fold::Stops(place));
        };
        kept = after_note(alloc, kept, note)?;
    }
    Ok(Fold::Kept(kept))
}
