//! Notes of a client's log as bytes, both ways, and what a client keeps by them.
//!
//! Where a note may stand depends on what is kept before it, and so does how a commit is read. So an item is read where
//! something is kept: as the one note that may stand there and has these bytes, or as none. It stands on the entries of
//! `bcv_manifest` and on the notes and their fold in `bcv_model`, and on no disk: the client's log keeps these bytes in
//! a journal. The fewest notes that come to what is kept (`kept_items`) are what a long log is written anew with.
#![tactic(auto)]

mod fields;
mod folding;
mod keeping;
mod kept_notes;
mod laws;
mod locals;
mod parts;
mod reading;
mod stop;
mod writing;

pub use folding::after_note;
pub use keeping::{Fold, keep_all, nothing_kept};
pub use kept_notes::{kept_items, kept_size};
pub use laws::{folds_once, kept_again, size_grows, sizes_add, sizes_agree, texts_differ};
pub use reading::read_note;
pub use writing::{
    committed_note, done_note, first_note, intent_note, me_note, revert_note, void_note,
};
