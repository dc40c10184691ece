//! The log of a client: notes over a journal that may crash at any moment, and that gives up its dead notes.
//!
//! It stands on the notes and their fold in `bcv_notes` and on the journal of `bcv_journal`: a note is one item.
//! What a
//! client keeps is what its notes come to. Every image that a crash may leave while a note is taken comes to what was
//! kept before, or to that with the note; once it is acknowledged, to the latter alone. No contract above this crate
//! speaks of bytes or items. Where more than half of a long log is dead, the next note but an end of a publication
//! has it written anew first, as the fewest notes that come to what is kept.
#![tactic(auto)]

mod compaction;
mod laws;
mod load;
mod log;
mod noting;

pub use laws::loads_once;
pub use load::LogLoad;
pub use log::ClientLog;
