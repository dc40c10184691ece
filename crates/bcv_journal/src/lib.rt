//! A journal of items over a disk that may crash at any moment.
//!
//! It stands on the crash model of `bcv_disk` alone. An item is appended whole or not at all: every image that a crash
//! may leave since the start of an append loads as the items before it, or as those and the new one, and once it is
//! acknowledged as the latter alone. No checksum is trusted: each item lies behind a gate byte that stands closed on
//! the disk until the item is there, and that is opened by a write of its own. A restart puts given items in the place of
//! all: they are laid beside the old ones, and one byte in the head chooses them, so that an image loads as the old items
//! or as the given ones.
#![tactic(auto)]

mod area;
mod fault;
mod item;
mod journal;
mod keep;
mod layout;
mod load;
mod restart;

pub use fault::{JournalFault, Noted};
pub use journal::Journal;
pub use layout::{loads_once, tail_once};
pub use load::Load;
