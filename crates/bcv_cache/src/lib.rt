//! A cache of blocks in memory, in the order of their last use, whose blocks can be pinned.
//!
//! It stands on `bcv_base` for the names of blocks and on `lru` for their order. Contracts see a cache as the list of
//! its entries, the most recently found or filled first, and each call as one step of that list. A block that is
//! pinned stays, with its bytes, until each of its pins was given back; a `Pin` cannot be let go otherwise.
#![tactic(auto)]

mod cache;
mod fill;
mod held;
mod pin;

pub use cache::BlockCache;
pub use pin::{Pin, Slot};
