//! A store in memory that tells its log.
//!
//! It stands on the trait of `bcv_store`. The log is kept whole, with an index of the objects and a count of the
//! manifest's puts beside it, so that nothing walks the log. Each request meets the trait with the outcome that was
//! planned for it, and no one else appends to the log.
#![tactic(auto)]

mod history;
mod mem_store;
mod odd_store;
mod places;
mod plan;

pub use mem_store::MemStore;
pub use odd_store::{OddStore, Oddity};
