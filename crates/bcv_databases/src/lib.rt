//! The databases that a client knows, in memory.
//!
//! A client keeps databases with commits of its own through a crash, knows others as the last poll saw them, and has the
//! pages of its commits in sets that open transactions go on reading. This crate holds the three together, and changes them
//! without failing once a note of the client's log stands. It stands on the notes and their fold in `bcv_model` and on the
//! page sets of `bcv_pages`, on no store and no disk. What is kept after a call is what the fold of the call's note says; no
//! call changes what a view of a set shows.
#![tactic(auto)]

mod copies;
mod database_view;
mod databases;
mod known;
mod laws;
mod loading;
mod locals;
mod named;
mod ready;
mod rows;
mod set_slots;
mod set_use;
#[cfg(test)]
mod tests;
mod uploaded;

pub use copies::known_in;
pub use database_view::{CommitsAt, DatabaseView};
pub use databases::Databases;
pub use known::Known;
pub use laws::folds_are_loaded;
pub use ready::{FirstReady, ReadyCommit};
pub use set_use::SetUse;
