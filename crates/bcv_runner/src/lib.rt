//! The run of a command over a client.
//!
//! The input of `new` and of `commit` is read first. Then the client of the disk comes up, is asked what the command asks, and
//! goes down; and the last reply's line, or the bytes that were read, are written. What a run promises is said by the talk with
//! the client: which asks were made, by the replies, and which status and output they come to.
#![tactic(auto)]

mod asks;
mod ending;
mod filling;
mod operation;
mod output;
mod publishing;
mod reading;
mod run;

pub use ending::Ending;
pub use operation::Operation;
pub use run::{Ran, run_command};
