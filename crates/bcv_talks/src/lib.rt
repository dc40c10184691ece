//! Laws on talks with a client.
//!
//! A talk is a chain of calls of one client, each ask with its reply (`Talks` of `bcv_client`). What runs commands or serves a
//! connection says which asks it makes by such a talk. This crate says what the talk is in the machine's words: a run with others'
//! entries before each request, for every state for which the client stands as the talk begins; over a store that is alone, a run
//! from side to side. Each function does nothing: its clauses are laws for the proofs above to cite.
#![tactic(auto)]

mod reading;
mod runs;
mod talks;

pub use reading::reads_fetch_what_is_far;
pub use runs::runs_go_on;
pub use talks::{
    talks_are_honest, talks_are_runs, talks_are_runs_alone, talks_begin, talks_join,
    talks_leave_fit,
};
