//! Laws on a world of many clients over one store.
//!
//! In a world each client has a place. One of them acts at a time, over a log that nobody else writes meanwhile, and the others
//! stay as they are. This crate says what that is in the machine's words: the state that a world's places and its log stand for,
//! that one client's act is a step of it, and that the other clients still fit the log. It stands on what a client is seen as
//! (`bcv_clientstate`) and on what a client that is down is (`bcv_risen`), and on no client itself. Each function does nothing:
//! its clauses are laws on plain data, for the proofs of a world to cite.
#![tactic(auto)]

mod acts;
mod places;
mod strikes;

pub use acts::{acts_are_steps, places_stay_apart, quiet_acts_are_the_machines};
pub use places::{down_clients_stay, others_stay, places_rise_and_fall, worlds_begin_and_go_on};
pub use strikes::crashes_strike_as_failures;
