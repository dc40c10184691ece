//! Laws on a client's parts.
//!
//! A client's steps change one part of what it has in memory at a time. This crate says what each change is in the machine's
//! words, and that the client still fits the log of its store afterwards. It stands on what a client is seen as and on the
//! records of its tasks. Each function does nothing: its clauses are laws on plain data, for the proofs of a client to cite.
#![tactic(auto)]

mod fits;
mod forms;
mod starts;
mod steps;
mod tasks;

pub use fits::{manifests_fit, own_entries_fit, publishing_tasks_fit};
pub use forms::databases_stay_in_form;
pub use starts::{new_tasks_are_the_machines, new_tasks_fit, starts_are_as_asked};
pub use steps::{faults_end_as_the_machines, resolves_are_the_machines, steps_are_of_their_tasks};
pub use tasks::{
    numbers_stay_different, other_parts_fit, tasks_are_the_machines, tasks_come_and_go,
};
