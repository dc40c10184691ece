//! The manifest's put of a publication with the notes around it, in the machine's words.
//!
//! A client notes the intent of a publication, makes the put, and notes what became of it. This crate has the laws that each
//! end of this is a step of the machine, for every kind of publication. It stands on what a client is seen as
//! (`bcv_clientstate`) and on the publishing tasks (`bcv_tasks`), and runs nothing: its laws stand on functions that do
//! nothing.
#![tactic(auto)]

mod laws;

pub use laws::{puts_are_the_machines, tasks_are_publications};
