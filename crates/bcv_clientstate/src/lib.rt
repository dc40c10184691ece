//! What a client stands for.
//!
//! A client is seen as a client of the machine, by one function of what it keeps in memory and of the store's log. This crate
//! has these functions and the laws on them, and is what the client's steps are said with. It stands on the machine and on the
//! notes of a client's log.
#![tactic(auto)]

mod laws;
mod noting;

pub use laws::{
    base_is_database, base_stays, checks_are_the_machines, crashes_leave_what_is_kept,
    faults_end_publications, growth_is_harmless, known_is_known, local_calls_are_the_machines,
    notes_are_steps, notes_are_the_machines, notes_have_sizes, notes_keep_order,
    outlived_may_be_gone, polls_are_the_machines, puts_are_edits, refusals_are_the_machines,
    resolves_find_the_version, stages_stay, stamps_are_moments, starts_are_the_machines,
    works_are_the_machines,
};
pub use noting::notes_are_journaled;
