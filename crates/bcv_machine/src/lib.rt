//! The machine: which replies a client may give to each event, and what each event leaves of the container and of the
//! client.
//!
//! The definitions stand in `specs/`, one module a part. A step is a relation between sides, the container with one
//! client; `Step` puts the client back among the others, and `Run` is a list of steps. It stands on the versions, edits and
//! views of `bcv_base` and on the asks, replies and notes of `bcv_model`. The functions here do nothing: their contracts
//! are laws of the machine alone (`laws.rt`), and worked runs with what is refused of them (`runs.rt`). Nothing runs on it
//! yet: it takes the place of the machine in `bcv_model` when the world stands on the client.
#![tactic(auto)]

mod laws;
mod runs;

pub use laws::{
    commits_leave_only_told, images_stay, one_state_follows, publications_are_single,
    versions_only_grow,
};
pub use runs::{
    cleanup_after_the_retention, contention_over_copies, crash_around_a_commit,
    crash_around_a_publication, lost_answer_is_resolved, pins_fill_the_cache,
    second_upload_conflicts,
};
