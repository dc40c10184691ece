//! The task that deletes dead blocks and sweeps them from the delete list, one request a call.
//!
//! It stands on the publication of `bcv_publish`, on the edits and deletions of `bcv_dbmap`, on the caller's rule of
//! `bcv_keeprule` and on the trait of `bcv_store`. A cleanup reads the clock once and then the manifest, takes the
//! first dead blocks that the rule releases at that moment, deletes them one by one, and publishes a manifest whose
//! delete list has them no longer. Over every store each call promises what was taken, what is left, that each step
//! comes nearer to the end, and that a cleanup that was published is complete. Over a store that tells its log it
//! promises when each answer comes and what the log has then. Over a sound log that others grow by lawful entries it
//! promises that the log stays sound and that each deletion is lawful to every other client that shares no name. Of
//! the rule it uses nothing but that it releases no block within its retention.
#![tactic(auto)]

mod cleanup;
mod cleanup_delete;
mod cleanup_get;
mod cleanup_put;
mod cleanup_work;
mod laws;
mod released;

pub use cleanup::Cleanup;
pub use laws::{nothing_is_complete, sweep_is_the_edit, taken_stays};
