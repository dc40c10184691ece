//! The poll: a look at the last manifest of a container.
//!
//! It stands on the trait of `bcv_store`, on the manifest's bytes of `bcv_manifest` and on what `bcv_publish` says of a
//! request. Over every store that tells its log it promises when each answer comes. Over a sound log that others grow by
//! lawful entries it promises that what is new is the last manifest, and that nothing is new exactly where the manifest
//! that is kept is still the last one.
#![tactic(auto)]

mod manifest_poll;
mod polled;

pub use manifest_poll::poll;
pub use polled::Polled;
