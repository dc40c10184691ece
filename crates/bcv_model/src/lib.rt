//! The words that everything above speaks: what a client is asked, what it replies, and the machine that says which
//! replies are right.
//!
//! The types are plain data. The definitions of the machine, of a script's lines and of a reply's text stand in
//! `specs/`, one module a part, and know whole images and versions, but no block, no etag and no byte of a manifest.
#![tactic(auto)]

mod ask;
mod event;
mod kept;
mod note;
mod reply;
mod spec;
mod verb;

pub use ask::{Ask, Commit};
pub use bcv_base::Outcome;
pub use event::{Act, Event};
pub use kept::{Kept, Local, PendingPub, Uploading};
pub use note::Note;
pub use reply::{Reply, Row, Said};
pub use spec::WorldSpec;
pub use verb::Verb;
