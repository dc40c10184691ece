//! The steps of a client's publication, of its resolve and of its poll, over its ledger and a store.
//!
//! A publishing task (`bcv_tasks`) makes one request a step, and a client's ledger (`bcv_ledger`) notes what is to be known
//! after a crash: the intent before the first put, and what became of it. This crate makes the two into one step. A resolve
//! looks up what became of a publication whose put was not answered, and notes it; a poll reads the manifest that is there.
//! Over any store and disk it promises what the ledger keeps and knows after each answer, and when each answer comes. Over a
//! store and a disk that tell, and a sound log that others grow by lawful entries, it promises that the step is the machine's
//! (`bcv_publication`), whatever fails, and that the client fits the log afterwards.
#![tactic(auto)]

mod container_poll;
mod laws;
mod pending_resolve;
mod publication_put;
mod put_end;
mod work_end;

pub use container_poll::poll_step;
pub use laws::{refused_reads_are_seen, requests_are_steps};
pub use pending_resolve::resolve_step;
pub use publication_put::put_step;
pub use work_end::end_work;
