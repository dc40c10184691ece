//! A client that comes up from its disk.
//!
//! What a client keeps through a crash stands in the log on its disk. This crate loads it, gives a client that has none yet its
//! id, which it draws and notes, and tells what was seen of the container by what is kept. It stands on a client's ledger
//! (`bcv_ledger`) and on the laws of a client's parts (`bcv_clientlaws`), and needs no store. Over any disk and any source of
//! names it promises what is kept and seen then, and when each fault comes; over a disk that tells, that a crash at any moment
//! of the call leaves what was kept or that with the id, and that the client which comes up is the machine's.
#![tactic(auto)]

mod client_rise;
mod laws;
mod risen;
mod seen;

pub use client_rise::rise;
pub use laws::crashes_leave_clients_down;
pub use risen::{RiseFault, Risen};
