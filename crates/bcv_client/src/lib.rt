//! A client of one container.
//!
//! It keeps its own commits in a journal on its disk until they are uploaded, reads databases at fixed versions through a cache
//! of blocks, and sees new versions by polls. It stands on a client's log with its databases (`bcv_ledger`), on open transactions
//! with their cache (`bcv_transaction`), on the steps of publications (`bcv_publisher`) and on what a client stands for
//! (`bcv_clientstate`). Each call is one event of the machine: for every log over which the client stands, what it answers is
//! what the machine accepts of what the client was seen as, and what it is seen as afterwards is the machine's state after the
//! event.
#![tactic(auto)]

mod ask_form;
mod byte_ranges;
mod call;
mod client;
mod fetch;
mod job;
mod local;
mod page_reads;
mod planned;
mod poll;
mod publication;
mod publication_put;
mod publication_work;
mod publications;
mod reading;
mod resolve;
mod rising;
mod shown;
mod single_step;
mod starting;
mod starts;
mod step;
mod task_list;
mod trims;

pub use bcv_risen::RiseFault as UpFault;
pub use byte_ranges::ReadAt;
pub use client::Client;
pub use job::{Access, Job};
pub use rising::Up;
