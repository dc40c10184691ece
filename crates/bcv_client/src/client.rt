//! What a client is.
use crate::job::Job;
use bcv_base::{Id16, Latest, Seen};
use bcv_disk::Disk;
use bcv_ledger::Ledger;
use bcv_slots::Slot;
use bcv_transaction::Transactions;

/// A client of one container that is up.
#[derive(Drop)]
pub struct Client<D: Disk> {
    // Its id, which is the writer of what it publishes.
    pub(crate) id: Id16,
    // Its log and the databases that it knows.
    pub(crate) ledger: Ledger<D>,
    // What it saw of the container since it is up.
    pub(crate) seen: Seen,
    // The manifest that it read last.
    pub(crate) latest: Option<Latest>,
    // The open transactions with the cache.
    pub(crate) txns: Transactions,
    // The tasks that run.
    pub(crate) tasks: Vec<Slot<Job>>,
    // How many commits it was given since it is up.
    pub(crate) taken: u64,
}
