//! A client's log with the databases that it knows.
//!
//! It stands on a client's log (`bcv_clientlog`), on the databases in memory (`bcv_databases`) and on what a client stands for
//! (`bcv_clientstate`). Each call that notes something takes all memory before the note, and nothing can fail after it: what is
//! kept in memory is what the log's notes come to, exactly where the note stands. Over any disk it promises what is kept and
//! known after each answer, and when each answer comes; over a disk that tells, what a crash at any moment leaves, and that the
//! call is one of the machine's.
#![tactic(auto)]

mod laws;
mod ledger;
mod load;
mod local;
mod publication;
mod shown;
mod where_noted;

pub use laws::{
    ends_keep_fits, found_is_view, lists_are_the_machines, local_notes_may_stand,
    resolves_are_the_machines,
};
pub use ledger::Ledger;
pub use load::LedgerLoad;
