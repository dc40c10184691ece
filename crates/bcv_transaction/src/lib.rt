//! The open transactions of one client, and the cache of blocks that they share.
//!
//! It stands on the transactions and the fetch of `bcv_snapshot`, on the cache of `bcv_cache`, and on the uploads of
//! `bcv_upload`, whose steps look for old blocks in the same cache. At most 64 transactions are open, each under the least
//! number from 1 that was free as it began; the cache is made when the first one begins, or before. Contracts say each call
//! exactly over the list of transactions and the list of cached entries. Over a log that the transactions fit they say
//! besides that the call is the machine's: what a page shows, when a block has to be fetched, and when none can come in. A
//! step that reads or holds a page makes at most one get, and says what it does over every store; over a sound log that
//! others grow, that it is the machine's step. All pins in the cache are those of the open transactions. The pages of the
//! local commits are the caller's: each transaction keeps the number of the set that it reads, and is handed that set.
#![tactic(auto)]

mod answers;
mod laws;
mod numbers;
mod open_txn;
mod page;
mod steps;
mod transactions;
mod txn_list;

pub use answers::{Begun, Came, Freed, Stepped};
pub use laws::{calls_keep_fits, oldest_is_least, transactions_are_parts};
pub use transactions::Transactions;
