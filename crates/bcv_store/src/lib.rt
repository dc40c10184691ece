//! The trait of an object store: conditional requests over a log that only grows.
//!
//! It stands on the names, outcomes and log entries of `bcv_base`. A store may tell its log: then each request says which
//! entries others appended before it, what it appended itself, and exactly when each of its answers comes, of the log with
//! the entries of the others. It may tell that it is alone, and what outcomes are planned for its requests. Over every
//! store a request fails only where the store's count of faults rose.
#![tactic(auto)]

mod store;

pub use store::{Cond, Del, Got, Listed, Put, Store};
