//! Tests of the public calls of what a client does over a store: polls, fetches and transactions, uploads and cleanups.
//!
//! They stand in a crate of their own, so that no crate below is proved once more for its tests. A test shows that calls
//! succeed where memory is there, and what they answer over a store in memory.
#![tactic(auto)]

#[cfg(test)]
mod cleanup;
#[cfg(test)]
mod poller;
#[cfg(test)]
mod shared;
#[cfg(test)]
mod snapshot;
#[cfg(test)]
mod upload;
