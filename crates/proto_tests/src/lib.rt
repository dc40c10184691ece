//! Tests of the daemon's messages and answers, byte by byte.
//!
//! They stand in a crate of their own, so that no crate below is proved once more for its tests. The bytes were worked
//! out by hand.
#![tactic(auto)]

#[cfg(test)]
mod answers;
#[cfg(test)]
mod messages;
