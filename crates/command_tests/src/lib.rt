//! Tests of the words and the inputs of commands.
//!
//! They stand in a crate of their own, so that no crate below is proved once more for its tests. A test shows that calls
//! succeed where memory is there, and compares their answers with rows that were worked out by hand.
#![tactic(auto)]

#[cfg(test)]
mod input;
#[cfg(test)]
mod words;
