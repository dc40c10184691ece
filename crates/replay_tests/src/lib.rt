//! Tests of the replay: the lines of scripts both ways, and whole scripts with their replies.
//!
//! They stand in a crate of their own, so that no crate below is proved once more for its tests. A test shows that calls
//! succeed where memory is there, and compares their answers with rows that were worked out by hand.
#![tactic(auto)]

#[cfg(test)]
mod crashes;
#[cfg(test)]
mod rows;
#[cfg(test)]
mod script;
#[cfg(test)]
mod scripts;
#[cfg(test)]
mod top;
