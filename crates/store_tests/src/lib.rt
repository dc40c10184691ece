//! Tests of the public calls of the crates up to the publish engine: names and streams, manifests, edits, the store in memory
//! and publications over it.
//!
//! They stand in a crate of their own, so that no crate below is proved once more for its tests. A test shows that calls
//! succeed where memory is there, and compares their answers with plain forms of the same rules.
#![tactic(auto)]

#[cfg(test)]
mod base;
#[cfg(test)]
mod dbmap;
#[cfg(test)]
mod manifest;
#[cfg(test)]
mod memstore;
#[cfg(test)]
mod publish;
#[cfg(test)]
mod races;
