//! Tests of the public calls of what a client is made of: its disk, journal, notes and log, its cache, its local pages, byte ranges
//! and the keep rule.
//!
//! They stand in a crate of their own, so that no crate below is proved once more for its tests. A test shows that calls
//! succeed where memory is there, and compares their answers with plain forms of the same rules.
#![tactic(auto)]

#[cfg(test)]
mod cache;
#[cfg(test)]
mod clientlog;
#[cfg(test)]
mod disk;
#[cfg(test)]
mod journal;
#[cfg(test)]
mod keeprule;
#[cfg(test)]
mod notes;
#[cfg(test)]
mod pages;
#[cfg(test)]
mod vfs;
