//! Tests on the real outside: a store in a folder, a client's log over a file, the system's clock and random names.
//!
//! No contract tells what a file keeps, so these tests show it, each in a temporary folder of its own. The forms in memory are
//! tried beside them.
#![tactic(auto)]

#[cfg(test)]
mod disk;
#[cfg(test)]
mod folders;
#[cfg(test)]
mod memory;
#[cfg(test)]
mod outside;
#[cfg(test)]
mod store;
