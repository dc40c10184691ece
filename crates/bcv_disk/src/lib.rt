//! A disk as the journal sees it: bytes that are read, written and cut, and what a crash may leave of them.
//!
//! The trait `Disk` tells, where it tells, what a read gives, a moment that never falls, and which images a crash
//! at some moment since then may leave; between two syncs that is any bytes in what was written or cut. It stands on
//! nothing but the count of faults of `bcv_base`. `MemDisk` is such a disk in memory: it keeps the record of its calls,
//! meets each promise of the trait, and fails and crashes where it was told to.
#![tactic(auto)]

mod disk;
mod memory;
mod platter;
mod tear;

pub use disk::{Disk, DiskEnd, Planned, Size};
pub use memory::MemDisk;
