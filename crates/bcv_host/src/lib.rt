//! The real outside of a client: a folder that is opened, a file as its disk, the system's clock, and random names.
//!
//! It stands on the traits of `bcv_base` and `bcv_disk`, on `rand_core` and on std's files. No contract says what a file, a
//! clock or a source of random bytes gives, so each object here tells nothing of it: it is proved to be safe, to keep to its
//! trait, and to fail only where its own count of faults rose. What a name is made of is said for every source
//! ([`RandNames`]). The rest is shown by tests.
#![tactic(auto)]

mod fault;
mod file_disk;
mod folder;
mod rand_names;
mod random_words;
mod sys_clock;

pub use fault::OpenFault;
pub use file_disk::FileDisk;
pub use folder::open_folder;
pub use rand_names::RandNames;
pub use random_words::RandomWords;
pub use sys_clock::SysClock;
