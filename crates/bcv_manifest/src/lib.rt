//! Manifests and their databases' entries as bytes, both ways. What is read is the one spelling of a value that meets
//! the rules; other bytes are refused at the first field at fault. What is written is that spelling. Stands on the
//! grammar and the rules in `bcv_base`.
#![tactic(auto)]

mod blocks;
mod fault;
mod fields;
mod items;
mod reading;
mod rules;
mod writing;

pub use fault::{Bad, ReadFault};
pub use reading::{read_entry, read_manifest};
pub use writing::{write_entry, write_manifest};
