//! Names, images and the traits of the outside, on which every other crate stands.
//!
//! It stands on std, and on the crate `hex` for ids in text. Texts are read and written exactly: a reading answers
//! `None` where the text is no name, and only there. Each trait of the outside ([`Source`], [`Sink`], [`Clock`], [`Names`]) has
//! a count of faults, and a call of it fails exactly where that count rose. Over the forms in memory ([`MemSource`],
//! [`MemSink`], [`SetClock`], [`CountNames`]) contracts also see which bytes, moments or names went by and which calls
//! fail; over the adapters ([`StdSource`], [`StdSink`]) they see the bytes where the reader or writer tells them. No call here takes memory but
//! those that are handed some: a clone, a sink in memory and a writer that allocates.
#![tactic(auto)]

mod clock;
mod count_names;
mod id;
mod layout;
pub mod limits;
mod log;
mod manifest;
mod mem_sink;
mod mem_source;
mod name;
mod names;
mod object;
mod outcome;
mod outside;
mod page_size;
mod plan;
mod seen;
mod seq;
mod set_clock;
mod sink;
mod sizes;
mod source;
mod std_sink;
mod std_source;

pub use clock::{Clock, Now};
pub use count_names::CountNames;
pub use id::{Id16, is_one_of};
pub use layout::manifest_len;
pub use log::Entry;
pub use manifest::{DbEntry, Dead, Manifest, Writer};
pub use mem_sink::MemSink;
pub use mem_source::MemSource;
pub use name::DbName;
pub use names::{Draw, Names};
pub use object::{NameText, ObjName};
pub use outcome::Outcome;
pub use outside::Outside;
pub use page_size::page_size_of;
pub use seen::{Latest, Seen, TxnBase};
pub use seq::Seq;
pub use set_clock::SetClock;
pub use sink::{Gave, Sink};
pub use sizes::{blocks_needed, is_block_size, is_page_size};
pub use source::{Source, Took};
pub use std_sink::StdSink;
pub use std_source::StdSource;
