//! What a person gives to a command: its words, and its input.
//!
//! The words of a command are read exactly, both ways, and take no memory. The input of `new` is read page by page, and its
//! form is tested once it has ended; the input of `commit` is read line by line, and the first line that is none ends it.
#![tactic(auto)]

mod arguments;
mod block_size;
mod command;
mod database_file;
mod filling;
mod pages;
mod pairs;
mod status;
mod words;

pub use command::Command;
pub use database_file::{DatabaseFile, FileFault, read_file};
pub use pairs::{PairsFault, read_pairs};
pub use status::{Status, What};
pub use words::read_words;
