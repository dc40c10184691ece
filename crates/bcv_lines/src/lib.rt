//! The lines of an input, one after the other.
//!
//! A line ends with a newline, and the last one may end with the input instead. A reader takes bytes from a source in
//! chunks and hands out each line without its newline. It refuses a line of more than 1,048,576 bytes, and an input of
//! more than 67,108,864, before it has taken much more than that.
#![tactic(auto)]

mod chunk;
mod lines;

pub use chunk::Chunk;
pub use lines::{Lines, Next};
