//! A script's lines as events, and what is said of an event as text.
//!
//! The grammar of the lines and the texts of the replies are definitions of `bcv_model`. Reading answers what a line
//! writes, and a bad line exactly where the grammar has none, with the place of the first word that cannot stand; writing
//! adds exactly the text of what is said. Both are linear in the bytes that they read or write.
#![tactic(auto)]

mod act;
mod fault;
mod names;
mod number;
mod page;
mod reading;
mod stop;
mod verb;
mod words;
mod world;
mod writing;

pub use fault::LineFault;
pub use number::number_in;
pub use reading::{read_line, read_pair, read_world};
pub use writing::{add_number, write_reply, write_text};
