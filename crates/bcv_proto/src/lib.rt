//! The messages of a daemon's connection and its answers, as bytes.
//!
//! What stands at the front of an input is told exactly: a whole message, the front of one, or bytes that no message
//! begins with. An answer's bytes are written exactly. No message's bytes begin another one's, and no answer's do, so a
//! stream of either is parted in one way.
#![tactic(auto)]

mod answer;
mod fields;
mod kind;
mod laws;
mod message;
mod reading;
mod stop;
mod writing;

pub use answer::Answer;
pub use laws::{
    no_answer_goes_on, no_message_goes_on, one_answer_begins, one_message_begins, one_reading,
    text_is_read_back,
};
pub use message::{Message, Parsed};
pub use reading::read_message;
pub use writing::{rows_fit, write_answer};
