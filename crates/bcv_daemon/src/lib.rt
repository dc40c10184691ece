//! The sessions of a daemon's connection, over one client.
//!
//! A peer sends messages, each in a session whose number it chooses. A session has at most one read transaction, and all of
//! them share the client's cache. Each message is answered in order, and answers are written in whole messages. When a
//! connection ends, the transactions of its sessions end with it, and the client stays for the next one.
#![tactic(auto)]

mod answering;
mod asking;
mod connection;
mod connections;
mod daemon;
mod replies;
mod responses;
mod serving;
mod sessions;

pub use connection::ServeEnd;
pub use connections::serve_connections;
pub use daemon::Daemon;
pub use serving::serve_top;
