//! A world of many clients over one store in memory: a script's events, one after the other.
//!
//! Each client has a place, where it is up or where its disk lies while it is down. One of them acts at a time, and nobody else
//! writes to the store meanwhile. It stands on the client (`bcv_client`), on the laws of a world (`bcv_worldlaws`), on a store, a
//! clock and names that are numbers, and on a disk in memory. It promises that each event of a script's line may be applied.
#![tactic(auto)]

mod lines;
mod place;
mod tally;
mod world;

pub use lines::lines_keep;
pub use tally::Tally;
pub use world::World;
