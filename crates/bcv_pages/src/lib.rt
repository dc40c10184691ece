//! The pages that clients changed and have not uploaded yet: the commits of a database, and the writes of one
//! transaction until they are a commit.
//!
//! It stands on the images and overlays of `bcv_base` and the `Commit` of `bcv_model`. A `PageSet` promises that every
//! page, size and list of blocks that it answers is that of the image which the view's commits make of any base image;
//! it builds no image. A `WriteTxn` promises that what it ends as is the commit of the writes that stand.
#![tactic(auto)]

mod fronts;
mod page_index;
mod page_set;
mod search;
mod size_minima;
mod write_txn;

pub use page_set::PageSet;
pub use search::PageAt;
pub use write_txn::{WriteFault, WriteTxn};
