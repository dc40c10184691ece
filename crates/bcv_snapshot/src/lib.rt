//! Reading one fixed image of a database through the cache of blocks.
//!
//! It stands on the trait of `bcv_store`, on the cache of `bcv_cache` and on the local pages of `bcv_pages`. `fetch` brings
//! one block into the cache by one get, and makes no request for a block that is there. Over every store that tells its
//! log it promises when each answer comes; over a sound log, that the bytes are those first put under the id, and why a
//! block is missing. A [`Txn`] reads the image of its base with the commits of its view, and holds blocks of it in the
//! cache. It promises where each page is and what it shows; the law in [`laws`] says that no call in between changes that.
#![tactic(auto)]

mod block_fetch;
mod fetched;
mod held_block;
pub mod laws;
mod look;
mod place;
mod txn;

pub use block_fetch::fetch;
pub use fetched::Fetched;
pub use look::Look;
pub use place::Place;
pub use txn::Txn;
