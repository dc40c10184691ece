//! The task that uploads the local commits of a database, one request a call.
//!
//! It stands on the publication of `bcv_publish`, the edits of `bcv_dbmap`, the local pages of `bcv_pages`, the cache
//! of `bcv_cache` and the trait of `bcv_store`. An upload reads the manifest, puts each block of its view that holds
//! a local page under a name that is drawn for it, and publishes the view as the database's new content; every other
//! block is shared with the base. The old bytes of a block that keeps a page of the base come from the cache or by
//! one get. Over every store each call promises what the upload keeps, which names were drawn and how many requests
//! are left, and that each step comes nearer to the end. Over a store that tells its log it promises when each answer
//! comes and what the log has then. Over a sound log that others grow by lawful entries it promises that the log
//! stays sound, that what was put stays there unlisted until it is published, and that what is published then is
//! exactly the image of the view.
#![tactic(auto)]

mod block_put;
mod block_text;
mod fetch;
mod laws;
mod next_text;
mod upload;
mod upload_put;
mod upload_work;
mod view_entry;

pub use laws::{blocks_hold_the_view, blocks_stay, left_falls, steps_fall, uploaded_is_the_view};
pub use upload::Upload;
