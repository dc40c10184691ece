//! The tasks that publish a new database, a copy and a removal, one request a call.
//!
//! It stands on the publication of `bcv_publish`, on the edits of `bcv_dbmap` and on the trait of `bcv_store`. A task reads
//! the manifest, puts the blocks of a new database one by one under names that are drawn for them, and publishes its edit.
//! Over every store each call promises what the task keeps, which names were drawn and how many requests are left, and that
//! each step comes nearer to the end. Over a store that tells its log it promises when each answer comes and what the log
//! has then. Over a sound log that others grow by lawful entries it promises that the log stays sound, that what was put is
//! lawful to every other client that shares no name, that the blocks stay there unlisted until they are published, and that
//! what is published then is exactly the pages that were handed in.
#![tactic(auto)]

mod blocks;
mod laws;
mod plan;
mod task;
mod task_put;
mod task_work;

pub use laws::{blocks_are_the_pages, blocks_stay, steps_fall};
pub use plan::CopyPlan;
pub use task::CopyTask;
