//! The publish engine: one version appended to a container, or none.
//!
//! It stands on the trait of `bcv_store`, on the manifest's bytes of `bcv_manifest` and on the edits of `bcv_dbmap`. A
//! publication gets the manifest, asks whether its edit may be applied to it, and puts the result in its place where it
//! is still the manifest that was read. Beside it stand the create of a container, the put of a block under a drawn name,
//! and the resolve of a publication whose put was not answered. Over every store that tells its log it promises when each answer comes and what
//! the log has then. Over a sound log that others grow by lawful entries it promises more: what is read is the last
//! manifest, a put appends a version to it or nothing, the log stays sound, and what was put is lawful to every other
//! client that shares no name with this one.
#![tactic(auto)]

mod block_put;
mod created;
mod manifest_append;
mod manifest_create;
mod manifest_get;
mod manifest_put;
mod manifest_read;
mod pending;
mod publish;
mod refused;
mod resolved;
mod unread;
mod work;

pub use block_put::put_named;
pub use created::Created;
pub use manifest_create::create;
pub use pending::resolve;
pub use publish::Publish;
pub use resolved::Resolved;
pub use work::{BlockEnd, PutEnd, Work};
