//! What a slot in use holds.
use bcv_base::Id16;

/// A block in a slot: its name, how many pins hold it, and its bytes.
#[derive(Drop)]
pub(crate) struct Held {
    pub(crate) id: Id16,
    pub(crate) count: u32,
    pub(crate) bytes: Vec<u8>,
}
