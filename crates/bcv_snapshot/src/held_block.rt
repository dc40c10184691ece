use bcv_cache::Pin;

/// A block that a transaction holds: its number in the database, from 0, and the pin on it in the cache.
pub struct HeldBlock {
    pub(crate) number: u32,
    pub(crate) pin: Pin,
}
