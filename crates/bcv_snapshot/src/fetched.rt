use bcv_cache::Slot;

/// What a fetch answers: the slot in which the block is; that no slot is free and all are pinned; that the store has no
/// such block; that what it has there is of another length, `len` bytes; that the request failed; or out of memory.
#[derive(Clone, Copy, Debug, PartialEq, Eq)]
pub enum Fetched {
    In(Slot),
    CacheFull,
    Gone,
    BadBlock { len: u64 },
    StoreFault,
    NoMemory,
}
