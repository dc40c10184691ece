//! What the calls answer.
use bcv_base::Id16;

/// What a begin answers: the transaction's number, that 64 are open, or out of memory.
#[derive(Clone, Copy, Debug, PartialEq, Eq)]
pub enum Begun {
    Number(u8),
    TooMany,
    NoMemory,
}

/// What a read or a hold answers without a request: the page's bytes, of a read; that the page's block is held, of a
/// hold; the id of the page's block, which is not in the cache and can come in; that it cannot, since no slot is free and
/// all entries are pinned; that the image has no such page; that no such transaction is open; or out of memory.
#[derive(Debug, Drop)]
pub enum Came {
    Page(Vec<u8>),
    Held,
    Absent(Id16),
    CacheFull,
    BadPage,
    NoTxn,
    NoMemory,
}

/// What a free answers: that the block was held and is let go; that no such transaction is open; that its image has no
/// such page; or that the page's block is not held.
#[derive(Clone, Copy, Debug, PartialEq, Eq)]
pub enum Freed {
    Fine,
    NoTxn,
    BadPage,
    NotHeld,
}

/// What a step that reads or holds a page answers: the page's bytes, of a read; that the page's block is held, of a hold; that
/// the block cannot come in, since no slot is free and all entries are pinned; that the image has no such page; that no such
/// transaction is open; that the store has no such block; that what it has there is of another length, `len` bytes; that the
/// request failed; or out of memory.
#[derive(Debug, Drop)]
pub enum Stepped {
    Page(Vec<u8>),
    Held,
    CacheFull,
    BadPage,
    NoTxn,
    Gone,
    BadBlock { len: u64 },
    StoreFault,
    NoMemory,
}
