use crate::manifest::{DbEntry, Manifest};

/// What a transaction reads from: the entry of its database, the number of the version that listed it, the size of
/// that version's blocks in bytes, and which local commits lie over it, those numbered from `from + 1` to `to`.
#[derive(Drop)]
pub struct TxnBase {
    pub entry: DbEntry,
    pub number: u64,
    pub block: u32,
    pub from: u64,
    pub to: u64,
}

/// What a client has seen of a container since it is up: the size of its blocks in bytes, or `None` before the first
/// manifest, and the greatest number of a version, or 0.
#[derive(Clone, Copy, Debug, PartialEq, Eq)]
pub struct Seen {
    pub block: Option<u32>,
    pub number: u64,
}

/// The last manifest that was read or put, with its etag in the store.
#[derive(Drop)]
pub struct Latest {
    pub manifest: Manifest,
    pub etag: u64,
}
