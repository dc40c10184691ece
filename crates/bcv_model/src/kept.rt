use crate::ask::Commit;
use bcv_base::{DbEntry, Id16, Seq};

/// A database with commits that were not uploaded yet: the entry and number of its base, the container's block size
/// in bytes, and the commits in order.
#[derive(Drop)]
pub struct Local {
    pub entry: DbEntry,
    pub number: u64,
    pub block: u32,
    pub commits: Seq<Commit>,
}

/// What a pending upload publishes: how many of the database's commits, the block size, and the entry.
#[derive(Drop)]
pub struct Uploading {
    pub count: u64,
    pub block: u32,
    pub entry: DbEntry,
}

/// A publication of which it isn't known yet whether it was made.
#[derive(Drop)]
pub struct PendingPub {
    pub id: Id16,
    pub upload: Option<Uploading>,
}

/// What a client keeps through a crash: its id, the databases with commits, ascending by name, and the pending
/// publication.
#[derive(Drop)]
pub struct Kept {
    pub me: Option<Id16>,
    pub locals: Seq<Local>,
    pub pending: Option<PendingPub>,
}
