use crate::ask::Commit;
use crate::kept::PendingPub;
use bcv_base::{DbEntry, DbName, Id16};

/// One entry of a client's log. What a client keeps is what its notes come to, in order.
#[derive(Drop)]
pub enum Note {
    /// The client's own id.
    Me(Id16),
    /// A database's first commit, with the entry and number of its base and the container's block size in bytes.
    First {
        entry: DbEntry,
        number: u64,
        block: u32,
        commit: Commit,
    },
    /// One more commit of a database.
    Committed {
        db: DbName,
        commit: Commit,
    },
    /// A publication that is about to be tried.
    Intent(PendingPub),
    /// The pending publication was made, as the version of this number.
    Done {
        id: Id16,
        number: u64,
    },
    /// The pending publication was not made.
    Void(Id16),
    /// A database's commits are given up.
    Revert(DbName),
}
