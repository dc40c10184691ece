use bcv_base::{DbName, Seq};

/// A client's change of a database: its size after it, in pages, and the pages that it writes, ascending by number.
///
/// A page is the bytes of one page of the database.
#[derive(Drop)]
pub struct Commit {
    pub size: u32,
    pub pages: Seq<(u32, Seq<u8>)>,
}

/// What a client may be asked. Transactions and tasks go by the numbers that the client gave them, pages by their
/// numbers from 1.
#[derive(Drop)]
pub enum Ask {
    Begin(DbName),
    Read {
        txn: u8,
        page: u32,
    },
    Hold {
        txn: u8,
        page: u32,
    },
    Look {
        txn: u8,
        page: u32,
    },
    Free {
        txn: u8,
        page: u32,
    },
    End {
        txn: u8,
    },
    Commit {
        db: DbName,
        commit: Commit,
    },
    Revert(DbName),
    List,
    Create {
        block: u32,
        retention: u64,
    },
    NewDb {
        db: DbName,
        page_size: u32,
        pages: Seq<Seq<u8>>,
    },
    Upload(DbName),
    Copy {
        from: DbName,
        to: DbName,
    },
    Remove(DbName),
    Poll,
    Cleanup,
    Resolve,
    Step {
        task: u8,
    },
}
