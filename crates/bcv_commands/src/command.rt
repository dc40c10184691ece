use bcv_base::DbName;

/// A command and its arguments. Sizes and offsets are bytes, a retention is seconds, and a commit's size is in pages.
#[derive(Clone, Copy, Debug, PartialEq, Eq)]
pub enum Command {
    /// Plays the script of the input.
    Replay,
    /// Plays the script that is made from a number.
    Generate(u64),
    Create {
        block: u32,
        retention: u64,
    },
    /// Publishes the database file of the input.
    New(DbName),
    Upload(DbName),
    Copy {
        from: DbName,
        to: DbName,
    },
    /// Removes a database; its word is `drop`.
    Remove(DbName),
    Cleanup,
    Poll,
    Resolve,
    List,
    /// Commits the pages of the input.
    Commit {
        db: DbName,
        size: u32,
    },
    Read {
        db: DbName,
        offset: u64,
        length: u32,
    },
}

// Which command the first word names.
#[derive(Clone, Copy, Debug, PartialEq, Eq)]
pub enum CommandWord {
    Replay,
    Generate,
    Create,
    New,
    Upload,
    Copy,
    Drop,
    Cleanup,
    Poll,
    Resolve,
    List,
    Commit,
    Read,
}
