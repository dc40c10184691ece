use bcv_base::DbEntry;

/// A database that a client knows: its entry, the number of the version that listed it, the size of that version's blocks
/// in bytes, and its commits, `None` where it has none.
#[derive(Clone, Copy)]
pub struct DatabaseView<'a> {
    pub entry: &'a DbEntry,
    pub number: u64,
    pub block: u32,
    pub commits: Option<CommitsAt>,
}

/// Where a database's commits are: in the set of a place, numbered from `from` + 1 to `to`.
#[derive(Clone, Copy, Debug, PartialEq, Eq)]
pub struct CommitsAt {
    pub set: usize,
    pub from: u64,
    pub to: u64,
}
