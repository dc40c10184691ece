use bcv_base::Seq;
use bcv_model::{Commit, Local};
use bcv_pages::PageSet;

/// The memory that a commit takes. It was taken for one commit of one database, and serves until the databases change.
#[derive(Drop)]
pub enum ReadyCommit {
    /// For a database's first commit.
    First(FirstReady),
    /// For one more commit of a database with commits: a copy of it.
    Later(Commit),
}

/// What a database's first commit takes: a copy of the commit, a set with room for it, a place for the set, and room for the
/// databases with commits and one more.
#[derive(Drop)]
pub struct FirstReady {
    pub(crate) commits: Seq<Commit>,
    pub(crate) set: PageSet,
    pub(crate) place: usize,
    pub(crate) locals: Vec<Local>,
}
