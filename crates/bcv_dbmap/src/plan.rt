use bcv_base::{DbEntry, DbName, Id16, Seq};

/// An edit of a manifest that is to be published.
#[derive(Drop)]
pub enum EditPlan {
    /// A new database. Its tag is ignored: what is published is tagged with the publication's id.
    New(DbEntry),
    /// Another content of a database. `from` is the tag that it is to have before; the entry's own tag is ignored.
    Upload { from: Id16, entry: DbEntry },
    /// A database of a new name that shares all blocks of another one.
    Copy { from: DbName, to: DbName },
    /// The name is listed no longer.
    Remove { name: DbName },
    /// These ids leave the delete list.
    Sweep { ids: Seq<Id16> },
}
