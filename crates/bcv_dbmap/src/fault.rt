use bcv_base::Id16;

/// Why an edit cannot be published over a manifest.
#[derive(Clone, Copy, Debug, PartialEq, Eq)]
pub enum EditFault {
    /// The manifest's number is the last one.
    VersionsFull,
    /// The name of the new database is listed.
    Exists,
    /// The pages are larger than a block.
    PageTooLarge,
    /// The pages need more than 65,536 blocks.
    TooLarge,
    /// 1,024 databases are listed.
    TooManyDatabases,
    /// The database is not listed.
    NoDatabase,
    /// The database has another tag than the one on which the upload stands.
    Conflict { mine: Id16, theirs: Id16 },
    /// The writer is new, and 4,096 writers are there.
    WritersFull,
    /// The result would have more than 1,048,576 dead blocks.
    DeleteListFull,
    /// The result would have more than 64 MiB.
    ManifestTooLong,
}
