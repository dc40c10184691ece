use bcv_base::{DbName, Id16, Seq};

/// A known database in a table: the number of its base's version, its size in pages with the commits, and how many
/// commits are local.
#[derive(Drop)]
pub struct Row {
    pub name: DbName,
    pub number: u64,
    pub pages: u32,
    pub commits: u64,
}

/// What a client replies. Docs of the texts say which answer means what; `NoMemory` is the one answer that may come
/// anywhere.
#[derive(Drop)]
pub enum Reply {
    Fine,
    Txn(u8),
    Page(Seq<u8>),
    Task { task: u8, left: u32 },
    Working(u32),
    Held,
    Done(u64),
    Polled(u64),
    Cleaned { deleted: u32, more: bool },
    Resolved(u64),
    Voided,
    Table { rows: Seq<Row>, pending: bool },
    UpAgain { rows: Seq<Row>, pending: bool },
    NoDatabase,
    BadPage,
    NoTxn,
    NotHeld,
    NoTask,
    TooMany,
    CacheFull,
    Nothing,
    Pending,
    Busy,
    HasLocal,
    Exists,
    NoContainer,
    PageTooLarge,
    TooLarge,
    TooManyDatabases,
    Conflict { mine: Id16, theirs: Id16 },
    WritersFull,
    DeleteListFull,
    ManifestTooLong,
    VersionsFull,
    Contended([u64; 8]),
    Gone,
    BadBlock { len: u64 },
    BadManifest { at: u64 },
    NotJournal(u64),
    BadImage(u64),
    NameTaken,
    StoreFault,
    DiskFault,
    NamesFault,
    ClockFault,
    JournalFull,
    Closed,
    Unknown(Id16),
    Down,
    IsUp,
    Crashed,
    NoMemory,
}

/// What is said of an event: the number of the version that was put in it, where one was, and the reply.
#[derive(Drop)]
pub struct Said {
    pub published: Option<u64>,
    pub reply: Reply,
}
