use crate::id::Id16;
use crate::name::DbName;
use crate::seq::Seq;

/// What a manifest says of one database: its name, the id of the publication that made this entry, the size of its
/// pages in bytes, how many pages it has, and the ids of the blocks that hold them, in order.
#[derive(Drop)]
pub struct DbEntry {
    pub name: DbName,
    pub tag: Id16,
    pub page_size: u32,
    pub pages: u32,
    pub blocks: Seq<Id16>,
}

/// A writer's last publication: its id, and the number of the version that it made.
#[derive(Clone, Copy, Debug, PartialEq, Eq)]
pub struct Writer {
    pub id: Id16,
    pub last: Id16,
    pub number: u64,
}

/// A block that no database lists any more, and the moment since when, in the clock's seconds.
#[derive(Clone, Copy, Debug, PartialEq, Eq)]
pub struct Dead {
    pub id: Id16,
    pub stamp: u64,
}

/// One version of a container: its number from 1, its moment, the size of the blocks in bytes, how long a dead block
/// is kept in seconds, the id of its publication, the writers and the dead blocks ascending by id, and the databases
/// ascending by name.
#[derive(Drop)]
pub struct Manifest {
    pub number: u64,
    pub moment: u64,
    pub block: u32,
    pub retention: u64,
    pub id: Id16,
    pub writers: Seq<Writer>,
    pub dbs: Seq<DbEntry>,
    pub dead: Seq<Dead>,
}
