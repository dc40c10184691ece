use bcv_base::{DbName, Seq};

/// What a task publishes.
#[derive(Drop)]
pub enum CopyPlan {
    /// A new database of these pages, each of the page size in bytes.
    New {
        name: DbName,
        page_size: u32,
        pages: Seq<Seq<u8>>,
    },
    /// A database of a new name that shares all blocks of another one.
    Copy {
        from: DbName,
        to: DbName,
    },
    /// The name is listed no longer.
    Remove {
        name: DbName,
    },
}
