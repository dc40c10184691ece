use bcv_base::DbEntry;

/// A known database without commits: its entry, the number of the version that listed it, and the size of that version's
/// blocks in bytes.
#[derive(Drop)]
pub struct Known {
    pub entry: DbEntry,
    pub number: u64,
    pub block: u32,
}
