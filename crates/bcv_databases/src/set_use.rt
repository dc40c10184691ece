use bcv_base::DbName;

/// Which set has the commits of a database, and the number in it after which they begin.
#[derive(Drop)]
pub struct SetUse {
    pub name: DbName,
    pub set: usize,
    pub from: u64,
}
