use bcv_base::Id16;
use bcv_cache::Slot;

/// Where a page of a transaction is: in the commits; nowhere, since it is zeros; in the cached block of this slot; in
/// the block of this id, which is not cached; or that the image has no such page.
#[derive(Clone, Copy, Debug, PartialEq, Eq)]
pub enum Place {
    Local,
    Zeros,
    Cached(Slot),
    Absent(Id16),
    BadPage,
}
