/// Where a journal's items stand in its file.
#[derive(Clone, Copy, Debug, PartialEq, Eq)]
pub struct Area {
    /// The place of the first item's gate.
    pub start: u64,
    /// The place of the closed gate after the items.
    pub tail: u64,
    /// Whether start 1 is chosen.
    pub second: bool,
}

impl Area {
    /// The area of an empty journal.
    pub const EMPTY: Area = Area {
        start: 17,
        tail: 17,
        second: false,
    };
}
