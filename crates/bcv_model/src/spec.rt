/// What a script's first line fixes: how many clients there are, the sizes of blocks and pages in bytes, how many
/// seconds a dead block is kept, and how many slots each client's cache has.
#[derive(Clone, Copy, Debug, PartialEq, Eq)]
pub struct WorldSpec {
    pub clients: u8,
    pub block: u32,
    pub page: u32,
    pub retention: u64,
    pub slots: u16,
}
