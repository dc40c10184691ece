/// What a look shows: the bytes of a page, lent by the commits or by the cache; a page of zeros; that the image has no
/// such page; that there is no such transaction, which no transaction says of itself; or that the page's block is not
/// held.
#[derive(Clone, Copy, Debug, PartialEq, Eq)]
pub enum Look<'a> {
    Page(&'a [u8]),
    Zeros,
    BadPage,
    NoTxn,
    NotHeld,
}
