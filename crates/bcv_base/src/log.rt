use crate::id::Id16;
use crate::object::ObjName;
use crate::seq::Seq;

/// One entry of a store's log: bytes that were put under a name, or the deletion of a name.
///
/// `own` says that a call on the store at hand made the entry. `at` is the moment by which the caller decided to
/// delete, in the clock's seconds.
#[derive(Drop)]
pub enum Entry {
    Put {
        own: bool,
        name: ObjName,
        bytes: Seq<u8>,
        etag: u64,
    },
    Deleted {
        own: bool,
        name: ObjName,
        at: u64,
    },
}
