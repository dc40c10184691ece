//! The put of a block under a name that is drawn for it.
ghost use Rattle.std.specs.Prelude.{◌<◌, vec_len, vec_capacity};
ghost use Rattle.std.specs.List.{AllByRecursion};
ghost use Rattle.bcv_base.specs.Ids.{IsId};
ghost use Rattle.bcv_publish.specs.BlockPut.{BlockAnswered, BlockPuts};

use crate::work::BlockEnd;
use bcv_base::{Draw, Id16, Names, ObjName};
use bcv_store::{Cond, Put, Store};
use std::alloc::Global;

/// Puts the bytes of a block under a drawn name, which is added to these ids. This is one request to the store, or none
/// where no name or no memory was had for it. The room for the id is made before the draw, so that no block is put whose
/// name is lost; a put that fails has used its name.
pub fn put_named<S: Store, N: Names>(
    alloc: Global,
    store: &mut S,
    names: &mut N,
    bytes: &[u8],
    ids: &mut Vec<Id16>,
) -> BlockEnd
    ensures puts { BlockPuts S.told (S.shown store.old) (S.shown store.new) (N.shown names.old)
        (N.shown names.new)
        bytes.now ids.old.items result ids.new.items }
    ensures ids { AllByRecursion IsId ids.old.items → AllByRecursion IsId ids.new.items }
    ensures reached { S.reaches store.old store.new }
{
    if ids.reserve(1).is_err() {
        return BlockEnd::NoMemory;
    }
    let id = match names.draw() {
        Draw::Drawn(id) => id,
        Draw::Failed => return BlockEnd::NamesFault,
    };
    let answer = store.put(alloc, &ObjName::Block(id), Cond::Absent, bytes);
    named(answer, id, ids)
}

// How the put of a block under this name ends.
fn named(answer: Put, id: Id16, ids: &mut Vec<Id16>) -> BlockEnd
    requires { vec_len ids.old < vec_capacity ids.old }
    ensures answered { BlockAnswered answer id ids.old.items result ids.new.items }
    ensures ids { AllByRecursion IsId ids.old.items → AllByRecursion IsId ids.new.items }
{
    let _id = id.bytes();
    match answer {
        Put::Stored(_) => match ids.push(id) {
            Ok(()) => BlockEnd::Stored,
            Err(_) => unreachable!(),
        },
        Put::Refused => BlockEnd::NameTaken,
        Put::Failed => BlockEnd::StoreFault,
        Put::NoMemory => BlockEnd::NoMemory,
    }
}
