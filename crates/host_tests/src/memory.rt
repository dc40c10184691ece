use bcv_base::{Id16, ObjName, Seq};
use bcv_dirstore::{DirStore, MemFolder, stored_is_found};
use bcv_store::{Cond, Del, Got, Listed, Put, Store};
use std::alloc::Global;
use std::test::Fail;

const BLOCK: ObjName = ObjName::Block(Id16([9; 16]));

// What the first put of a manifest answers where the call after so many of the folder fails, and a get after it.
fn struck(alloc: Global, calls: u32) -> (Put, Got) {
    let mut folder = MemFolder::new(alloc);
    folder.fail(calls);
    let mut store = DirStore::new(folder);
    let answer = store.put(alloc, &ObjName::Manifest, Cond::Absent, b"m");
    let mut into = Vec::new(alloc);
    let found = store.get(alloc, &ObjName::Manifest, None, &mut into, 1);
    (answer, found)
}

#[test]
fn each_call_of_a_put_fails_in_turn(rt: HostRuntime) -> Result<(), Fail> {
    let rows = [
        (0, Put::Failed, Got::Missing),
        (1, Put::Failed, Got::Missing),
        (2, Put::Failed, Got::Missing),
        (3, Put::Failed, Got::Missing),
        (4, Put::Failed, Got::Missing),
        // The manifest has its name, and only the sync of the names failed.
        (5, Put::Failed, Got::Found(1)),
        (6, Put::Stored(1), Got::Failed),
    ];
    for (calls, answer, found) in rows {
        let (given, then) = struck(rt.alloc(), calls);
        assert_eq!(rt; given, answer, "{calls}");
        assert_eq!(rt; then, found, "{calls}");
    }
    Ok(())
}

#[test]
fn a_folder_in_memory(rt: HostRuntime) -> Result<(), Fail> {
    let alloc = rt.alloc();
    stored_is_found(1, b"x");
    let mut folder = MemFolder::new(alloc);
    folder.set_file(&BLOCK, Seq::of(Vec::from_slice(alloc, b"torn")?))?;
    let mut store = DirStore::new(folder);
    let mut into = Vec::new(alloc);
    assert_eq!(rt; store.get(alloc, &BLOCK, None, &mut into, 9), Got::Failed);
    assert_eq!(rt; store.put(alloc, &BLOCK, Cond::Absent, b"x"), Put::Refused);
    assert_eq!(rt; store.put(alloc, &BLOCK, Cond::Match(1), b"x"), Put::Failed);
    let mut ids = Vec::new(alloc);
    assert_eq!(rt; store.list(alloc, None, &mut ids), Listed::End);
    assert_eq!(rt; ids.len(), 1);
    assert_eq!(rt; store.delete(alloc, &BLOCK, 0), Del::Done);
    assert_eq!(rt;
        store.put(alloc, &BLOCK, Cond::Absent, b"x"),
        Put::Stored(1)
    );
    assert_eq!(rt; store.get(alloc, &BLOCK, None, &mut into, 9), Got::Found(1));
    assert_eq!(rt; into.as_slice(), b"x".as_slice());
    let mut folder = store.into_folder();
    folder.fail(0);
    let mut store = DirStore::new(folder);
    assert_eq!(rt; store.list(alloc, None, &mut ids), Listed::Failed);
    assert!(rt; ids.is_empty());
    Ok(())
}
