use crate::folders::{fresh, in_folder, remove};
use bcv_base::{Id16, ObjName};
use bcv_dirstore::{DirStore, HostFolder};
use bcv_host::OpenFault;
use bcv_store::{Cond, Del, Got, Listed, Put, Store};
use std::fs;
use std::test::Fail;

type FolderStore = DirStore<HostFolder<HostRuntime>>;

// The block of a number, and the name of its file.
fn block(number: u16) -> ObjName {
    let [high, low] = number.to_be_bytes();
    ObjName::Block(Id16([0, 0, 0, 0, 0, 0, 0, 0, 0, 0, 0, 0, 0, 0, high, low]))
}

const SEVEN: &str = "00000000000000000000000000000007.bcv";

// A store in a folder.
fn opened(rt: &HostRuntime, folder: &str) -> Result<FolderStore, Fail> {
    Ok(DirStore::on(*rt, folder)?)
}

// What a get answers, and the bytes that it leaves.
fn got(rt: &HostRuntime, store: &mut FolderStore, name: &ObjName) -> (Got, Vec<u8>) {
    let mut into = Vec::new(rt.alloc());
    let answer = store.get(rt.alloc(), name, None, &mut into, 100);
    (answer, into)
}

#[test]
fn answers_of_one_store(rt: HostRuntime) -> Result<(), Fail> {
    let alloc = rt.alloc();
    let folder = fresh(&rt, "answers")?;
    let mut store = opened(&rt, &folder)?;
    let name = block(7);
    assert_eq!(rt;
        store.put(alloc, &name, Cond::Absent, b"four"),
        Put::Stored(1)
    );
    assert_eq!(rt;
        store.put(alloc, &name, Cond::Absent, b"more"),
        Put::Refused
    );
    let (answer, bytes) = got(&rt, &mut store, &name);
    assert_eq!(rt; answer, Got::Found(1));
    assert_eq!(rt; bytes.as_slice(), b"four".as_slice());
    let mut into = Vec::new(alloc);
    assert_eq!(rt;
        store.get(alloc, &name, None, &mut into, 3),
        Got::TooLong(4)
    );
    assert_eq!(rt; store.get(alloc, &name, Some(1), &mut into, 3), Got::Same);
    assert_eq!(rt;
        store.get(alloc, &name, Some(2), &mut into, 4),
        Got::Found(1)
    );
    let file = fs::read(&rt, &in_folder(&rt, &folder, SEVEN)?)?;
    assert_eq!(rt; file.as_slice(), b"\0\0\0\0\0\0\0\x01four".as_slice());
    assert_eq!(rt; store.delete(alloc, &name, 5), Del::Done);
    assert_eq!(rt; store.delete(alloc, &name, 5), Del::Done);
    let (answer, _) = got(&rt, &mut store, &name);
    assert_eq!(rt; answer, Got::Missing);
    assert_eq!(rt;
        store.put(alloc, &name, Cond::Match(1), b"four"),
        Put::Refused
    );
    remove(&rt, &folder)
}

#[test]
fn two_stores_put_in_turns(rt: HostRuntime) -> Result<(), Fail> {
    let alloc = rt.alloc();
    let folder = fresh(&rt, "turns")?;
    let (mut one, mut two) = (opened(&rt, &folder)?, opened(&rt, &folder)?);
    let name = ObjName::Manifest;
    assert_eq!(rt; one.put(alloc, &name, Cond::Match(1), b"a"), Put::Refused);
    assert_eq!(rt; one.put(alloc, &name, Cond::Absent, b"a"), Put::Stored(1));
    assert_eq!(rt; two.put(alloc, &name, Cond::Absent, b"b"), Put::Refused);
    assert_eq!(rt; two.put(alloc, &name, Cond::Match(1), b"b"), Put::Stored(2));
    assert_eq!(rt; one.put(alloc, &name, Cond::Match(1), b"c"), Put::Refused);
    assert_eq!(rt; one.put(alloc, &name, Cond::Match(2), b"c"), Put::Stored(3));
    let (answer, bytes) = got(&rt, &mut two, &name);
    assert_eq!(rt; answer, Got::Found(3));
    assert_eq!(rt; bytes.as_slice(), b"c".as_slice());
    remove(&rt, &folder)
}

#[test]
fn torn_files(rt: HostRuntime) -> Result<(), Fail> {
    let alloc = rt.alloc();
    let folder = fresh(&rt, "torn")?;
    let mut store = opened(&rt, &folder)?;
    let name = block(7);
    let path = in_folder(&rt, &folder, SEVEN)?;
    for torn in [b"".as_slice(), b"\0\0\0\0\0\0\0".as_slice()] {
        fs::write(&rt, &path, torn)?;
        let (answer, bytes) = got(&rt, &mut store, &name);
        assert_eq!(rt; answer, Got::Failed);
        assert!(rt; bytes.is_empty());
        assert_eq!(rt; store.put(alloc, &name, Cond::Absent, b"x"), Put::Refused);
        assert_eq!(rt; store.put(alloc, &name, Cond::Match(0), b"x"), Put::Failed);
    }
    fs::write(&rt, &path, b"\0\0\0\0\0\0\0\x05".as_slice())?;
    let (answer, bytes) = got(&rt, &mut store, &name);
    assert_eq!(rt; answer, Got::Found(5));
    assert!(rt; bytes.is_empty());
    fs::write(&rt, &path, b"\xff\xff\xff\xff\xff\xff\xff\xff".as_slice())?;
    assert_eq!(rt; store.put(alloc, &name, Cond::Match(7), b"x"), Put::Refused);
    assert_eq!(rt;
        store.put(alloc, &name, Cond::Match(u64::MAX), b"x"),
        Put::Failed
    );
    remove(&rt, &folder)
}

#[test]
fn no_folder(rt: HostRuntime) -> Result<(), Fail> {
    let folder = fresh(&rt, "none")?;
    let file = in_folder(&rt, &folder, "file")?;
    fs::write(&rt, &file, b"x".as_slice())?;
    let below = in_folder(&rt, &file, "below")?;
    let missing = in_folder(&rt, &folder, "missing")?;
    for path in [&file, &below, &missing] {
        match DirStore::on(rt, path) {
            Ok(_) => return Err(Fail::new("a store")),
            Err(fault) => assert_eq!(rt; fault, OpenFault::NotFolder),
        }
    }
    remove(&rt, &folder)
}

#[test]
fn other_files_are_passed_over(rt: HostRuntime) -> Result<(), Fail> {
    let alloc = rt.alloc();
    let folder = fresh(&rt, "other")?;
    let mut store = opened(&rt, &folder)?;
    for name in [
        "00000000000000000000000000000008.bcv.tmp",
        "0000000000000000000000000000000A.bcv",
        "notes",
        "journal",
    ] {
        fs::write(
            &rt,
            &in_folder(&rt, &folder, name)?,
            b"left by a crash".as_slice(),
        )?;
    }
    assert_eq!(rt;
        store.put(alloc, &ObjName::Manifest, Cond::Absent, b"m"),
        Put::Stored(1)
    );
    assert_eq!(rt;
        store.put(alloc, &block(8), Cond::Absent, b"b"),
        Put::Stored(1)
    );
    let mut ids = Vec::new(alloc);
    assert_eq!(rt; store.list(alloc, None, &mut ids), Listed::End);
    assert_eq!(rt; ids.len(), 1);
    let (answer, bytes) = got(&rt, &mut store, &block(8));
    assert_eq!(rt; answer, Got::Found(1));
    assert_eq!(rt; bytes.as_slice(), b"b".as_slice());
    remove(&rt, &folder)
}

#[test]
fn lists_in_parts(rt: HostRuntime) -> Result<(), Fail> {
    let alloc = rt.alloc();
    let folder = fresh(&rt, "lists")?;
    let mut store = opened(&rt, &folder)?;
    for number in 0..1030 {
        assert_eq!(rt;
            store.put(alloc, &block(number), Cond::Absent, b""),
            Put::Stored(1)
        );
    }
    let mut ids = Vec::new(alloc);
    assert_eq!(rt; store.list(alloc, None, &mut ids), Listed::More);
    assert_eq!(rt; ids.len(), 1024);
    let Some(last) = ids.last().copied() else {
        return Err(Fail::new("no id"));
    };
    assert!(rt; ObjName::Block(last).same_as(&block(1023)));
    assert_eq!(rt; store.list(alloc, Some(&last), &mut ids), Listed::End);
    assert_eq!(rt; ids.len(), 6);
    remove(&rt, &folder)
}

#[test]
fn a_manifest_syncs_what_was_put(rt: HostRuntime) -> Result<(), Fail> {
    let alloc = rt.alloc();
    let folder = fresh(&rt, "syncs")?;
    let mut store = opened(&rt, &folder)?;
    let manifest = ObjName::Manifest;
    for number in 0..3 {
        let _ = store.put(alloc, &block(number), Cond::Absent, b"block");
    }
    assert_eq!(rt; store.folder().syncs(), 0);
    assert_eq!(rt;
        store.put(alloc, &manifest, Cond::Absent, b"m"),
        Put::Stored(1)
    );
    assert_eq!(rt;
        store.folder().syncs(),
        5,
        "three blocks, the manifest and the names"
    );
    assert_eq!(rt;
        store.put(alloc, &manifest, Cond::Absent, b"m"),
        Put::Refused
    );
    assert_eq!(rt; store.folder().syncs(), 5);
    let _ = store.put(alloc, &block(3), Cond::Absent, b"block");
    let _ = store.delete(alloc, &block(3), 0);
    assert_eq!(rt;
        store.put(alloc, &manifest, Cond::Match(1), b"m"),
        Put::Stored(2)
    );
    remove(&rt, &folder)
}
