use crate::folders::{fresh, in_folder, remove};
use bcv_base::Id16;
use bcv_clientlog::{ClientLog, LogLoad};
use bcv_disk::{Disk, DiskEnd, Size};
use bcv_host::{FileDisk, OpenFault};
use bcv_journal::Noted;
use bcv_model::Kept;
use std::fs;
use std::test::Fail;

const ME: Id16 = Id16([0, 0, 0, 0, 0, 0, 0, 0, 0, 0, 0, 0, 0, 0, 0, 1]);

#[test]
fn a_file_is_read_and_written(rt: HostRuntime) -> Result<(), Fail> {
    let alloc = rt.alloc();
    let folder = fresh(&rt, "file")?;
    let mut disk = FileDisk::on(&rt, &folder)?;
    assert_eq!(rt; disk.len(), Size::Len(0));
    assert_eq!(rt; disk.write_at(alloc, 0, b"abcdef"), DiskEnd::Done);
    assert_eq!(rt; disk.write_at(alloc, 4, b"EFG"), DiskEnd::Done);
    assert_eq!(rt; disk.cut(alloc, 6), DiskEnd::Done);
    assert_eq!(rt; disk.sync(), DiskEnd::Done);
    assert_eq!(rt; disk.len(), Size::Len(6));
    let mut bytes = [0; 4];
    assert_eq!(rt; disk.read(2, &mut bytes), DiskEnd::Done);
    assert_eq!(rt; bytes, *b"cdEF");
    assert_eq!(rt; disk.read(4, &mut bytes), DiskEnd::Failed);
    let file = fs::read(&rt, &in_folder(&rt, &folder, "journal")?)?;
    assert_eq!(rt; file.as_slice(), b"abcdEF".as_slice());
    remove(&rt, &folder)
}

#[test]
fn a_journal_in_use(rt: HostRuntime) -> Result<(), Fail> {
    let folder = fresh(&rt, "in-use")?;
    let disk = FileDisk::on(&rt, &folder)?;
    match FileDisk::on(&rt, &folder) {
        Ok(_) => return Err(Fail::new("two disks")),
        Err(fault) => assert_eq!(rt; fault, OpenFault::InUse),
    }
    drop(disk);
    let _ = FileDisk::on(&rt, &folder)?;
    let missing = in_folder(&rt, &folder, "missing")?;
    match FileDisk::on(&rt, &missing) {
        Ok(_) => return Err(Fail::new("a disk in no folder")),
        Err(fault) => assert_eq!(rt; fault, OpenFault::NotFolder),
    }
    remove(&rt, &folder)
}

// The log in a folder, and what it keeps.
fn loaded(rt: &HostRuntime, folder: &str) -> Result<(ClientLog<FileDisk>, Kept), Fail> {
    match ClientLog::load(rt.alloc(), FileDisk::on(rt, folder)?) {
        LogLoad::Ready(log, kept) => Ok((log, kept)),
        LogLoad::Refused(_, _) => Err(Fail::new("refused")),
    }
}

#[test]
fn what_was_noted_is_loaded(rt: HostRuntime) -> Result<(), Fail> {
    let alloc = rt.alloc();
    let folder = fresh(&rt, "log")?;
    let (mut log, kept) = loaded(&rt, &folder)?;
    assert!(rt; kept.me.is_none());
    assert_eq!(rt; log.me(alloc, &ME), Noted::Done);
    // The process ends here, without a word to the disk.
    drop(log);
    let (_, kept) = loaded(&rt, &folder)?;
    match kept.me {
        Some(id) => assert!(rt; id.same_as(&ME)),
        None => return Err(Fail::new("no id")),
    }
    remove(&rt, &folder)
}
