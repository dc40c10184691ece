use bcv_disk::{Disk, DiskEnd, MemDisk, Planned, Size};
use bcv_journal::{Journal, JournalFault, Load, Noted};
use std::alloc::Global;
use std::test::Fail;

// Three items after a head of 17 bytes: one byte, two bytes, four bytes.
const THREE: [u8; 40] =
    *b"BCVJRN02\0\0\0\0\x11\0\0\0\0\x01\0\0\0\x01a\x01\0\0\0\x02bc\x01\0\0\0\x04defg\0";

// The same items at the start 19, which is start 1 and chosen.
const SECOND: [u8; 42] =
    *b"BCVJRN02\x01\0\0\0\x11\0\0\0\x13\0\0\x01\0\0\0\x01a\x01\0\0\0\x02bc\x01\0\0\0\x04defg\0";

// A disk whose file has these bytes, all of them synced.
fn disk_with(alloc: Global, bytes: &[u8]) -> Result<MemDisk, Fail> {
    if bytes.len() > 4096 {
        return Err(Fail::new("too long"));
    }
    let mut disk = MemDisk::new(alloc);
    match (disk.write_at(alloc, 0, bytes), disk.sync()) {
        (DiskEnd::Done, DiskEnd::Done) => Ok(disk),
        _ => Err(Fail::new("no disk")),
    }
}

// What a read of the whole disk gives.
fn contents(alloc: Global, disk: &mut MemDisk) -> Result<Vec<u8>, Fail> {
    let size = match disk.len() {
        Size::Len(size) if size <= 4096 => size,
        _ => return Err(Fail::new("no length")),
    };
    let mut bytes = vec![in alloc; 0; size as usize]?;
    match disk.read(0, &mut bytes) {
        DiskEnd::Done => Ok(bytes),
        _ => Err(Fail::new("no bytes")),
    }
}

// The journal and its items, of a disk whose file has these bytes.
fn loaded(alloc: Global, bytes: &[u8]) -> Result<(Journal<MemDisk>, Vec<Vec<u8>>), Fail> {
    match Journal::load(alloc, disk_with(alloc, bytes)?) {
        Load::Ready(journal, items) => Ok((journal, items)),
        Load::Refused(_, _) => Err(Fail::new("refused")),
    }
}

// Where the bytes break, by a reader of the test's own that knows the length of an item only from four bytes.
fn plain_place(bytes: &[u8]) -> Option<u64> {
    let [head @ .., _, _] = bytes else {
        return None;
    };
    let [
        b'B',
        b'C',
        b'V',
        b'J',
        b'R',
        b'N',
        b'0',
        b'2',
        selector,
        a,
        b,
        c,
        d,
        e,
        f,
        g,
        h,
        ..
    ] = head
    else {
        return if bytes.len() < 19 { None } else { Some(0) };
    };
    let (field, at) = match selector {
        1 => ([*e, *f, *g, *h], 13),
        _ => ([*a, *b, *c, *d], 9),
    };
    let start = u32::from_be_bytes(field) as usize;
    if start < 17 || bytes.len() <= start {
        return Some(at);
    }
    let mut rest = &bytes[start..];
    for _ in 0..bytes.len() {
        let place = bytes.len().saturating_sub(rest.len()) as u64;
        match rest {
            [1, a, b, c, d, after @ ..] => {
                let size = u32::from_be_bytes([*a, *b, *c, *d]) as usize;
                if size == 0 || after.len() <= size {
                    return Some(place);
                }
                rest = &after[size..];
            }
            [1, ..] => return Some(place),
            _ => return None,
        }
    }
    None
}

// Whether a load of these bytes agrees with the plain reader.
fn agrees(alloc: Global, bytes: &[u8]) -> Result<bool, Fail> {
    let place = match Journal::load(alloc, disk_with(alloc, bytes)?) {
        Load::Ready(_, _) => None,
        Load::Refused(_, JournalFault::NotJournal(place)) => Some(place),
        Load::Refused(_, _) => return Err(Fail::new("no memory")),
    };
    Ok(place == plain_place(bytes))
}

// The place for which these bytes are refused.
fn refused_at(alloc: Global, bytes: &[u8]) -> Result<Option<u64>, Fail> {
    match Journal::load(alloc, disk_with(alloc, bytes)?) {
        Load::Ready(_, _) => Ok(None),
        Load::Refused(_, JournalFault::NotJournal(place)) => Ok(Some(place)),
        Load::Refused(_, _) => Err(Fail::new("no memory")),
    }
}

#[test]
fn short_and_old_files(rt: HostRuntime) -> Result<(), Fail> {
    let alloc = rt.alloc();
    let (journal, items) = loaded(alloc, &[0; 18])?;
    assert_eq!(rt; items.len(), 0);
    assert_eq!(rt; journal.span(), (17, 17));
    let mut disk = journal.down();
    assert_eq!(rt;
        contents(alloc, &mut disk)?.as_slice(),
        b"BCVJRN02\0\0\0\0\x11\0\0\0\0\0".as_slice()
    );
    assert_eq!(rt; refused_at(alloc, &[0; 19])?, Some(0));
    assert_eq!(rt;
        refused_at(alloc, b"BCVJRN01\x01\0\0\0\x05abcde\0")?,
        Some(0)
    );
    Ok(())
}

#[test]
fn items_are_laid_out(rt: HostRuntime) -> Result<(), Fail> {
    let alloc = rt.alloc();
    let (mut journal, _) = loaded(alloc, &[])?;
    assert_eq!(rt; journal.append(alloc, b"a", 64), Noted::Done);
    assert_eq!(rt; journal.append(alloc, b"bc", 64), Noted::Done);
    assert_eq!(rt; journal.append(alloc, b"defg", 64), Noted::Done);
    assert!(rt; !journal.closed());
    assert_eq!(rt; journal.tail(), 39);
    assert_eq!(rt; journal.span(), (17, 39));
    let mut disk = journal.down();
    assert_eq!(rt; contents(alloc, &mut disk)?.as_slice(), THREE.as_slice());
    let (_, items) = loaded(alloc, &THREE)?;
    assert_eq!(rt; items.len(), 3);
    assert_eq!(rt; items.last().map(|item| item.len()), Some(4));
    let (journal, items) = loaded(alloc, &SECOND)?;
    assert_eq!(rt; items.len(), 3);
    assert_eq!(rt; journal.span(), (19, 41));
    Ok(())
}

#[test]
fn cut_and_changed_files(rt: HostRuntime) -> Result<(), Fail> {
    let alloc = rt.alloc();
    for cut in 0..=THREE.len() {
        let front = THREE.get(..cut).unwrap_or(&[]);
        assert!(rt; agrees(alloc, front)?, "the first {cut} bytes");
    }
    for place in 0..SECOND.len() {
        for by in [1, 2, 4, 255] {
            let mut bytes = SECOND.to_vec(alloc)?;
            if let Some(byte) = bytes.get_mut(place) {
                *byte ^= by;
            }
            assert!(rt; agrees(alloc, &bytes)?, "byte {place} changed by {by}");
        }
    }
    Ok(())
}

#[test]
fn each_call_of_a_load_fails(rt: HostRuntime) -> Result<(), Fail> {
    let alloc = rt.alloc();
    for calls in 0..5_u32 {
        for (bytes, whole) in [([].as_slice(), 4), (THREE.as_slice(), 3)] {
            let mut disk = disk_with(alloc, bytes)?;
            disk.fail(calls);
            match Journal::load(alloc, disk) {
                Load::Ready(_, _) => assert!(rt; whole <= calls),
                Load::Refused(_, fault) => {
                    assert_eq!(rt; fault, JournalFault::DiskFault);
                    assert!(rt; calls < whole);
                }
            }
        }
    }
    Ok(())
}

#[test]
fn each_call_of_an_append_fails(rt: HostRuntime) -> Result<(), Fail> {
    let alloc = rt.alloc();
    for calls in 0..5_u32 {
        let (mut journal, _) = loaded(alloc, &THREE)?;
        journal.fail(calls);
        let first = journal.append(alloc, b"hi", 64);
        let second = journal.append(alloc, b"j", 64);
        if calls < 4 {
            assert_eq!(rt; first, Noted::DiskFault);
            assert_eq!(rt; second, Noted::Closed);
        } else {
            assert_eq!(rt; first, Noted::Done);
        }
    }
    Ok(())
}

#[test]
fn each_call_of_an_append_crashes(rt: HostRuntime) -> Result<(), Fail> {
    let alloc = rt.alloc();
    for calls in 0..4_u32 {
        for image in 0..5_u8 {
            let (mut journal, _) = loaded(alloc, &THREE)?;
            journal.fuse(calls, image);
            assert_eq!(rt; journal.append(alloc, b"hi", 64), Noted::DiskFault);
            assert!(rt; journal.burnt());
            let mut disk = journal.down();
            disk.mend();
            let Load::Ready(_, items) = Journal::load(alloc, disk) else {
                return Err(Fail::new("refused"));
            };
            assert!(rt; items.len() == 3 || (items.len() == 4 && 2 <= calls));
        }
    }
    Ok(())
}

#[test]
fn the_limit_is_exact(rt: HostRuntime) -> Result<(), Fail> {
    let alloc = rt.alloc();
    let (mut journal, _) = loaded(alloc, &[])?;
    assert_eq!(rt;
        journal.append(alloc, b"a", 2_147_483_625),
        Noted::JournalFull
    );
    assert_eq!(rt; journal.append(alloc, b"a", 2_147_483_624), Noted::Done);
    Ok(())
}

// A restart with one item.
fn restarted(alloc: Global, journal: &mut Journal<MemDisk>, text: &[u8]) -> Result<Noted, Fail> {
    let (_, tail) = journal.span();
    if tail > 4096 || text.is_empty() || text.len() > 4096 {
        return Err(Fail::new("too long"));
    }
    let mut items = Vec::new(alloc);
    items.push(text.to_vec(alloc)?)?;
    Ok(journal.restart(alloc, &items))
}

// How many items a journal's disk loads as after its troubles.
fn items_left(alloc: Global, journal: Journal<MemDisk>) -> Result<usize, Fail> {
    let mut disk = journal.down();
    disk.mend();
    match Journal::load(alloc, disk) {
        Load::Ready(_, items) => Ok(items.len()),
        Load::Refused(_, _) => Err(Fail::new("refused")),
    }
}

#[test]
fn a_restart_moves_the_items(rt: HostRuntime) -> Result<(), Fail> {
    let alloc = rt.alloc();
    let (mut journal, _) = loaded(alloc, &THREE)?;
    assert_eq!(rt; restarted(alloc, &mut journal, b"xy")?, Noted::Done);
    assert_eq!(rt; journal.span(), (40, 47));
    assert_eq!(rt; restarted(alloc, &mut journal, b"z")?, Noted::Done);
    assert_eq!(rt; journal.span(), (17, 23));
    assert_eq!(rt; journal.append(alloc, b"a", 64), Noted::Done);
    assert_eq!(rt; items_left(alloc, journal)?, 2);
    Ok(())
}

#[test]
fn each_call_of_a_restart_fails(rt: HostRuntime) -> Result<(), Fail> {
    let alloc = rt.alloc();
    for calls in 0..5_u32 {
        let (mut journal, _) = loaded(alloc, &THREE)?;
        journal.fail(calls);
        assert_eq!(rt; restarted(alloc, &mut journal, b"xy")?, Noted::DiskFault);
        assert_eq!(rt; restarted(alloc, &mut journal, b"xy")?, Noted::Closed);
        let left = items_left(alloc, journal)?;
        assert!(rt; left == 3 || left == 1);
    }
    Ok(())
}

#[test]
fn each_call_of_a_restart_crashes(rt: HostRuntime) -> Result<(), Fail> {
    let alloc = rt.alloc();
    for calls in 0..5_u32 {
        for image in 0..5_u8 {
            let (mut journal, _) = loaded(alloc, &SECOND)?;
            journal.fuse(calls, image);
            assert_eq!(rt; restarted(alloc, &mut journal, b"xy")?, Noted::DiskFault);
            let left = items_left(alloc, journal)?;
            assert!(rt; left == 3 || (left == 1 && 3 <= calls));
        }
    }
    Ok(())
}
