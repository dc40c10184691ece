use bcv_disk::{Disk, DiskEnd, MemDisk, Planned, Size};
use std::alloc::Global;
use std::test::Fail;

// What a read of the whole disk gives.
fn contents(alloc: Global, disk: &mut MemDisk) -> Result<Vec<u8>, Fail> {
    let size = match disk.len() {
        Size::Len(size) if size <= 1024 => size,
        _ => return Err(Fail::new("no length")),
    };
    let mut bytes = vec![in alloc; 0; size as usize]?;
    match disk.read(0, &mut bytes) {
        DiskEnd::Done => Ok(bytes),
        _ => Err(Fail::new("no bytes")),
    }
}

#[test]
fn bytes_are_written_cut_and_read(rt: HostRuntime) -> Result<(), Fail> {
    let alloc = rt.alloc();
    let mut disk = MemDisk::new(alloc);
    assert_eq!(rt; disk.len(), Size::Len(0));
    assert_eq!(rt; disk.write_at(alloc, 0, b"abcdef"), DiskEnd::Done);
    assert_eq!(rt; disk.write_at(alloc, 0, b"XY"), DiskEnd::Done);
    assert_eq!(rt;
        contents(alloc, &mut disk)?.as_slice(),
        b"XYcdef".as_slice()
    );
    assert_eq!(rt; disk.sync(), DiskEnd::Done);
    assert_eq!(rt; disk.cut(alloc, 0), DiskEnd::Done);
    assert_eq!(rt; disk.len(), Size::Len(0));
    Ok(())
}

// Each call in turn, and how it ended.
fn five_calls(alloc: Global, disk: &mut MemDisk) -> [DiskEnd; 5] {
    let len = match disk.len() {
        Size::Len(_) => DiskEnd::Done,
        Size::Failed => DiskEnd::Failed,
    };
    let wrote = disk.write_at(alloc, 0, b"ab");
    let synced = disk.sync();
    let read = disk.read(0, &mut []);
    [len, wrote, synced, read, disk.cut(alloc, 0)]
}

#[test]
fn a_planned_failure_strikes_one_call(rt: HostRuntime) -> Result<(), Fail> {
    let alloc = rt.alloc();
    for calls in 0..6_u32 {
        let mut disk = MemDisk::new(alloc);
        disk.fail(calls);
        let ends = five_calls(alloc, &mut disk);
        for (place, end) in ends.iter().enumerate() {
            let wanted = if place == calls as usize {
                DiskEnd::Failed
            } else {
                DiskEnd::Done
            };
            assert_eq!(rt; *end, wanted, "call {place} after fail({calls})");
        }
    }
    Ok(())
}

#[test]
fn a_fuse_burns_until_the_disk_is_mended(rt: HostRuntime) -> Result<(), Fail> {
    let alloc = rt.alloc();
    for calls in 0..6_u32 {
        let mut disk = MemDisk::new(alloc);
        disk.fuse(calls, 1);
        disk.fail(5);
        let ends = five_calls(alloc, &mut disk);
        for (place, end) in ends.iter().enumerate() {
            let wanted = if place < calls as usize {
                DiskEnd::Done
            } else {
                DiskEnd::Failed
            };
            assert_eq!(rt; *end, wanted, "call {place} after fuse({calls})");
        }
        assert_eq!(rt; disk.burnt(), calls < 5);
        disk.mend();
        assert!(rt; !disk.burnt());
    }
    Ok(())
}

// One of the calls that are torn below, after a call for the length.
fn torn_call(alloc: Global, disk: &mut MemDisk, call: u32) -> DiskEnd {
    let size = match disk.len() {
        Size::Len(size) => size,
        Size::Failed => return DiskEnd::Failed,
    };
    match call {
        0 if 1 <= size => disk.write_at(alloc, 1, b"XY"),
        1 if 4 <= size => disk.cut(alloc, 4),
        2 if 4 <= size => disk.write_at(alloc, 4, b"pqrs"),
        _ => disk.sync(),
    }
}

// What an image has, place by place: `torn` has a 1 for each place that was written since the sync.
fn image(alloc: Global, number: u8, new: &[u8], torn: &[u8]) -> Result<Vec<u8>, Fail> {
    let old = b"abcdef".as_slice();
    if number == 0 {
        return Ok(old.to_vec(alloc)?);
    }
    let mut bytes = Vec::new(alloc);
    for (place, byte) in new.iter().enumerate() {
        let was = old.get(place).copied().unwrap_or(*byte);
        let left = match number {
            2 => 0,
            3 => 255,
            4 if place % 2 == 0 => was,
            _ => *byte,
        };
        let torn = torn.get(place) == Some(&b'1');
        bytes.push(if torn { left } else { *byte })?;
    }
    Ok(bytes)
}

// The new bytes, and which of them were written since the sync, where a crash strikes this call.
fn row(call: u32) -> (&'static [u8], &'static [u8]) {
    match call {
        0 => (b"aXYdef", b"011000"),
        1 => (b"aXYd", b"0110"),
        _ => (b"aXYdpqrs", b"01101111"),
    }
}

// A disk of six bytes that are synced, on which a fuse has burnt in this call.
fn burnt_disk(alloc: Global, call: u32, number: u8) -> Result<MemDisk, Fail> {
    let mut disk = MemDisk::new(alloc);
    match (disk.write_at(alloc, 0, b"abcdef"), disk.sync()) {
        (DiskEnd::Done, DiskEnd::Done) => {}
        _ => return Err(Fail::new("no disk")),
    }
    disk.fuse(call.saturating_mul(2).saturating_add(1), number.min(4));
    for before in 0..call {
        torn_call(alloc, &mut disk, before);
    }
    let ended = torn_call(alloc, &mut disk, call);
    disk.mend();
    match ended {
        DiskEnd::Failed => Ok(disk),
        _ => Err(Fail::new("no crash")),
    }
}

#[test]
fn every_image_at_every_call(rt: HostRuntime) -> Result<(), Fail> {
    let alloc = rt.alloc();
    for number in 0..5_u8 {
        for call in 0..4_u32 {
            let (new, torn) = row(call);
            let wanted = image(alloc, number, new, torn)?;
            let mut disk = burnt_disk(alloc, call, number)?;
            let left = contents(alloc, &mut disk)?;
            assert_eq!(rt;
                left.as_slice(),
                wanted.as_slice(),
                "image {number} at call {call}"
            );
            assert_eq!(rt; disk.crash(4), DiskEnd::Done);
            let again = contents(alloc, &mut disk)?;
            assert_eq!(rt; again.as_slice(), wanted.as_slice());
        }
    }
    Ok(())
}
