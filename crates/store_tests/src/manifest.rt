use bcv_base::limits::MOST_BYTES;
use bcv_base::{is_block_size, manifest_len};
use bcv_manifest::{Bad, ReadFault, read_entry, read_manifest, write_entry, write_manifest};
use std::alloc::{AllocError, Global};
use std::test::*;

mod plain;

use plain::plain_place;

// The first manifest of a container, of 104 bytes.
const FIRST: [u8; 104] = [
    0x42, 0x43, 0x56, 0x4d, 0x41, 0x4e, 0x30, 0x31, 0, 0, 0, 0, 0, 0, 0, 1, 0, 0, 0, 0, 0, 0, 0, 0,
    0, 0, 4, 0, 0, 0, 0, 0, 0, 0, 0, 100, 0, 0, 0, 0, 0, 0, 0, 0, 0, 0, 0, 0, 0, 0, 0, 3, 0, 0, 0,
    1, 0, 0, 0, 0, 0, 0, 0, 0, 0, 0, 0, 0, 0, 0, 0, 1, 0, 0, 0, 0, 0, 0, 0, 0, 0, 0, 0, 0, 0, 0, 0,
    3, 0, 0, 0, 0, 0, 0, 0, 1, 0, 0, 0, 0, 0, 0, 0, 0,
];

// Where the fields of the first manifest start.
const STARTS: [u64; 12] = [0, 8, 16, 24, 28, 36, 52, 56, 72, 88, 96, 100];

// The place of the fault, or none; the last place of all where memory ran out.
fn place(alloc: Global, bytes: &[u8]) -> Option<u64> {
    match read_manifest(alloc, bytes) {
        Ok(_) => None,
        Err(ReadFault::Bad(bad)) => Some(bad.at),
        Err(ReadFault::NoMemory) => Some(u64::MAX),
    }
}

// Whether what is read is written as it was read.
fn is_written_again(alloc: Global, bytes: &[u8]) -> bool {
    let Ok(manifest) = read_manifest(alloc, bytes) else {
        return false;
    };
    if manifest_len(&manifest) > u64::from(MOST_BYTES) {
        return false;
    }
    match write_manifest(alloc, &manifest) {
        Ok(text) => text.as_slice() == bytes,
        Err(_) => false,
    }
}

#[test]
fn first_manifest(rt: HostRuntime) -> Result<(), Fail> {
    let alloc = rt.alloc();
    let manifest = read_manifest(alloc, &FIRST)
        .ok()
        .ok_or("the bytes are a manifest")?;
    assert_eq!(rt; manifest.number, 1);
    assert_eq!(rt; manifest.block, 1024);
    assert_eq!(rt; manifest.retention, 100);
    assert_eq!(rt; manifest.writers.items().len(), 1);
    assert!(rt; is_written_again(alloc, &FIRST));
    Ok(())
}

#[test]
fn first_manifest_changed(rt: HostRuntime) {
    let alloc = rt.alloc();
    let mut more = [0; 105];
    more[..104].copy_from_slice(&FIRST);
    assert_eq!(rt; place(alloc, &more), Some(104));
    let mut none = FIRST;
    none[15] = 0;
    assert_eq!(rt; place(alloc, &none), Some(8));
    for len in 0..104 {
        let mut start = 0;
        for field in STARTS {
            if field <= len as u64 {
                start = field;
            }
        }
        assert_eq!(rt; place(alloc, &FIRST[..len]), Some(start), "of {len} bytes");
    }
}

fn put_id(out: &mut Vec<u8>, last: u8) -> Result<(), AllocError> {
    out.extend_from_slice(&[0; 15])?;
    out.push(last)?;
    Ok(())
}

fn put_database(out: &mut Vec<u8>, name: &[u8], pages: u8, ids: &[u8]) -> Result<(), AllocError> {
    out.extend_from_slice(name)?;
    put_id(out, 9)?;
    out.extend_from_slice(&[0, 0, 2, 0, 0, 0, 0, pages])?;
    for id in ids {
        put_id(out, *id)?;
    }
    Ok(())
}

// A manifest of two writers, three databases over blocks of 1,024 bytes and three dead blocks.
fn sample(alloc: Global) -> Result<Vec<u8>, AllocError> {
    let mut out = Vec::new(alloc);
    out.extend_from_slice(&FIRST[..52])?;
    out.extend_from_slice(&[0, 0, 0, 2])?;
    for writer in [3, 5] {
        put_id(&mut out, writer)?;
        put_id(&mut out, 7)?;
        out.extend_from_slice(&[0, 0, 0, 0, 0, 0, 0, 1])?;
    }
    out.extend_from_slice(&[0, 0, 0, 3])?;
    put_database(&mut out, b"\x01a", 1, &[20])?;
    put_database(&mut out, b"\x02ab", 3, &[21, 20])?;
    put_database(&mut out, b"\x01b", 0, &[])?;
    out.extend_from_slice(&[0, 0, 0, 3])?;
    for dead in [19, 22, 255] {
        put_id(&mut out, dead)?;
        out.extend_from_slice(&[0, 0, 0, 0, 0, 0, 1, 0])?;
    }
    Ok(out)
}

#[test]
fn hostile_manifests(rt: HostRuntime) -> Result<(), Fail> {
    let alloc = rt.alloc();
    let mut bytes = sample(alloc).ok().ok_or("no memory")?;
    assert_eq!(rt; place(alloc, &bytes), None);
    assert!(rt; is_written_again(alloc, &bytes));
    for len in 0..bytes.len() {
        assert_eq!(rt;
            place(alloc, &bytes[..len]),
            plain_place(&bytes[..len]),
            "of {len} bytes"
        );
    }
    for at in 0..bytes.len() {
        let old = bytes[at];
        for value in [0, 255, old.wrapping_add(1), old.wrapping_sub(1)] {
            bytes[at] = value;
            assert_eq!(rt;
                place(alloc, &bytes),
                plain_place(&bytes),
                "{value} at {at}"
            );
        }
        bytes[at] = old;
    }
    Ok(())
}

// Whether the entry at the front of the bytes is read, took so many, and is written again.
fn is_entry_of(alloc: Global, block: u32, bytes: &[u8], want: usize) -> bool {
    if !is_block_size(block) {
        return false;
    }
    let mut out = Vec::new(alloc);
    match read_entry(alloc, block, bytes) {
        Ok((entry, took)) => {
            let written = write_entry(alloc, &entry, &mut out).is_ok();
            written && took == want && bytes.starts_with(&out) && out.len() == want
        }
        Err(_) => false,
    }
}

#[test]
fn entry_in_front(rt: HostRuntime) -> Result<(), Fail> {
    let alloc = rt.alloc();
    let mut bytes = Vec::new(alloc);
    put_database(&mut bytes, b"\x02ab", 3, &[21, 20])
        .ok()
        .ok_or("no memory")?;
    bytes.push(77).ok().ok_or("no memory")?;
    assert!(rt; is_entry_of(alloc, 1024, &bytes, 59));
    Ok(())
}
