//! Containers with one database, byte for byte: version 2, blocks of 1,024 bytes, pages of 512.
use bcv_base::{Id16, ObjName};
use bcv_memstore::MemStore;
use bcv_store::{Cond, Put, Store};
use std::alloc::{AllocError, Global};

/// The manifest of `a` with one page, whose block has the id 1.
pub(crate) const ONE_PAGE: &str = "4243564d414e3031 0000000000000002 0000000000000000 00000400
    0000000000000064 0000000000000000000000000000000b 00000000 00000001
    01 61 0000000000000000000000000000000c 00000200 00000001
    00000000000000000000000000000001 00000000";

/// The manifest of `a` with six pages, whose blocks have the ids 1 to 3.
pub(crate) const SIX_PAGES: &str = "4243564d414e3031 0000000000000002 0000000000000000 00000400
    0000000000000064 0000000000000000000000000000000b 00000000 00000001
    01 61 0000000000000000000000000000000c 00000200 00000006
    00000000000000000000000000000001 00000000000000000000000000000002
    00000000000000000000000000000003 00000000";

/// Puts a manifest, in hex, and the blocks of pages that are zeros after these first bytes.
pub(crate) fn put_container(
    alloc: Global,
    store: &mut MemStore,
    manifest: &str,
    pages: &[u8],
) -> Result<(), AllocError> {
    let mut number = 0u8;
    for block in pages.chunks(2) {
        number = number.wrapping_add(1);
        let id = Id16([0, 0, 0, 0, 0, 0, 0, 0, 0, 0, 0, 0, 0, 0, 0, number]);
        let bytes = block_of(alloc, block)?;
        put(alloc, store, ObjName::Block(id), bytes.as_slice())?;
    }
    let bytes = bytes_of(alloc, manifest)?;
    put(alloc, store, ObjName::Manifest, bytes.as_slice())
}

// Puts an object that is not there yet.
fn put(alloc: Global, store: &mut MemStore, name: ObjName, bytes: &[u8]) -> Result<(), AllocError> {
    match store.put(alloc, &name, Cond::Absent, bytes) {
        Put::Stored(_) => Ok(()),
        Put::Refused | Put::Failed | Put::NoMemory => Err(AllocError),
    }
}

// A block of pages that are zeros after these first bytes.
fn block_of(alloc: Global, pages: &[u8]) -> Result<Vec<u8>, AllocError> {
    let mut block = Vec::new(alloc);
    for first in pages {
        block.push(*first)?;
        block.extend_from_slice(&[0; 511])?;
    }
    block.resize(1024, 0)?;
    Ok(block)
}

/// The bytes that hex digits write; other characters part them.
pub(crate) fn bytes_of(alloc: Global, text: &str) -> Result<Vec<u8>, AllocError> {
    let mut bytes = Vec::new(alloc);
    let mut high = None;
    for digit in text.as_bytes() {
        match (value_of(*digit), high) {
            (Some(value), None) => high = Some(value),
            (Some(value), Some(first)) => {
                bytes.push(first << 4 | value)?;
                high = None;
            }
            (None, _) => {}
        }
    }
    Ok(bytes)
}

// The value of a hex digit.
fn value_of(digit: u8) -> Option<u8> {
    match digit {
        b'0'..=b'9' => Some(digit - b'0'),
        b'a'..=b'f' => Some(digit - b'a' + 10),
        _ => None,
    }
}
