//! A plain reader, which follows the table of the format place by place.

fn part(bytes: &[u8], at: usize, len: usize) -> Option<&[u8]> {
    bytes.get(at..at.saturating_add(len))
}

fn number(bytes: &[u8], at: usize, len: usize) -> Option<u64> {
    let mut number: u64 = 0;
    for byte in part(bytes, at, len)? {
        number = number.wrapping_mul(256).wrapping_add(u64::from(*byte));
    }
    Some(number)
}

fn number_within(bytes: &[u8], at: usize, len: usize, least: u64, most: u64) -> Result<u64, usize> {
    match number(bytes, at, len) {
        Some(number) if number >= least && number <= most => Ok(number),
        _ => Err(at),
    }
}

fn size_within(bytes: &[u8], at: usize, most: u64) -> Result<u64, usize> {
    let size = number_within(bytes, at, 4, 512, most)?;
    let mut power: u64 = 512;
    for _ in 0..16 {
        if power == size {
            return Ok(size);
        }
        power = power.saturating_mul(2);
    }
    Err(at)
}

// The place after an id that is above the one at another place, where there is one.
fn after_id(bytes: &[u8], at: usize, before: Option<usize>) -> Result<usize, usize> {
    let Some(id) = part(bytes, at, 16) else {
        return Err(at);
    };
    if let Some(before) = before {
        if let Some(other) = part(bytes, before, 16) {
            if other.cmp(id).is_ge() {
                return Err(at);
            }
        }
    }
    Ok(at.saturating_add(16))
}

fn after_writers(bytes: &[u8], at: usize, version: u64) -> Result<usize, usize> {
    let count = number_within(bytes, at, 4, 0, 4096)?;
    let mut at = at.saturating_add(4);
    let mut before = None;
    for _ in 0..count {
        let last = after_id(bytes, at, before)?;
        let written = after_id(bytes, last, None)?;
        number_within(bytes, written, 8, 1, version)?;
        before = Some(at);
        at = written.saturating_add(8);
    }
    Ok(at)
}

fn stands_in_names(byte: u8) -> bool {
    byte.is_ascii_alphanumeric() || b"._-".contains(&byte)
}

// The name at a place behind its length, which is above the one before it.
fn name_at<'a>(bytes: &'a [u8], at: usize, before: Option<&[u8]>) -> Result<&'a [u8], usize> {
    let len = number_within(bytes, at, 1, 1, 64)?;
    let at = at.saturating_add(1);
    let Some(name) = part(bytes, at, len as usize) else {
        return Err(at);
    };
    for byte in name {
        if !stands_in_names(*byte) {
            return Err(at);
        }
    }
    if let Some(before) = before {
        if before.cmp(name).is_ge() {
            return Err(at);
        }
    }
    Ok(name)
}

// The place after a database whose tag is at a place.
fn after_database(bytes: &[u8], at: usize, block: u64) -> Result<usize, usize> {
    let at = after_id(bytes, at, None)?;
    let page = size_within(bytes, at, block.min(65_536))?;
    let at = at.saturating_add(4);
    let pages = number_within(bytes, at, 4, 0, u64::MAX)?;
    let mut blocks: u64 = 0;
    let mut room: u64 = 0;
    for _ in 0..65_537 {
        if room >= pages.saturating_mul(page) {
            break;
        }
        blocks = blocks.saturating_add(1);
        room = room.saturating_add(block);
    }
    if blocks > 65_536 {
        return Err(at);
    }
    let mut at = at.saturating_add(4);
    for _ in 0..blocks {
        at = after_id(bytes, at, None)?;
    }
    Ok(at)
}

fn after_databases(bytes: &[u8], at: usize, block: u64) -> Result<usize, usize> {
    let count = number_within(bytes, at, 4, 0, 1024)?;
    let mut at = at.saturating_add(4);
    let mut before = None;
    for _ in 0..count {
        let name = name_at(bytes, at, before)?;
        at = at.saturating_add(1).saturating_add(name.len());
        at = after_database(bytes, at, block)?;
        before = Some(name);
    }
    Ok(at)
}

// Whether one of the ids from a place on, up to another place, is the one at a third place.
fn is_among(bytes: &[u8], ids: usize, end: usize, at: usize) -> bool {
    let mut id = ids;
    for _ in 0..65_536 {
        if id >= end {
            break;
        }
        if part(bytes, id, 16) == part(bytes, at, 16) {
            return true;
        }
        id = id.saturating_add(16);
    }
    false
}

// Whether some database lists the id at a place; the databases are right and start at another place.
fn is_listed(bytes: &[u8], databases: usize, end: usize, block: u64, at: usize) -> bool {
    let mut entry = databases.saturating_add(4);
    for _ in 0..1024 {
        if entry >= end {
            break;
        }
        let len = number(bytes, entry, 1).unwrap_or(0) as usize;
        let tag = entry.saturating_add(1).saturating_add(len);
        let next = after_database(bytes, tag, block).unwrap_or(end);
        if is_among(bytes, tag.saturating_add(24), next, at) {
            return true;
        }
        entry = next;
    }
    false
}

fn after_dead(bytes: &[u8], at: usize, databases: usize, block: u64) -> Result<usize, usize> {
    let end = at;
    let count = number_within(bytes, at, 4, 0, 1_048_576)?;
    let mut at = at.saturating_add(4);
    let mut before = None;
    for _ in 0..count {
        let stamp = after_id(bytes, at, before)?;
        if is_listed(bytes, databases, end, block, at) {
            return Err(at);
        }
        number_within(bytes, stamp, 8, 0, u64::MAX)?;
        before = Some(at);
        at = stamp.saturating_add(8);
    }
    Ok(at)
}

fn end_of(bytes: &[u8]) -> Result<usize, usize> {
    if part(bytes, 0, 8) != Some(b"BCVMAN01".as_slice()) {
        return Err(0);
    }
    let version = number_within(bytes, 8, 8, 1, u64::MAX)?;
    number_within(bytes, 16, 8, 0, u64::MAX)?;
    let block = size_within(bytes, 24, 16_777_216)?;
    number_within(bytes, 28, 8, 0, u64::MAX)?;
    let writers = after_id(bytes, 36, None)?;
    let databases = after_writers(bytes, writers, version)?;
    let dead = after_databases(bytes, databases, block)?;
    after_dead(bytes, dead, databases, block)
}

/// The place of the fault, or none.
pub(crate) fn plain_place(bytes: &[u8]) -> Option<u64> {
    match end_of(bytes) {
        Ok(end) if end == bytes.len() => None,
        Ok(end) => Some(end as u64),
        Err(at) => Some(at as u64),
    }
}
