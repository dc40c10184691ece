//! Three databases as plain rows of block numbers, to hold a manifest against.

use super::{id_of, name_of};
use bcv_base::{DbEntry, Manifest};
use std::alloc::{AllocError, Global};

// A database whose blocks are so many numbers in a row.
#[derive(Clone, Copy)]
struct Row {
    tag: u32,
    from: u32,
    count: u32,
}

/// Which rows are listed, and since when each number is dead, or 0.
#[derive(Drop)]
pub(super) struct Plain {
    rows: [Option<Row>; 3],
    since: Vec<u64>,
}

/// An edit of the databases by their places. `from` and `count` are the blocks that it lists or sweeps.
#[derive(Clone, Copy)]
pub(super) struct Step {
    pub(super) kind: u32,
    pub(super) place: usize,
    pub(super) other: usize,
    pub(super) from: u32,
    pub(super) count: u32,
    pub(super) number: u32,
}

fn covers(rows: &[Option<Row>; 3], number: u32) -> bool {
    for row in rows {
        if let Some(row) = row {
            if number >= row.from && number - row.from < row.count {
                return true;
            }
        }
    }
    false
}

fn has_row(rows: &[Option<Row>; 3], place: usize) -> bool {
    match rows.get(place) {
        Some(row) => row.is_some(),
        None => false,
    }
}

fn row_after(before: &[Option<Row>; 3], step: Step) -> Option<Row> {
    let made = Row {
        tag: step.number,
        from: step.from,
        count: step.count,
    };
    match step.kind {
        0 | 1 => Some(made),
        2 => match before.get(step.place) {
            Some(Some(row)) => Some(Row {
                tag: step.number,
                from: row.from,
                count: row.count,
            }),
            _ => None,
        },
        _ => None,
    }
}

impl Plain {
    pub(super) fn new(alloc: Global, numbers: usize) -> Result<Plain, AllocError> {
        Ok(Plain {
            rows: [None; 3],
            since: vec![in alloc; 0u64; numbers]?,
        })
    }

    /// The tag of the database at a place, or 0.
    pub(super) fn tag(&self, place: usize) -> u32 {
        match self.rows.get(place) {
            Some(Some(row)) => row.tag,
            _ => 0,
        }
    }

    /// The first number of the database at a place, or 0.
    pub(super) fn from(&self, place: usize) -> u32 {
        match self.rows.get(place) {
            Some(Some(row)) => row.from,
            _ => 0,
        }
    }

    fn allows(&self, step: Step) -> bool {
        match step.kind {
            0 => !has_row(&self.rows, step.place),
            1 | 3 => has_row(&self.rows, step.place),
            2 => has_row(&self.rows, step.place) && !has_row(&self.rows, step.other),
            _ => true,
        }
    }

    fn put(&mut self, place: usize, row: Option<Row>) {
        if place < 3 {
            self.rows[place] = row;
        }
    }

    fn settle(&mut self, before: &[Option<Row>; 3], stamp: u64) {
        let rows = self.rows;
        let mut number = 0u32;
        for since in self.since.iter_mut() {
            if covers(&rows, number) {
                *since = 0;
            } else if covers(before, number) {
                *since = stamp;
            }
            number = number.wrapping_add(1);
        }
    }

    fn sweep(&mut self, from: u32, count: u32) {
        for number in from..from.saturating_add(count) {
            if (number as usize) < self.since.len() {
                self.since[number as usize] = 0;
            }
        }
    }

    /// Makes the edit, and answers whether it may be made.
    pub(super) fn edit(&mut self, step: Step) -> bool {
        if !self.allows(step) {
            return false;
        }
        let before = self.rows;
        match step.kind {
            2 => self.put(step.other, row_after(&before, step)),
            0 | 1 | 3 => self.put(step.place, row_after(&before, step)),
            _ => self.sweep(step.from, step.count),
        }
        self.settle(&before, u64::from(step.number));
        true
    }
}

fn is_row(db: &DbEntry, place: u32, row: &Row) -> bool {
    let named = match name_of(place) {
        Some(name) => db.name.same_as(&name),
        None => false,
    };
    if !named || !db.tag.same_as(&id_of(row.tag)) {
        return false;
    }
    let blocks = db.blocks.items();
    let mut number = row.from;
    for block in blocks {
        if !block.same_as(&id_of(number)) {
            return false;
        }
        number = number.wrapping_add(1);
    }
    blocks.len() == row.count as usize
}

fn has_rows(m: &Manifest, rows: &[Option<Row>; 3]) -> bool {
    let mut dbs = m.dbs.items().iter();
    let mut place = 0u32;
    for row in rows {
        if let Some(row) = row {
            match dbs.next() {
                Some(db) => {
                    if !is_row(db, place, row) {
                        return false;
                    }
                }
                None => return false,
            }
        }
        place = place.wrapping_add(1);
    }
    dbs.next().is_none()
}

fn has_since(m: &Manifest, since: &[u64]) -> bool {
    let mut dead = m.dead.items().iter();
    let mut number = 0u32;
    for stamp in since {
        if *stamp != 0 {
            match dead.next() {
                Some(entry) => {
                    if entry.stamp != *stamp || !entry.id.same_as(&id_of(number)) {
                        return false;
                    }
                }
                None => return false,
            }
        }
        number = number.wrapping_add(1);
    }
    dead.next().is_none()
}

/// Whether the manifest lists the same blocks under the same names and tags, and has the same dead blocks.
pub(super) fn agrees(m: &Manifest, plain: &Plain) -> bool {
    has_rows(m, &plain.rows) && has_since(m, &plain.since)
}
