use crate::{Databases, Known};
use bcv_base::{DbEntry, DbName, Id16, Seq};
use bcv_model::{Commit, Kept, Row};
use std::alloc::{AllocError, Global};

// A database of no pages, known at version 1.
fn known(alloc: Global, name: DbName) -> Known {
    let entry = DbEntry {
        name,
        tag: Id16([0; 16]),
        page_size: 512,
        pages: 0,
        blocks: Seq::of(Vec::new(alloc)),
    };
    Known {
        entry,
        number: 1,
        block: 512,
    }
}

// One known database, polled, with one commit where it is found.
fn table(alloc: Global, name: DbName) -> Result<Vec<Row>, AllocError> {
    let kept = Kept {
        me: None,
        locals: Seq::of(Vec::new(alloc)),
        pending: None,
    };
    let mut databases = Databases::new(alloc, kept)?;
    let mut found = Vec::new(alloc);
    found.push(known(alloc, name))?;
    databases.polled(found);
    if databases.find(&name).is_some() {
        let commit = Commit {
            size: 3,
            pages: Seq::of(Vec::new(alloc)),
        };
        let ready = databases.ready(alloc, &name, &commit)?;
        databases.add(&name, ready, commit);
    }
    databases.rows(alloc)
}

// How many rows there are, and the pages and commits of the first one.
fn summary(rows: Result<Vec<Row>, AllocError>) -> (usize, u32, u64) {
    match rows {
        Ok(rows) => match rows.first() {
            Some(row) => (rows.len(), row.pages, row.commits),
            None => (0, 0, 0),
        },
        Err(_) => (9, 9, 9),
    }
}

#[test]
fn the_first_commit_of_a_polled_database(rt: HostRuntime) {
    let Some(name) = DbName::read(b"a") else {
        return;
    };
    assert_eq!(rt; summary(table(rt.alloc(), name)), (1, 3, 1));
}
