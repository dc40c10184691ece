use bcv_base::{DbEntry, DbName, Id16, Seq};
use bcv_clientlog::{ClientLog, LogLoad};
use bcv_disk::{Disk, DiskEnd, MemDisk, Size};
use bcv_journal::{Journal, JournalFault, Load, Noted};
use bcv_model::{Commit, Kept, Local, Note, PendingPub, Uploading};
use bcv_notes::after_note;
use std::alloc::Global;
use std::test::Fail;

// The bytes of a disk with the note Me of the id that ends in 1.
const ME: [u8; 40] =
    *b"BCVJRN02\0\0\0\0\x11\0\0\0\0\x01\0\0\0\x11\x01\0\0\0\0\0\0\0\0\0\0\0\0\0\0\0\x01\0";

const fn id(last: u8) -> Id16 {
    Id16([0, 0, 0, 0, 0, 0, 0, 0, 0, 0, 0, 0, 0, 0, 0, last])
}

fn name() -> Result<DbName, Fail> {
    match DbName::read(b"a") {
        Some(name) => Ok(name),
        None => Err(Fail::new("no name")),
    }
}

// A database of one page of 512 bytes in one block.
fn entry(alloc: Global) -> Result<DbEntry, Fail> {
    Ok(DbEntry {
        name: name()?,
        tag: id(7),
        page_size: 512,
        pages: 1,
        blocks: Seq::of(vec![in alloc; id(9)]?),
    })
}

// A commit with its page.
fn commit(alloc: Global) -> Result<Commit, Fail> {
    let mut pages = Vec::new(alloc);
    pages.push((1, Seq::of(vec![in alloc; 6; 512]?)))?;
    Ok(Commit {
        size: 1,
        pages: Seq::of(pages),
    })
}

// What a client keeps that has so many commits of the database.
fn kept(alloc: Global, commits: usize) -> Result<Kept, Fail> {
    let mut locals = Vec::new(alloc);
    if commits > 0 {
        let mut all = Vec::new(alloc);
        for _ in 0..commits {
            all.push(commit(alloc)?)?;
        }
        locals.push(Local {
            entry: entry(alloc)?,
            number: 1,
            block: 512,
            commits: Seq::of(all),
        })?;
    }
    Ok(Kept {
        me: Some(id(1)),
        locals: Seq::of(locals),
        pending: None,
    })
}

// The log of a disk.
fn loaded(alloc: Global, disk: MemDisk) -> Result<(ClientLog<MemDisk>, Kept), Fail> {
    match ClientLog::load(alloc, disk) {
        LogLoad::Ready(log, kept) => Ok((log, kept)),
        LogLoad::Refused(_, _) => Err(Fail::new("refused")),
    }
}

// The log of a new disk, with the client's id.
fn named(alloc: Global) -> Result<ClientLog<MemDisk>, Fail> {
    let (mut log, _) = loaded(alloc, MemDisk::new(alloc))?;
    match log.me(alloc, &id(1)) {
        Noted::Done => Ok(log),
        _ => Err(Fail::new("not noted")),
    }
}

// Notes the first commit of the database.
fn first(alloc: Global, log: &mut ClientLog<MemDisk>, kept: &Kept) -> Result<Noted, Fail> {
    let commit = commit(alloc)?;
    if commit.pages.items().len() > 9 {
        return Err(Fail::new("too many pages"));
    }
    Ok(log.first(alloc, kept, &entry(alloc)?, 1, 512, &commit))
}

// Notes one more commit.
fn second(alloc: Global, log: &mut ClientLog<MemDisk>, kept: &Kept) -> Result<Noted, Fail> {
    let commit = commit(alloc)?;
    if commit.pages.items().len() > 9 {
        return Err(Fail::new("too many pages"));
    }
    Ok(log.commit(alloc, kept, &name()?, &commit))
}

// The place for which a disk with one such item is refused.
fn refused_at(alloc: Global, item: &[u8]) -> Result<Option<u64>, Fail> {
    if item.is_empty() {
        return Err(Fail::new("no item"));
    }
    let Load::Ready(mut journal, _) = Journal::load(alloc, MemDisk::new(alloc)) else {
        return Err(Fail::new("refused"));
    };
    if journal.append(alloc, item, 64) != Noted::Done {
        return Err(Fail::new("not added"));
    }
    match ClientLog::load(alloc, journal.down()) {
        LogLoad::Ready(_, _) => Ok(None),
        LogLoad::Refused(_, JournalFault::NotJournal(place)) => Ok(Some(place)),
        LogLoad::Refused(_, _) => Err(Fail::new("no memory")),
    }
}

#[test]
fn a_client_notes_its_id(rt: HostRuntime) -> Result<(), Fail> {
    let alloc = rt.alloc();
    let mut disk = named(alloc)?.down();
    let mut bytes = [0; 40];
    assert_eq!(rt; disk.len(), Size::Len(40));
    assert_eq!(rt; disk.read(0, &mut bytes), DiskEnd::Done);
    assert_eq!(rt; bytes.as_slice(), ME.as_slice());
    let (log, kept) = loaded(alloc, disk)?;
    assert!(rt; kept.me.is_some());
    assert!(rt; !log.closed());
    assert_eq!(rt; refused_at(alloc, b"x")?, Some(17));
    Ok(())
}

// Notes a publication that begins, and its end: made, or not.
fn published(
    alloc: Global,
    log: &mut ClientLog<MemDisk>,
    kept: &Kept,
    made: bool,
) -> Result<Noted, Fail> {
    let pending = PendingPub {
        id: id(8),
        upload: None,
    };
    match log.intent(alloc, kept, &pending) {
        Noted::Done => {}
        _ => return Err(Fail::new("no intent")),
    }
    if made {
        Ok(log.done(alloc, &id(8), 2))
    } else {
        Ok(log.void(alloc, &id(8)))
    }
}

#[test]
fn publications_and_commits_are_noted(rt: HostRuntime) -> Result<(), Fail> {
    let alloc = rt.alloc();
    let mut log = named(alloc)?;
    assert_eq!(rt; first(alloc, &mut log, &kept(alloc, 0)?)?, Noted::Done);
    assert_eq!(rt; second(alloc, &mut log, &kept(alloc, 1)?)?, Noted::Done);
    let two = kept(alloc, 2)?;
    assert_eq!(rt; published(alloc, &mut log, &two, true)?, Noted::Done);
    assert_eq!(rt; published(alloc, &mut log, &two, false)?, Noted::Done);
    let (log, kept) = loaded(alloc, log.down())?;
    assert!(rt; kept.pending.is_none());
    assert_eq!(rt;
        kept.locals
            .items()
            .first()
            .map(|local| local.commits.items().len()),
        Some(2)
    );
    Ok(())
}

// So many pairs of a first commit and a revert.
fn pairs(alloc: Global, log: &mut ClientLog<MemDisk>, count: usize) -> Result<(), Fail> {
    let none = kept(alloc, 0)?;
    let one = kept(alloc, 1)?;
    for _ in 0..count {
        if first(alloc, log, &none)? != Noted::Done {
            return Err(Fail::new("no commit"));
        }
        if log.revert(alloc, &one, &name()?) != Noted::Done {
            return Err(Fail::new("no revert"));
        }
    }
    Ok(())
}

#[test]
fn the_last_of_many_reverts_compacts(rt: HostRuntime) -> Result<(), Fail> {
    let alloc = rt.alloc();
    let mut log = named(alloc)?;
    pairs(alloc, &mut log, 111)?;
    let mut disk = log.down();
    assert_eq!(rt; disk.len(), Size::Len(66_359));
    let Load::Ready(journal, _) = Journal::load(alloc, disk) else {
        return Err(Fail::new("refused"));
    };
    assert_eq!(rt; journal.span(), (65_744, 66_358));
    let (_, kept) = loaded(alloc, journal.down())?;
    assert_eq!(rt; kept.locals.items().len(), 0);
    Ok(())
}

// Notes so many more commits, each after what is kept.
fn commits(
    alloc: Global,
    log: &mut ClientLog<MemDisk>,
    kept: Kept,
    count: usize,
) -> Result<Kept, Fail> {
    let mut kept = kept;
    for _ in 0..count {
        if second(alloc, log, &kept)? != Noted::Done {
            return Err(Fail::new("no commit"));
        }
        let note = Note::Committed {
            db: name()?,
            commit: commit(alloc)?,
        };
        kept = after_note(alloc, kept, note)?;
    }
    Ok(kept)
}

// Uploads so many commits.
fn uploaded(
    alloc: Global,
    log: &mut ClientLog<MemDisk>,
    kept: Kept,
    count: u64,
) -> Result<Kept, Fail> {
    let upload = Uploading {
        count,
        block: 512,
        entry: entry(alloc)?,
    };
    let pending = PendingPub {
        id: id(8),
        upload: Some(upload),
    };
    match log.intent(alloc, &kept, &pending) {
        Noted::Done => {}
        _ => return Err(Fail::new("no intent")),
    }
    let kept = after_note(alloc, kept, Note::Intent(pending))?;
    match log.done(alloc, &id(8), 2) {
        Noted::Done => {}
        _ => return Err(Fail::new("not done")),
    }
    let done = Note::Done {
        id: id(8),
        number: 2,
    };
    Ok(after_note(alloc, kept, done)?)
}

#[test]
fn a_commit_after_an_upload_compacts(rt: HostRuntime) -> Result<(), Fail> {
    let alloc = rt.alloc();
    let mut log = named(alloc)?;
    assert_eq!(rt; first(alloc, &mut log, &kept(alloc, 0)?)?, Noted::Done);
    let kept = commits(alloc, &mut log, kept(alloc, 1)?, 19_999)?;
    let kept = uploaded(alloc, &mut log, kept, 19_990)?;
    let kept = commits(alloc, &mut log, kept, 1)?;
    let Load::Ready(journal, _) = Journal::load(alloc, log.down()) else {
        return Err(Fail::new("refused"));
    };
    let (start, tail) = journal.span();
    assert!(rt; tail < start + 100_000);
    let (_, left) = loaded(alloc, journal.down())?;
    assert_eq!(rt;
        left.locals
            .items()
            .first()
            .map(|local| local.commits.items().len()),
        Some(11)
    );
    Ok(())
}
