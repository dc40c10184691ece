use bcv_base::Seq;
use bcv_model::{Commit, Kept, Note};
use bcv_notes::{
    after_note, committed_note, done_note, first_note, intent_note, me_note, read_note,
    revert_note, void_note,
};
use std::alloc::{AllocError, Global};
use std::test::Fail;

const ME: [u8; 17] = [1, 2, 2, 2, 2, 2, 2, 2, 2, 2, 2, 2, 2, 2, 2, 2, 2];

// A database `a` of one page of 512 bytes in blocks of 1,024, as version 3 had it, and up to its page's bytes.
const FIRST: [u8; 67] = [
    2, 0, 0, 4, 0, 0, 0, 0, 0, 0, 0, 0, 3, 1, 97, 7, 7, 7, 7, 7, 7, 7, 7, 7, 7, 7, 7, 7, 7, 7, 7,
    0, 0, 2, 0, 0, 0, 0, 1, 9, 9, 9, 9, 9, 9, 9, 9, 9, 9, 9, 9, 9, 9, 9, 9, 0, 0, 0, 1, 0, 0, 0, 1,
    0, 0, 0, 1,
];

const COMMITTED: [u8; 15] = [3, 1, 97, 0, 0, 0, 2, 0, 0, 0, 1, 0, 0, 0, 2];

const INTENT: [u8; 18] = [4, 8, 8, 8, 8, 8, 8, 8, 8, 8, 8, 8, 8, 8, 8, 8, 8, 0];

// An intent to upload the first commit of `a`.
const UPLOAD: [u8; 72] = [
    4, 8, 8, 8, 8, 8, 8, 8, 8, 8, 8, 8, 8, 8, 8, 8, 8, 1, 0, 0, 0, 0, 0, 0, 0, 1, 0, 0, 4, 0, 1,
    97, 6, 6, 6, 6, 6, 6, 6, 6, 6, 6, 6, 6, 6, 6, 6, 6, 0, 0, 2, 0, 0, 0, 0, 1, 5, 5, 5, 5, 5, 5,
    5, 5, 5, 5, 5, 5, 5, 5, 5, 5,
];

const DONE: [u8; 25] = [
    5, 8, 8, 8, 8, 8, 8, 8, 8, 8, 8, 8, 8, 8, 8, 8, 8, 0, 0, 0, 0, 0, 0, 0, 4,
];

const VOID: [u8; 17] = [6, 8, 8, 8, 8, 8, 8, 8, 8, 8, 8, 8, 8, 8, 8, 8, 8];

const REVERT: [u8; 3] = [7, 1, 97];

// A note that ends with a page of 512 bytes.
fn with_page(alloc: Global, front: &[u8]) -> Result<Vec<u8>, AllocError> {
    let mut item = front.to_vec(alloc)?;
    item.extend_from_slice(&[6; 512])?;
    Ok(item)
}

// The bytes of a note.
fn written(alloc: Global, note: &Note) -> Result<Vec<u8>, AllocError> {
    match note {
        Note::Me(id) => me_note(alloc, id),
        Note::First {
            entry,
            number,
            block,
            commit,
        } => {
            if commit.pages.items().len() > 9 {
                return Err(AllocError);
            }
            first_note(alloc, entry, *number, *block, commit)
        }
        Note::Committed { db, commit } => {
            if commit.pages.items().len() > 9 {
                return Err(AllocError);
            }
            committed_note(alloc, db, commit)
        }
        Note::Intent(pending) => intent_note(alloc, pending),
        Note::Done { id, number } => done_note(alloc, id, *number),
        Note::Void(id) => void_note(alloc, id),
        Note::Revert(db) => revert_note(alloc, db),
    }
}

// What is kept after one more item, which is a note that is written as it was read.
fn after_item(alloc: Global, kept: Kept, item: &[u8]) -> Result<Kept, Fail> {
    let note = match read_note(alloc, &kept, item)? {
        Some(note) => note,
        None => return Err(Fail::new("no note")),
    };
    if written(alloc, &note)?.as_slice() != item {
        return Err(Fail::new("written otherwise"));
    }
    Ok(after_note(alloc, kept, note)?)
}

fn nothing(alloc: Global) -> Kept {
    Kept {
        me: None,
        locals: Seq::of(Vec::new(alloc)),
        pending: None,
    }
}

// A client with a name and two commits of `a`.
fn two_commits(alloc: Global) -> Result<Kept, Fail> {
    let kept = after_item(alloc, nothing(alloc), &ME)?;
    let kept = after_item(alloc, kept, &with_page(alloc, &FIRST)?)?;
    after_item(alloc, kept, &with_page(alloc, &COMMITTED)?)
}

fn is_refused(alloc: Global, kept: &Kept, item: &[u8]) -> Result<bool, Fail> {
    Ok(read_note(alloc, kept, item)?.is_none())
}

#[test]
fn an_upload_takes_its_commits(rt: HostRuntime) -> Result<(), Fail> {
    let alloc = rt.alloc();
    let kept = after_item(alloc, two_commits(alloc)?, &UPLOAD)?;
    let kept = after_item(alloc, kept, &DONE)?;
    assert!(rt; kept.pending.is_none());
    let locals = kept.locals.items();
    assert_eq!(rt; locals.len(), 1);
    assert_eq!(rt; locals[0].number, 4);
    assert_eq!(rt; locals[0].entry.tag.0, [6; 16]);
    assert_eq!(rt; locals[0].commits.items().len(), 1);
    let kept = after_item(alloc, kept, &UPLOAD)?;
    let kept = after_item(alloc, kept, &DONE)?;
    assert_eq!(rt; kept.locals.items().len(), 0);
    Ok(())
}

#[test]
fn other_notes_leave_the_commits(rt: HostRuntime) -> Result<(), Fail> {
    let alloc = rt.alloc();
    let kept = after_item(alloc, two_commits(alloc)?, &INTENT)?;
    let kept = after_item(alloc, kept, &DONE)?;
    let kept = after_item(alloc, kept, &UPLOAD)?;
    let kept = after_item(alloc, kept, &VOID)?;
    assert!(rt; kept.pending.is_none());
    assert_eq!(rt; kept.locals.items().len(), 1);
    let kept = after_item(alloc, kept, &REVERT)?;
    assert_eq!(rt; kept.locals.items().len(), 0);
    Ok(())
}

#[test]
fn notes_that_may_not_stand(rt: HostRuntime) -> Result<(), Fail> {
    let alloc = rt.alloc();
    let first = with_page(alloc, &FIRST)?;
    let committed = with_page(alloc, &COMMITTED)?;
    let none = nothing(alloc);
    for item in [
        first.as_slice(),
        &committed,
        &INTENT,
        &UPLOAD,
        &DONE,
        &VOID,
        &REVERT,
        &[],
        &[0],
        &[8],
    ] {
        assert!(rt; is_refused(alloc, &none, item)?);
    }
    let named = after_item(alloc, none, &ME)?;
    for item in [ME.as_slice(), &committed, &UPLOAD, &DONE, &VOID, &REVERT] {
        assert!(rt; is_refused(alloc, &named, item)?);
    }
    let kept = two_commits(alloc)?;
    for item in [ME.as_slice(), &first, &DONE, &VOID] {
        assert!(rt; is_refused(alloc, &kept, item)?);
    }
    let pending = after_item(alloc, kept, &INTENT)?;
    for item in [INTENT.as_slice(), &UPLOAD, &REVERT] {
        assert!(rt; is_refused(alloc, &pending, item)?);
    }
    Ok(())
}

#[test]
fn cut_and_longer_items(rt: HostRuntime) -> Result<(), Fail> {
    let alloc = rt.alloc();
    let kept = two_commits(alloc)?;
    let committed = with_page(alloc, &COMMITTED)?;
    for item in [committed.as_slice(), &INTENT, &UPLOAD, &REVERT] {
        for cut in 0..item.len() {
            assert!(rt; is_refused(alloc, &kept, item.get(..cut).unwrap_or(&[]))?);
        }
        let mut longer = item.to_vec(alloc)?;
        longer.push(0)?;
        assert!(rt; is_refused(alloc, &kept, &longer)?);
    }
    Ok(())
}
