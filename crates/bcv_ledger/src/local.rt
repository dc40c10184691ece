//! Commits and reverts: calls that a client makes without the store.
ghost use Rattle.std.specs.Prelude.{◌≡◌, ◌<◌, ◌^◌, IsSome, None, length};
ghost use Rattle.std.specs.Option.{option_map};
ghost use Rattle.bcv_base.specs.Keyed.{keyed};
ghost use Rattle.bcv_base.specs.ManifestRules.{blocks_needed};
ghost use Rattle.bcv_base.specs.Views.{ascends, have_size, is_commit};
ghost use Rattle.bcv_databases.specs.Catalog.{found_at, shown_view};
ghost use Rattle.bcv_databases.specs.Changes.{IsReady};
ghost use Rattle.bcv_model.specs.Commits.{writes_of};
ghost use Rattle.bcv_model.specs.Notes.{kept_name};
ghost use Rattle.bcv_ledger.specs.LocalCalls.{AddsWhere, RevertsWhere, noted_reply};
ghost use Rattle.bcv_ledger.specs.Reasons.{NotesOver, commit_reason_by, revert_reason_by};

use crate::ledger::Ledger;
use crate::where_noted::stands;
use bcv_base::{DbName, Seq};
use bcv_clientlog::ClientLog;
use bcv_databases::{DatabaseView, Databases, ReadyCommit};
use bcv_disk::Disk;
use bcv_journal::Noted;
use bcv_model::{Commit, Reply};
use std::alloc::Global;

/// The most blocks of a database.
const MOST_BLOCKS: u64 = 65_536;

impl<D: Disk> Ledger<D> {
    ghost use Rattle.bcv_clientstate.specs.PartRefusals.{commit_reason_in, revert_reason_in};
    ghost use Rattle.bcv_ledger.specs.LedgerNotes.{parts_in};
    ghost use Rattle.bcv_ledger.specs.LocalCalls.{CommitSteps, LedgerCommits, LedgerReverts, RevertSteps};

    /// Commits to a known database. At `Fine` the commit is kept through a crash.
    pub fn commit(&mut self, alloc: Global, db: DbName, commit: Commit) -> Reply
        ensures commits { LedgerCommits D.told D.shown self.old self.new db commit result }
        ensures steps { D.told.tells → CommitSteps D.shown self.old self.new db
            (writes_of commit) result }
    {
        let _ = commit_size(&commit);
        self.note_commit(alloc, db, commit)
    }

    /// Gives up the commits of a database, whose base is known again. `busy` says whether a publication or a resolve runs.
    pub fn revert(&mut self, alloc: Global, db: DbName, busy: bool) -> Reply
        ensures reverts { LedgerReverts D.told D.shown self.old self.new busy db result }
        ensures steps { D.told.tells → RevertSteps D.shown self.old self.new busy db result }
    {
        self.note_revert(alloc, db, busy)
    }

    // Commits, where nothing speaks against it.
    fn note_commit(&mut self, alloc: Global, db: DbName, commit: Commit) -> Reply
        ensures { LedgerCommits D.told D.shown self.old self.new db commit result }
    {
        let _ = self.log.span();
        if let Some(reason) = self.commit_reason(&db, &commit) {
            return reason;
        }
        let Ok(ready) = self.databases.ready(alloc, &db, &commit) else {
            return Reply::NoMemory;
        };
        let noted = note_over(alloc, &mut self.log, &self.databases, &db, &commit);
        let _ = self.log.span();
        add_where(&mut self.databases, &db, ready, commit, stands(noted));
        noted_reply(noted)
    }

    // Gives up the commits of a database, where nothing speaks against it.
    fn note_revert(&mut self, alloc: Global, db: DbName, busy: bool) -> Reply
        ensures { LedgerReverts D.told D.shown self.old self.new busy db result }
    {
        let _ = self.log.span();
        if let Some(reason) = self.revert_reason(&db, busy) {
            return reason;
        }
        if self.databases.reserve().is_err() {
            return Reply::NoMemory;
        }
        let noted = self.log.revert(alloc, self.databases.kept(), &db);
        let _ = self.log.span();
        revert_where(&mut self.databases, &db, stands(noted));
        noted_reply(noted)
    }

    // Why a commit is refused, if it is.
    fn commit_reason(&self, db: &DbName, commit: &Commit) -> Option<Reply>
        ensures reason { result ≡ commit_reason_in (parts_in self.now) db.now
            (writes_of commit.now) }
        ensures small { commit.now.size < 2 ^ 32 }
    {
        let _ = commit_size(commit);
        commit_reason_by(self.log.closed(), commit, self.databases.find(db))
    }

    // Why a revert is refused, if it is.
    fn revert_reason(&self, db: &DbName, busy: bool) -> Option<Reply>
        ensures { result ≡ revert_reason_in (parts_in self.now) busy db.now }
    {
        let pending = self.databases.kept().pending.is_some();
        revert_reason_by(self.log.closed(), pending, busy, self.databases.find(db))
    }
}

// Why a commit is refused, by the view of its database.
fn commit_reason_by(closed: bool, commit: &Commit, view: Option<DatabaseView<'_>>) -> Option<Reply>
    ensures { result ≡ commit_reason_by closed (writes_of commit.now)
        (option_map shown_view view.entry) }
{
    if closed {
        return Some(Reply::Closed);
    }
    let Some(view) = view else {
        return Some(Reply::NoDatabase);
    };
    if !is_commit(view.entry.page_size, commit) {
        return Some(Reply::BadPage);
    }
    if blocks_needed(view.block, view.entry.page_size, commit.size) > MOST_BLOCKS {
        return Some(Reply::TooLarge);
    }
    None
}

// Why a revert is refused, by the view of its database.
fn revert_reason_by(
    closed: bool,
    pending: bool,
    busy: bool,
    view: Option<DatabaseView<'_>>,
) -> Option<Reply>
    ensures { result ≡ revert_reason_by closed pending busy (option_map shown_view view.entry) }
{
    if closed {
        return Some(Reply::Closed);
    }
    if pending {
        return Some(Reply::Pending);
    }
    if busy {
        return Some(Reply::Busy);
    }
    let Some(view) = view else {
        return Some(Reply::NoDatabase);
    };
    if view.commits.is_none() {
        return Some(Reply::Nothing);
    }
    None
}

// A commit's size in pages.
fn commit_size(commit: &Commit) -> u32
    ensures size { result ≡ commit.now.size }
    ensures small { commit.now.size < 2 ^ 32 }
{
    commit.size
}

// The reply to a call whose note ended so.
fn noted_reply(noted: Noted) -> Reply
    ensures { result ≡ noted_reply noted }
{
    match noted {
        Noted::Done => Reply::Fine,
        Noted::JournalFull => Reply::JournalFull,
        Noted::DiskFault => Reply::DiskFault,
        Noted::Closed => Reply::Closed,
        Noted::NoMemory => Reply::NoMemory,
    }
}

// Whether a commit's pages have this size, and their numbers ascend from 1 to its size.
fn is_commit(page_size: u32, commit: &Commit) -> bool
    ensures { result ≡ is_commit page_size (writes_of commit.now) }
{
    ascends(commit.size, commit.pages.items()) && have_size(page_size, commit.pages.items())
}

// Whether the pages' numbers ascend from 1 to this one.
fn ascends(high: u32, pages: &[(u32, Seq<u8>)]) -> bool
    ensures { result ≡ ascends 0 high pages.now }
{
    let mut low = 0;
    let mut rest = pages;
    while let Some(((number, _), after)) = rest.split_first() {
        if *number <= low || *number > high {
            return false;
        }
        low = *number;
        rest = after;
    }
    true
}

// Whether each page has so many bytes.
fn have_size(page_size: u32, pages: &[(u32, Seq<u8>)]) -> bool
    ensures { result ≡ have_size page_size pages.now }
{
    pages
        .iter()
        .all(|(_, page)| page.items().len() == page_size as usize)
}

// How many blocks of a size hold so many pages; none of size 0.
fn blocks_needed(block: u32, page_size: u32, pages: u32) -> u64
    ensures { result ≡ blocks_needed block page_size pages }
{
    let bytes = pages as u64 * page_size as u64 + (block as u64).saturating_sub(1);
    bytes.checked_div(block as u64).unwrap_or(0)
}

// Notes a commit of a known database: its first one, or one more.
fn note_over<D: Disk>(
    alloc: Global,
    log: &mut ClientLog<D>,
    databases: &Databases,
    db: &DbName,
    commit: &Commit,
) -> Noted
    requires known { IsSome (found_at databases.now db.now) }
    requires few { length commit.now.pages < 2 ^ 32 }
    ensures { NotesOver D.told D.shown log.old log.new databases.now db.now commit.now result }
{
    let Some(view) = databases.find(db) else {
        unreachable!()
    };
    if view.commits.is_some() {
        return log.commit(alloc, databases.kept(), db, commit);
    }
    log.first(
        alloc,
        databases.kept(),
        view.entry,
        view.number,
        view.block,
        commit,
    )
}

// The commit is added, where its note stands.
fn add_where(
    databases: &mut Databases,
    db: &DbName,
    ready: ReadyCommit,
    commit: Commit,
    stands: bool,
)
    requires { IsReady databases.old db.now commit ready }
    ensures { AddsWhere stands databases.old databases.new db.now commit }
{
    if stands {
        databases.add(db, ready, commit);
    }
}

// The commits are given up, where the note of it stands.
fn revert_where(databases: &mut Databases, db: &DbName, stands: bool)
    requires local { IsSome (keyed kept_name db.now databases.old.kept.locals) }
    requires free { databases.old.kept.pending ≡ None }
    requires room { length databases.old.known < databases.old.rooms.known }
    ensures { RevertsWhere stands databases.old databases.new db.now }
{
    if stands {
        databases.revert(db);
    }
}
