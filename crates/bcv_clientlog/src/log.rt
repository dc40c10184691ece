ghost use Rattle.std.specs.Prelude.{◌≡◌, ◌≢◌, ◌<◌, ◌≤◌, ◌+◌, ◌^◌, Some, true, List, ℕ, length};
ghost use Rattle.bcv_journal.specs.Parts.{tail_at};
ghost use Rattle.bcv_model.specs.declared.note.Note.TheVariants.{Me, First, Committed, Intent, Done, Void, Revert};

use crate::compaction::is_dense;
use crate::noting::{SPARE, add, add_compactly};
use bcv_base::{DbEntry, DbName, Id16};
use bcv_disk::{Disk, Planned};
use bcv_journal::{Journal, Noted};
use bcv_model::{Commit, Kept, PendingPub};
use bcv_notes::{
    committed_note, done_note, first_note, intent_note, me_note, revert_note, void_note,
};
use std::alloc::Global;

/// A client's log, open for notes until its disk fails.
///
/// Each call that notes something has as its condition that the note may stand where this is kept. `Closed` comes
/// first, then `JournalFull`. After `DiskFault` the note is on the disk or not, and every later call answers
/// `Closed`.
#[derive(Drop)]
pub struct ClientLog<D: Disk> {
    pub(crate) journal: Journal<D>,
    // Whether a publication is pending.
    pub(crate) pending: bool,
    // Whether it is long and more than half of it stays, as far as it was looked into.
    pub(crate) dense: bool,
    ghost room: { pending ≡ true → tail_at journal + 65 ≤ 2 ^ 31 },
}

impl<D: Disk> ClientLog<D> {
    ghost use Rattle.bcv_model.specs.declared.kept.Kept.{Kept};
    ghost use Rattle.bcv_clientlog.specs.LogParts.{Holds, LoadsAs, is_shut, is_waiting, log_area, log_disk, log_start, log_tail};
    ghost use Rattle.bcv_clientlog.specs.Noting.{LogCompacts, LogNotes};

    /// Notes the client's id, as the first note. A log that was loaded without it has room for it.
    pub fn me(&mut self, alloc: Global, id: &Id16) -> Noted
        ensures notes { LogNotes D.told D.shown self.old self.new (Me id.now) result }
        ensures fits { log_tail self.old + 87 ≤ 2 ^ 31 → result ≢ Noted.JournalFull }
    {
        let _ = id.bytes();
        self.dense = false;
        add(alloc, &mut self.journal, me_note(alloc, id), SPARE)
    }

    /// Notes a database's first commit, with its base and the container's block size in bytes. `kept` is what is kept
    /// before it.
    pub fn first(
        &mut self,
        alloc: Global,
        kept: &Kept,
        entry: &DbEntry,
        number: u64,
        block: u32,
        commit: &Commit,
    ) -> Noted
        requires few { length commit.now.pages < 2 ^ 32 }
        ensures { LogCompacts D.told D.shown self.old self.new kept.now
            (First entry.now number block commit.now) result }
    {
        self.dense = is_dense(&self.journal, kept, self.dense);
        let text = first_note(alloc, entry, number, block, commit);
        add_compactly(alloc, &mut self.journal, kept, self.dense, text)
    }

    /// Notes one more commit of a database. `kept` is what is kept before it.
    pub fn commit(&mut self, alloc: Global, kept: &Kept, db: &DbName, commit: &Commit) -> Noted
        requires few { length commit.now.pages < 2 ^ 32 }
        ensures { LogCompacts D.told D.shown self.old self.new kept.now
            (Committed db.now commit.now) result }
    {
        self.dense = is_dense(&self.journal, kept, self.dense);
        let text = committed_note(alloc, db, commit);
        add_compactly(alloc, &mut self.journal, kept, self.dense, text)
    }

    /// Notes a publication that is about to be tried. It is pending from then on. `kept` is what is kept before it.
    pub fn intent(&mut self, alloc: Global, kept: &Kept, pending: &PendingPub) -> Noted
        ensures notes { LogCompacts D.told D.shown self.old self.new kept.now
            (Intent pending.now) result }
        ensures waits { result ≡ Noted.Done → is_waiting self.new ≡ true }
    {
        self.dense = is_dense(&self.journal, kept, self.dense);
        let text = intent_note(alloc, pending);
        let noted = add_compactly(alloc, &mut self.journal, kept, self.dense, text);
        if noted == Noted::Done {
            self.pending = true;
        }
        noted
    }

    /// Notes that the pending publication was made, as the version of a number. There is always room for it.
    pub fn done(&mut self, alloc: Global, id: &Id16, number: u64) -> Noted
        requires waits { is_waiting self.old ≡ true }
        ensures notes { LogNotes D.told D.shown self.old self.new (Done id.now number) result }
        ensures fits { result ≢ Noted.JournalFull }
    {
        let _ = id.bytes();
        self.dense = false;
        let noted = add(alloc, &mut self.journal, done_note(alloc, id, number), 0);
        if noted == Noted::Done {
            self.pending = false;
        }
        noted
    }

    /// Notes that the pending publication was not made. There is always room for it.
    pub fn void(&mut self, alloc: Global, id: &Id16) -> Noted
        requires waits { is_waiting self.old ≡ true }
        ensures notes { LogNotes D.told D.shown self.old self.new (Void id.now) result }
        ensures fits { result ≢ Noted.JournalFull }
    {
        let _ = id.bytes();
        self.dense = false;
        let noted = add(alloc, &mut self.journal, void_note(alloc, id), 0);
        if noted == Noted::Done {
            self.pending = false;
        }
        noted
    }

    /// Notes that a database's commits are given up. `kept` is what is kept before it.
    pub fn revert(&mut self, alloc: Global, kept: &Kept, db: &DbName) -> Noted
        ensures { LogCompacts D.told D.shown self.old self.new kept.now (Revert db.now) result }
    {
        let dense = is_dense(&self.journal, kept, self.dense);
        self.dense = false;
        add_compactly(
            alloc,
            &mut self.journal,
            kept,
            dense,
            revert_note(alloc, db),
        )
    }

    /// Whether a call has met a fault of the disk.
    pub fn closed(&self) -> bool
        ensures { result ≡ is_shut self.now }
    {
        self.journal.closed()
    }

    /// Where its notes begin and end, in bytes. A crash now leaves what the log holds.
    pub fn span(&self) -> (u64, u64)
        ensures start { result.0 ≡ log_start self.now }
        ensures tail { result.1 ≡ log_tail self.now }
        ensures order { log_start self.now ≤ log_tail self.now }
        ensures leaves { (k : Kept) → Holds D.shown self.now k → (image : List ℕ)
            → (D.shown (log_disk self.now)).may_leave image
            → LoadsAs image k (log_tail self.now + log_area self.now) }
    {
        self.journal.span()
    }

    /// The disk back. A crash leaves what the log holds.
    pub fn down(self) -> D
        ensures disk { result ≡ log_disk self }
        ensures leaves { (k : Kept) → Holds D.shown self k → (image : List ℕ)
            → (D.shown result).may_leave image
            → LoadsAs image k (log_tail self + log_area self) }
    {
        let ClientLog {
            journal,
            pending: _,
            dense: _,
        } = self;
        let _ = journal.span();
        journal.down()
    }
}

impl<D: Planned> ClientLog<D> {
    ghost use Rattle.bcv_clientlog.specs.LogParts.{log_disk};
    ghost use Rattle.bcv_clientlog.specs.Noting.{LogPlans};

    /// Plans a crash of the disk: `calls` further calls of it pass, and the next one leaves the image of that number.
    pub fn fuse(&mut self, calls: u32, image: u8)
        requires image { image < 5 }
        ensures { LogPlans D.shown self.old self.new
            (record (D.shown (log_disk self.old)).trouble { fuse = Some (calls, image) }) }
    {
        self.journal.fuse(calls, image);
    }

    /// Plans a failure of the disk: `calls` further calls of it pass, and the next one fails.
    pub fn fail(&mut self, calls: u32)
        ensures { LogPlans D.shown self.old self.new
            (record (D.shown (log_disk self.old)).trouble { failure = Some calls }) }
    {
        self.journal.fail(calls);
    }

    /// Whether a fuse has burnt the disk.
    pub fn burnt(&self) -> bool
        ensures { result ≡ (D.shown (log_disk self.now)).trouble.burnt }
    {
        self.journal.burnt()
    }
}
