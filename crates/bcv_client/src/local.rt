//! Commits and reverts: what a client writes without the store.
ghost use Rattle.std.specs.Prelude.{◌≡◌, ◌<◌, ◌^◌, ◌+◌};
ghost use Rattle.bcv_ledger.specs.LocalCalls.{LedgerCommits};
ghost use Rattle.bcv_machine.specs.LocalWriting.{Commits, Reverts};
ghost use Rattle.bcv_model.specs.Commits.{writes_of};
ghost use Rattle.bcv_client.specs.AnyMoment.{LocalMoments, NotesOfCommit, NotesOfRevert};
ghost use Rattle.bcv_client.specs.CallFaults.{DiskFailsAs};
ghost use Rattle.bcv_client.specs.Events.{Noting};
ghost use Rattle.bcv_client.specs.Falls.{FallsHere};
ghost use Rattle.bcv_client.specs.InForm.{InForm};
ghost use Rattle.bcv_client.specs.LocalWrites.{ClientReverts, OnlyLedger, OnlyWrites, is_fine};

use crate::client::Client;
use crate::trims::{set_of, trim_where};
use bcv_base::DbName;
use bcv_disk::Disk;
use bcv_model::{Commit, Reply};
use std::alloc::Global;

impl<D: Disk> Client<D> {
    /// Commits to a known database. At `Fine` the commit is kept through a crash, and is uploaded by the next upload of the
    /// database.
    pub fn commit(&mut self, alloc: Global, db: DbName, commit: Commit) -> Reply
        requires form { InForm self.old }
        requires taken { self.old.taken < 2 ^ 63 }
        ensures form { InForm self.new }
        ensures taken { self.new.taken ≡ self.old.taken + 1 }
        ensures others { OnlyWrites self.old self.new }
        ensures commits { LedgerCommits D.told D.shown self.old.ledger self.new.ledger db commit
            result }
        ensures disk { DiskFailsAs D.told D.shown self.old self.new result }
        ensures steps { D.told.tells → Noting D.shown
            (λ s u t. Commits s u db (writes_of commit) result t) self.old self.new result }
        ensures falls { FallsHere D.told D.shown self.old self.new }
        ensures any_moment { LocalMoments (NotesOfCommit self.old.ledger.databases db commit)
            D.told D.shown self.old self.new }
    {
        let _ = commit_size(&commit);
        self.taken += 1;
        let reply = self.ledger.commit(alloc, db, commit);
        let _ = self.ledger.databases.kept();
        reply
    }

    /// Gives up the commits of a database, whose base is known again.
    pub fn revert(&mut self, alloc: Global, db: DbName) -> Reply
        requires form { InForm self.old }
        ensures form { InForm self.new }
        ensures others { OnlyLedger self.old self.new }
        ensures reverts { ClientReverts D.told D.shown self.old self.new db result }
        ensures disk { DiskFailsAs D.told D.shown self.old self.new result }
        ensures steps { D.told.tells → Noting D.shown (λ s u t. Reverts s u db result t)
            self.old self.new result }
        ensures falls { FallsHere D.told D.shown self.old self.new }
        ensures any_moment { LocalMoments (NotesOfRevert db) D.told D.shown self.old self.new }
    {
        let busy = self.runs_publication();
        let set = set_of(self.ledger.find(&db));
        let reply = self.ledger.revert(alloc, db, busy);
        trim_where(
            &mut self.ledger,
            &self.txns,
            &self.tasks,
            set,
            is_fine(&reply),
        );
        let _ = self.ledger.databases.kept();
        reply
    }
}

// Whether a call did what it was asked.
fn is_fine(reply: &Reply) -> bool
    ensures { result ≡ is_fine reply.now }
{
    matches!(reply, Reply::Fine)
}

// A commit's size in pages.
fn commit_size(commit: &Commit) -> u32
    ensures size { result ≡ commit.now.size }
    ensures small { commit.now.size < 2 ^ 32 }
{
    commit.size
}
