ghost use Rattle.std.specs.Prelude.{◌≡◌, ◌≢◌, true, IfSome, is_some};
ghost use Rattle.bcv_clientlog.specs.LogParts.{is_waiting};
ghost use Rattle.bcv_databases.specs.Sound.{CanUpload};

use crate::where_noted::{finish_where, intend_where, stands, void_where};
use bcv_base::Id16;
use bcv_clientlog::ClientLog;
use bcv_databases::Databases;
use bcv_disk::Disk;
use bcv_journal::Noted;
use bcv_model::PendingPub;
use std::alloc::Global;

/// A client's log and the databases that it knows. What the log's notes come to is what the databases keep.
#[derive(Drop)]
pub struct Ledger<D: Disk> {
    pub log: ClientLog<D>,
    pub databases: Databases,
    ghost waits: { is_some databases.kept.pending ≡ true → is_waiting log ≡ true },
}

impl<D: Disk> Ledger<D> {
    ghost use Rattle.bcv_model.specs.declared.note.Note.TheVariants.{Done, Intent, Void};
    ghost use Rattle.bcv_ledger.specs.LedgerNotes.{LedgerNotes};

    /// Notes a publication that is about to be tried. At `Done` it is pending.
    pub fn intend(&mut self, alloc: Global, pending: PendingPub) -> Noted
        requires { IfSome pending.upload (CanUpload self.old.databases.kept.locals) }
        ensures { LedgerNotes D.told D.shown self.old self.new (Intent pending) result }
    {
        let _ = self.log.span();
        let noted = self.log.intent(alloc, self.databases.kept(), &pending);
        let _ = self.log.span();
        intend_where(&mut self.databases, pending, stands(noted));
        noted
    }

    /// Notes that the publication of this id, the pending one, was made as the version of a number. At `Done` nothing is
    /// pending, and the commits that it uploaded have left.
    pub fn finish(&mut self, alloc: Global, id: Id16, number: u64) -> Noted
        requires { is_some self.old.databases.kept.pending ≡ true }
        ensures notes { LedgerNotes D.told D.shown self.old self.new (Done id number) result }
        ensures fits { result ≢ Noted.JournalFull }
    {
        let _ = self.log.span();
        let noted = self.log.done(alloc, &id, number);
        let _ = self.log.span();
        finish_where(&mut self.databases, number, stands(noted));
        noted
    }

    /// Notes that the publication of this id, the pending one, was not made. At `Done` nothing is pending.
    pub fn void(&mut self, alloc: Global, id: Id16) -> Noted
        requires { is_some self.old.databases.kept.pending ≡ true }
        ensures notes { LedgerNotes D.told D.shown self.old self.new (Void id) result }
        ensures fits { result ≢ Noted.JournalFull }
    {
        let _ = self.log.span();
        let noted = self.log.void(alloc, &id);
        let _ = self.log.span();
        void_where(&mut self.databases, stands(noted));
        noted
    }
}
