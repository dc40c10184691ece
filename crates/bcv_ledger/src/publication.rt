//! The notes of a publication, as faults that end a step.
ghost use Rattle.std.specs.Prelude.{◌≡◌, ◌≢◌, ◌<◌, ◌^◌, true, false, IfErr, IfSome, OnOk, Some, is_some};
ghost use Rattle.bcv_base.specs.ManifestRules.{Ascends, db_name};
ghost use Rattle.bcv_clientlog.specs.LogParts.{is_shut};
ghost use Rattle.bcv_clientstate.specs.KnownLaws.{known_of};
ghost use Rattle.bcv_databases.specs.Sound.{CanUpload};
ghost use Rattle.bcv_model.specs.Notes.{after_note};
ghost use Rattle.bcv_ledger.specs.NoteEnds.{noted_fault};

use crate::ledger::Ledger;
use crate::where_noted::{poll_where, resolve_where, stands};
use bcv_base::{Id16, Manifest};
use bcv_databases::known_in;
use bcv_disk::Disk;
use bcv_journal::Noted;
use bcv_model::{PendingPub, Reply};
use std::alloc::{AllocError, Global};

/// The fault that a note answers, where it does not stand.
pub(crate) fn noted_fault(noted: Noted) -> Option<Reply>
    ensures { result ≡ noted_fault noted }
{
    match noted {
        Noted::Done => None,
        Noted::JournalFull => Some(Reply::JournalFull),
        Noted::DiskFault => Some(Reply::DiskFault),
        Noted::Closed => Some(Reply::Closed),
        Noted::NoMemory => Some(Reply::NoMemory),
    }
}

impl<D: Disk> Ledger<D> {
    ghost use Rattle.bcv_model.specs.declared.note.Note.TheVariants.{Done, Void};
    ghost use Rattle.bcv_ledger.specs.Begins.{Begins, WaitsFor};
    ghost use Rattle.bcv_ledger.specs.NoteEnds.{NoteEnds, known_found};

    /// Notes the intent of a publication, where it is not pending yet. A fault ends the step.
    pub fn begin(&mut self, alloc: Global, pending: PendingPub) -> Option<Reply>
        requires waits { WaitsFor self.old.databases.kept.pending pending }
        requires upload { IfSome pending.upload (CanUpload self.old.databases.kept.locals) }
        requires is_open { is_shut self.old.log ≡ false }
        ensures { Begins D.told D.shown self.old self.new pending result }
    {
        let _ = self.log.span();
        if self.databases.kept().pending.is_some() {
            return None;
        }
        noted_fault(self.intend(alloc, pending))
    }

    /// Notes that the pending publication of this id was made as the version of a number, with this manifest, whose databases
    /// are known then. A fault ends the step.
    pub fn made(
        &mut self,
        alloc: Global,
        id: Id16,
        number: u64,
        manifest: &Manifest,
    ) -> Option<Reply>
        requires waits { is_some self.old.databases.kept.pending ≡ true }
        requires is_open { is_shut self.old.log ≡ false }
        requires order { Ascends db_name manifest.now.dbs }
        ensures ends { NoteEnds D.told D.shown self.old self.new (Done id number)
            (known_of (after_note self.old.databases.kept (Done id number)) manifest.now) result }
        ensures fits { result ≢ Some Reply.JournalFull }
        ensures number { number < 2 ^ 64 }
    {
        let _ = self.log.span();
        let Ok(found) = known_in(alloc, manifest) else {
            return Some(Reply::NoMemory);
        };
        let noted = self.finish(alloc, id, number);
        poll_where(&mut self.databases, found, stands(noted));
        noted_fault(noted)
    }

    /// Notes that the pending publication of this id was not made. A fault ends the step.
    pub fn unmade(&mut self, alloc: Global, id: Id16) -> Option<Reply>
        requires waits { is_some self.old.databases.kept.pending ≡ true }
        requires is_open { is_shut self.old.log ≡ false }
        ensures ends { NoteEnds D.told D.shown self.old self.new
            (Void id) self.old.databases.known result }
        ensures fits { result ≢ Some Reply.JournalFull }
    {
        noted_fault(self.void(alloc, id))
    }

    /// Notes that the pending publication of this id was found to be made, as the version of a number. The database of an
    /// upload is known as it was published, where it has no commits left. A fault ends the step.
    pub fn resolved(&mut self, alloc: Global, id: Id16, number: u64) -> Option<Reply>
        requires waits { is_some self.old.databases.kept.pending ≡ true }
        requires is_open { is_shut self.old.log ≡ false }
        ensures ends { NoteEnds D.told D.shown self.old self.new (Done id number)
            (known_found self.old.databases.kept id number self.old.databases.known) result }
        ensures fits { result ≢ Some Reply.JournalFull }
        ensures number { number < 2 ^ 64 }
    {
        let _ = self.log.span();
        if self.databases.reserve().is_err() {
            return Some(Reply::NoMemory);
        }
        let noted = self.log.done(alloc, &id, number);
        let _ = self.log.span();
        resolve_where(&mut self.databases, number, stands(noted));
        noted_fault(noted)
    }

    /// Knows the databases of a manifest that have no commits here, and no others without commits.
    pub fn poll(&mut self, alloc: Global, manifest: &Manifest) -> Result<(), AllocError>
        requires order { Ascends db_name manifest.now.dbs }
        ensures log { self.new.log ≡ self.old.log }
        ensures kept { self.new.databases.kept ≡ self.old.databases.kept }
        ensures known { OnOk result (self.new.databases.known
            ≡ known_of self.old.databases.kept manifest.now) }
        ensures sets { self.new.databases.sets ≡ self.old.databases.sets }
        ensures same { IfErr result (λ e. self.new.databases ≡ self.old.databases) }
    {
        let found = known_in(alloc, manifest)?;
        self.databases.polled(found);
        Ok(())
    }
}
