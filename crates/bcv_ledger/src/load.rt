//! A ledger that is loaded or stands over a log, and the first note of a new one.
ghost use Rattle.std.specs.Prelude.{◌≡◌, ◌≢◌, ◌+◌, ◌≤◌, ◌^◌, [], true, IfOk, is_some};
ghost use Rattle.bcv_clientlog.specs.LogParts.{is_waiting, log_tail};
ghost use Rattle.bcv_databases.specs.Sound.{AreLoaded};
ghost use Rattle.bcv_model.specs.Notes.{after_note, nothing_kept};
ghost use Rattle.bcv_model.specs.declared.note.Note.TheVariants.{Me};
ghost use Rattle.bcv_ledger.specs.LedgerLoads.{NamedWhere};

use crate::ledger::Ledger;
use crate::where_noted::stands;
use bcv_base::Id16;
use bcv_clientlog::{ClientLog, LogLoad};
use bcv_databases::Databases;
use bcv_disk::Disk;
use bcv_journal::{JournalFault, Noted};
use bcv_model::Kept;
use bcv_notes::nothing_kept;
use std::alloc::{AllocError, Global};

/// What a load gives: the ledger, or the disk back.
#[derive(Drop)]
pub enum LedgerLoad<D: Disk> {
    Ready(Ledger<D>),
    Refused(D, JournalFault),
}

impl<D: Disk> Ledger<D> {
    ghost use Rattle.bcv_ledger.specs.LedgerLoads.{IsOver, LedgerLoads, NotesMe};

    /// Loads the ledger of a disk: its log, and the databases that the log's notes come to. No database without commits is
    /// known yet. Where the disk holds no log, or the disk fails, or memory is missing, the disk comes back.
    pub fn load(alloc: Global, disk: D) -> LedgerLoad<D>
        ensures { LedgerLoads D.told D.shown disk result }
    {
        match ClientLog::load(alloc, disk) {
            LogLoad::Ready(log, kept) => Ledger::over(alloc, log, kept),
            LogLoad::Refused(disk, fault) => LedgerLoad::Refused(disk, fault),
        }
    }

    /// A ledger over a log, of which this is kept. No database without commits is known yet. Where memory is missing the disk
    /// comes back.
    pub fn over(alloc: Global, log: ClientLog<D>, kept: Kept) -> LedgerLoad<D>
        requires loaded { AreLoaded kept }
        requires waits { is_some kept.pending ≡ true → is_waiting log ≡ true }
        ensures { IsOver log kept result }
    {
        match Databases::new(alloc, kept) {
            Ok(databases) => LedgerLoad::Ready(Ledger { log, databases }),
            Err(_) => LedgerLoad::Refused(log.down(), JournalFault::NoMemory),
        }
    }

    /// Notes the client's id, as the first note of a new log, before anything else is called. A log that was loaded without an
    /// id has room for it.
    pub fn me(&mut self, alloc: Global, id: Id16) -> Noted
        requires { self.old.databases.kept ≡ nothing_kept }
        ensures notes { NotesMe D.told D.shown self.old self.new id result }
        ensures fits { log_tail self.old.log + 87 ≤ 2 ^ 31 → result ≢ Noted.JournalFull }
    {
        let _ = self.log.span();
        let Ok(named) = databases_of(alloc, id) else {
            return Noted::NoMemory;
        };
        let noted = self.log.me(alloc, &id);
        let _ = self.log.span();
        name_where(&mut self.databases, named, id, stands(noted));
        noted
    }
}

// The databases of a client that has noted its id and nothing else.
fn databases_of(alloc: Global, id: Id16) -> Result<Databases, AllocError>
    ensures kept { IfOk result (λ d. d.kept ≡ after_note nothing_kept (Me id)) }
    ensures known { IfOk result (λ d. d.known ≡ []) }
{
    let mut kept = nothing_kept(alloc);
    kept.me = Some(id);
    Databases::new(alloc, kept)
}

// The id is kept, where its note stands.
fn name_where(databases: &mut Databases, named: Databases, id: Id16, stands: bool)
    requires kept { named.kept ≡ after_note nothing_kept (Me id) }
    requires known { named.known ≡ [] }
    ensures { NamedWhere stands databases.old databases.new id }
{
    let _ = id;
    if stands {
        *databases = named;
    }
}
