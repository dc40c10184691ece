//! What a ledger shows: its databases, and what is pending.
ghost use Rattle.std.specs.Prelude.{◌≡◌, ◌≤◌, ◌+◌, ℕ, List, IfOk, IfSome, is_some};
ghost use Rattle.std.specs.Option.{option_map};
ghost use Rattle.bcv_clientlog.specs.LogParts.{is_shut};
ghost use Rattle.bcv_databases.specs.Catalog.{found_at, shown_view};
ghost use Rattle.bcv_databases.specs.Changes.{KeepsFrom, Trims};
ghost use Rattle.bcv_databases.specs.Sound.{AreDatabases};
ghost use Rattle.bcv_databases.specs.Table.{table_of};

use crate::ledger::Ledger;
use bcv_base::{DbName, Seq};
use bcv_databases::DatabaseView;
use bcv_disk::Disk;
use bcv_model::{PendingPub, Row};
use std::alloc::{AllocError, Global};

impl<D: Disk> Ledger<D> {
    ghost use Rattle.bcv_model.specs.declared.kept.Kept.{Kept};
    ghost use Rattle.bcv_clientlog.specs.LogParts.{Holds, LoadsAs, log_area, log_disk, log_tail};
    ghost use Rattle.bcv_ledger.specs.Rests.{LedgerRests};

    /// Whether a call has met a fault of the disk. Every later note answers `Closed`.
    pub fn closed(&self) -> bool
        ensures { result ≡ is_shut self.now.log }
    {
        self.log.closed()
    }

    /// The publication of which it is not known yet whether it was made.
    pub fn pending(&self) -> Option<&PendingPub>
        ensures { option_map (λ p. p.now) result ≡ self.now.databases.kept.pending }
    {
        self.databases.kept().pending.as_ref()
    }

    /// The database of a name, or `None` where it is not known.
    pub fn find(&self, db: &DbName) -> Option<DatabaseView<'_>>
        ensures found { option_map shown_view result ≡ found_at self.now.databases db.now }
        ensures sound { AreDatabases self.now.databases }
    {
        let _ = self.databases.kept();
        self.databases.find(db)
    }

    /// The size of a database's pages in bytes, or `None` where it is not known.
    pub fn page_size(&self, db: &DbName) -> Option<u32>
        ensures { result ≡ option_map (λ v. v.entry.page_size)
            (found_at self.now.databases db.now) }
    {
        match self.databases.find(db) {
            Some(view) => Some(view.entry.page_size),
            None => None,
        }
    }

    /// The table of all databases, ascending by name, and whether a publication is pending.
    pub fn list(&self, alloc: Global) -> Result<(Seq<Row>, bool), AllocError>
        ensures rows { IfOk result (λ x. x.0 ≡ table_of self.now.databases) }
        ensures pending { IfOk result (λ x. x.1 ≡ is_some self.now.databases.kept.pending) }
    {
        let rows = self.databases.rows(alloc)?;
        let pending = self.databases.kept().pending.is_some();
        Ok((Seq::of(rows), pending))
    }

    /// Forgets the commits of a set that neither its database nor a transaction needs, and drops a set that nobody uses.
    /// `oldest` is the least number after which a transaction's commits begin in it, or `None` where no transaction uses
    /// the set.
    pub fn trim(&mut self, set: usize, oldest: Option<u64>)
        ensures log { self.new.log ≡ self.old.log }
        ensures trims { Trims self.old.databases self.new.databases set oldest }
        ensures views { (from to : ℕ) → IfSome oldest
            (λ o. o ≤ from → KeepsFrom self.old.databases.sets self.new.databases.sets set from to) }
    {
        self.databases.trim(set, oldest);
    }

    /// Shows that the journal of a ledger at rest holds what it keeps, as a client that goes on with it wants to know.
    pub fn rests(&self)
        ensures { LedgerRests D.shown self.now }
    {
        let _ = self.log.span();
    }

    /// The disk back. A crash leaves what the log holds.
    pub fn down(self) -> D
        ensures disk { result ≡ log_disk self.log }
        ensures leaves { (k : Kept) → Holds D.shown self.log k → (image : List ℕ)
            → (D.shown result).may_leave image
            → LoadsAs image k (log_tail self.log + log_area self.log) }
    {
        let Ledger { log, databases: _ } = self;
        log.down()
    }
}
