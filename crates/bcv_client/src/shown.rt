//! What a client shows without a request: its databases, and whether it still writes.
ghost use Rattle.std.specs.Prelude.{◌≡◌};
ghost use Rattle.std.specs.Option.{option_map};
ghost use Rattle.bcv_clientlog.specs.LogParts.{is_shut};
ghost use Rattle.bcv_databases.specs.Catalog.{found_at};
ghost use Rattle.bcv_machine.specs.LocalWriting.{Lists};
ghost use Rattle.bcv_client.specs.Events.{Locally};
ghost use Rattle.bcv_client.specs.Shown.{ListsTable};

use crate::client::Client;
use bcv_base::DbName;
use bcv_disk::Disk;
use bcv_ledger::lists_are_the_machines;
use bcv_model::Reply;
use std::alloc::Global;

impl<D: Disk> Client<D> {
    /// Whether a call has met a fault of the disk. Nothing is written any more then, and reads and polls go on.
    pub fn closed(&self) -> bool
        ensures { result ≡ is_shut self.now.ledger.log }
    {
        self.ledger.closed()
    }

    /// How many commits the client was given since it is up.
    pub fn taken(&self) -> u64
        ensures { result ≡ self.now.taken }
    {
        self.taken
    }

    /// The size of a database's pages in bytes, or `None` where the database is not known.
    pub fn page_size(&self, db: &DbName) -> Option<u32>
        ensures { result ≡ option_map (λ v. v.entry.page_size)
            (found_at self.now.ledger.databases db.now) }
    {
        self.ledger.page_size(db)
    }

    /// The table of all databases that the client knows, and whether a publication is pending.
    pub fn list(&self, alloc: Global) -> Reply
        ensures table { ListsTable self.now.ledger.databases result }
        ensures steps { Locally D.shown (λ s u t. Lists s u result t) self.now self.now result }
    {
        lists_are_the_machines();
        self.table(alloc)
    }

    // The table of all databases.
    fn table(&self, alloc: Global) -> Reply
        ensures { ListsTable self.now.ledger.databases result }
    {
        match self.ledger.list(alloc) {
            Ok((rows, pending)) => Reply::Table { rows, pending },
            Err(_) => Reply::NoMemory,
        }
    }
}
