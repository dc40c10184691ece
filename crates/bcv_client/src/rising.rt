//! How a client comes up, and how it goes down.
ghost use Rattle.std.specs.Prelude.{◌≡◌, ◌+◌, ℕ, List};
ghost use Rattle.bcv_clientlog.specs.LogParts.{Holds, LoadsAs, log_area, log_disk, log_tail};
ghost use Rattle.bcv_model.specs.declared.kept.Kept.{Kept};
ghost use Rattle.bcv_risen.specs.Rises.{Rises};
ghost use Rattle.bcv_client.specs.ClientUp.{EmptyIfUp, LeavesDown, ComesBack, ComesNew, risen_of};

use crate::client::Client;
use bcv_base::Names;
use bcv_disk::Disk;
use bcv_risen::{RiseFault, Risen, rise};
use bcv_transaction::Transactions;
use std::alloc::Global;

/// What coming up gives: the client, or the disk back.
#[derive(Drop)]
pub enum Up<D: Disk> {
    Ready(Client<D>),
    Refused(D, RiseFault),
}

impl<D: Disk> Client<D> {
    /// Brings up the client of a disk, with a cache of as many as `slots` blocks. It knows the databases that have commits,
    /// and the pending publication, as its log says; a disk without a log gets one, and the client an id that is drawn for
    /// it. The disk comes back at each fault.
    pub fn up<N: Names>(alloc: Global, disk: D, names: &mut N, slots: u16) -> Up<D>
        ensures rises { Rises D.told D.shown disk (N.shown names.old) (N.shown names.new)
            (risen_of result) }
        ensures empty { EmptyIfUp slots result }
        ensures again { ComesBack D.told D.shown disk slots result }
        ensures first { ComesNew D.told D.shown disk slots result }
    {
        match rise(alloc, disk, names) {
            Risen::Ready(ledger, id, seen) => Up::Ready(Client {
                id,
                ledger,
                seen,
                latest: None,
                txns: Transactions::new(alloc, slots),
                tasks: Vec::new(alloc),
                taken: 0,
            }),
            Risen::Refused(disk, fault) => Up::Refused(disk, fault),
        }
    }

    /// Ends the client with its transactions and tasks, and gives its disk back. What its log holds is there after a crash.
    pub fn down(self) -> D
        ensures disk { result ≡ log_disk self.ledger.log }
        ensures leaves { (k : Kept) → Holds D.shown self.ledger.log k → (image : List ℕ)
            → (D.shown result).may_leave image
            → LoadsAs image k (log_tail self.ledger.log + log_area self.ledger.log) }
        ensures down { LeavesDown D.shown self result }
    {
        let Client {
            id: _,
            ledger,
            seen: _,
            latest: _,
            txns: _,
            tasks: _,
            taken: _,
        } = self;
        ledger.down()
    }
}
