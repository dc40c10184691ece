//! The step of a resolve.
ghost use Rattle.std.specs.Prelude.{◌≡◌, true, false, is_some};
ghost use Rattle.bcv_clientlog.specs.LogParts.{is_shut};
ghost use Rattle.bcv_clientstate.specs.PartRefusals.{runs_publication};
ghost use Rattle.bcv_client.specs.ClientParts.{parts_of};
ghost use Rattle.bcv_client.specs.Falls.{FallsJob};
ghost use Rattle.bcv_client.specs.InForm.{InForm};
ghost use Rattle.bcv_client.specs.LocalWrites.{OnlyLedger};
ghost use Rattle.bcv_client.specs.ResolveOver.{ClientResolves, is_resolved, uploaded_set};
ghost use Rattle.bcv_client.specs.Steps.{EndsJob};
ghost use Rattle.bcv_client.specs.declared.job.Job.TheVariants.{Resolve};

use crate::client::Client;
use crate::trims::{set_of, trim_where};
use bcv_disk::Disk;
use bcv_ledger::Ledger;
use bcv_model::Reply;
use bcv_publisher::resolve_step;
use bcv_store::Store;
use std::alloc::Global;

impl<D: Disk> Client<D> {
    /// Makes the step of a resolve, whose task was taken out.
    #[tactic(none)]
    pub(crate) fn resolve<S: Store>(&mut self, alloc: Global, store: &mut S) -> Reply
        requires form { InForm self.old }
        requires pending { is_some self.old.ledger.databases.kept.pending ≡ true }
        requires is_open { is_shut self.old.ledger.log ≡ false }
        requires alone { runs_publication (parts_of self.old) ≡ false }
        ensures form { InForm self.new }
        ensures only { OnlyLedger self.old self.new }
        ensures tasks { self.new.tasks ≡ self.old.tasks }
        ensures reached { S.reaches store.old store.new }
        ensures resolves { ClientResolves D.told D.shown S.told (S.shown store.old)
            (S.shown store.new) self.old self.new result }
        ensures ends { EndsJob D.told D.shown S.told (S.shown store.old) (S.shown store.new)
            self.old self.new Resolve result }
        ensures falls { FallsJob D.told D.shown S.told (S.shown store.old) (S.shown store.new)
            self.old self.new }
    {
        let _ = self.ledger.databases.kept();
        let set = uploaded_set(&self.ledger);
        let reply = resolve_step(alloc, &mut self.ledger, store, self.id, &self.seen);
        trim_where(
            &mut self.ledger,
            &self.txns,
            &self.tasks,
            set,
            is_resolved(&reply),
        );
        reply
    }
}

// The set with the commits of the database that the pending publication uploads.
fn uploaded_set<D: Disk>(ledger: &Ledger<D>) -> Option<usize>
    ensures { result ≡ uploaded_set ledger.now.databases ledger.now.databases.kept.pending }
{
    let pending = ledger.pending()?;
    let upload = pending.upload.as_ref()?;
    set_of(ledger.find(&upload.entry.name))
}

// Whether a resolve found the version of the pending publication.
fn is_resolved(reply: &Reply) -> bool
    ensures { result ≡ is_resolved reply.now }
{
    matches!(reply, Reply::Resolved(_))
}
