//! The step of a poll.
ghost use Rattle.bcv_publisher.specs.PollStep.{IsReadForm, PollStep};
ghost use Rattle.bcv_client.specs.Falls.{FallsJob};
ghost use Rattle.bcv_client.specs.InForm.{InForm};
ghost use Rattle.bcv_client.specs.PollOver.{OnlyReads};
ghost use Rattle.bcv_client.specs.Steps.{EndsJob};
ghost use Rattle.bcv_client.specs.declared.job.Job.TheVariants.{Poll};

use crate::client::Client;
use bcv_disk::Disk;
use bcv_model::Reply;
use bcv_publisher::poll_step;
use bcv_store::Store;
use std::alloc::Global;

impl<D: Disk> Client<D> {
    /// Makes the step of a poll, whose task was taken out.
    #[tactic(none)]
    pub(crate) fn poll<S: Store>(&mut self, alloc: Global, store: &mut S) -> Reply
        requires form { InForm self.old }
        requires read { IsReadForm self.old.seen self.old.latest }
        ensures form { InForm self.new }
        ensures read { IsReadForm self.new.seen self.new.latest }
        ensures only { OnlyReads self.old self.new }
        ensures reached { S.reaches store.old store.new }
        ensures polls { PollStep S.told (S.shown store.old) (S.shown store.new)
            self.old.ledger self.new.ledger self.old.seen self.new.seen self.old.latest
            self.new.latest result }
        ensures ends { EndsJob D.told D.shown S.told (S.shown store.old) (S.shown store.new)
            self.old self.new Poll result }
        ensures falls { FallsJob D.told D.shown S.told (S.shown store.old) (S.shown store.new)
            self.old self.new }
    {
        let _ = self.ledger.databases.kept();
        let reply = poll_step(
            alloc,
            &mut self.ledger,
            store,
            &mut self.seen,
            &mut self.latest,
        );
        reply
    }
}
