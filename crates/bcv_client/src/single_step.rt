//! The step of a task that ends with it.
ghost use Rattle.std.specs.Prelude.{◌≡◌, true, false};
ghost use Rattle.bcv_base.specs.Drawn.{NamesShown};
ghost use Rattle.bcv_base.specs.Moments.{ClockShown};
ghost use Rattle.bcv_publisher.specs.PollStep.{IsReadForm};
ghost use Rattle.bcv_client.specs.Caching.{JobCaches};
ghost use Rattle.bcv_client.specs.AnyMoment.{CallMoments, NotesOfStep};
ghost use Rattle.bcv_client.specs.Falls.{FallsJob};
ghost use Rattle.bcv_client.specs.CallFaults.{CallCauses, DiskFailsAs};
ghost use Rattle.bcv_client.specs.InForm.{InForm};
ghost use Rattle.bcv_client.specs.Steps.{EndsJob};
ghost use Rattle.bcv_client.specs.TaskCalls.{is_working};
ghost use Rattle.bcv_client.specs.TaskTaken.{CanStep, KeepsTasks, is_single};

use crate::client::Client;
use crate::job::Job;
use bcv_disk::Disk;
use bcv_model::Reply;
use bcv_store::Store;
use std::alloc::Global;

impl<D: Disk> Client<D> {
    /// Makes the step of a task that fetches, polls or resolves. It was taken out, and has ended whatever is answered.
    #[tactic(none)]
    pub(crate) fn single_step<S: Store>(&mut self, alloc: Global, store: &mut S, job: &Job) -> Reply
        requires form { InForm self.old }
        requires read { IsReadForm self.old.seen self.old.latest }
        requires can { CanStep self.old job.now }
        requires single { is_single job.now ≡ true }
        ensures form { InForm self.new }
        ensures read { IsReadForm self.new.seen self.new.latest }
        ensures only { KeepsTasks self.old self.new }
        ensures disk { DiskFailsAs D.told D.shown self.old self.new result }
        ensures reached { S.reaches store.old store.new }
        ensures causes { (names : NamesShown) → (clock : ClockShown) → CallCauses
            (S.shown store.old) (S.shown store.new) names names clock clock result }
        ensures ends { EndsJob D.told D.shown S.told (S.shown store.old) (S.shown store.new)
            self.old self.new job.now result }
        ensures falls { FallsJob D.told D.shown S.told (S.shown store.old) (S.shown store.new)
            self.old self.new }
        ensures any_moment { CallMoments (NotesOfStep self.old.ledger.databases.kept.pending)
            D.told D.shown S.told (S.shown store.old) (S.shown store.new) self.old self.new }
        ensures descends { is_working result ≡ false }
        ensures caches { JobCaches S.told (S.shown store.old) (S.shown store.new)
            self.old.ledger.databases self.old.txns self.new.txns job.now result }
    {
        match job {
            Job::Fetch { access, txn, page } => self.fetch(alloc, store, *access, *txn, *page),
            Job::Poll => self.poll(alloc, store),
            Job::Resolve => self.resolve(alloc, store),
            Job::Publish { .. } => unreachable!(),
        }
    }
}
