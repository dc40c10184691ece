//! The step of a publication, whose task goes on or ends.
ghost use Rattle.std.specs.Prelude.{◌≡◌, ℕ};
ghost use Rattle.bcv_keeprule.specs.Retention.{IsKeepRule};
ghost use Rattle.bcv_publisher.specs.PollStep.{IsReadForm};
ghost use Rattle.bcv_client.specs.Caching.{PublishCaches};
ghost use Rattle.bcv_client.specs.AnyMoment.{TaskMoments};
ghost use Rattle.bcv_client.specs.Descent.{PublicationDescends, TaskDescends};
ghost use Rattle.bcv_client.specs.Falls.{FallsOver, FallsTask};
ghost use Rattle.bcv_client.specs.CallFaults.{CallCauses, CountsOn, DiskFailsAs};
ghost use Rattle.bcv_client.specs.InForm.{InForm};
ghost use Rattle.bcv_client.specs.PublicationOver.{OnlyPublishes, StandsWith, StaysInForm, StepsTask, mine_with, view_at};
ghost use Rattle.bcv_client.specs.TaskCalls.{PublishesOver, SameClient, is_working};
ghost use Rattle.bcv_client.specs.TaskTaken.{CanStep, CanGiveBack};
ghost use Rattle.bcv_client.specs.declared.job.Job.TheVariants.{Publish};

use crate::client::Client;
use crate::job::Job;
use bcv_base::{Clock, Names, Outside};
use bcv_disk::Disk;
use bcv_keeprule::KeepRule;
use bcv_model::Reply;
use bcv_store::Store;
use bcv_tasks::PublishTask;
use std::alloc::Global;

impl<D: Disk> Client<D> {
    /// Makes the step of a publishing task that was taken out, and puts it back under its number where it goes on.
    #[tactic(none)]
    pub(crate) fn publication<S: Store, C: Clock, N: Names, F: Fn(u64, u64, u64) -> bool>(
        &mut self,
        alloc: Global,
        outside: &mut Outside<S, C, N>,
        rule: &KeepRule<F>,
        number: u64,
        set: usize,
        taken: u64,
        task: PublishTask,
    ) -> Reply
        requires form { InForm self.old }
        requires read { IsReadForm self.old.seen self.old.latest }
        requires can { CanStep self.old (Publish set taken task) }
        requires place { CanGiveBack number self.old.tasks.items }
        requires rule { IsKeepRule (F.pre rule.now.rule) (F.post rule.now.rule) }
        ensures form { InForm self.new }
        ensures read { IsReadForm self.new.seen self.new.latest }
        ensures same { SameClient self.old self.new }
        ensures disk { DiskFailsAs D.told D.shown self.old self.new result }
        ensures reached { S.reaches outside.old.store outside.new.store }
        ensures counted { CountsOn (S.shown outside.old.store) (S.shown outside.new.store)
            (N.shown outside.old.names) (N.shown outside.new.names) (C.shown outside.old.clock)
            (C.shown outside.new.clock) }
        ensures causes { CallCauses (S.shown outside.old.store) (S.shown outside.new.store)
            (N.shown outside.old.names) (N.shown outside.new.names) (C.shown outside.old.clock)
            (C.shown outside.new.clock) result }
        ensures steps { PublishesOver D.told D.shown S.told (S.shown outside.old.store)
            (S.shown outside.new.store) (N.shown outside.old.names) (N.shown outside.new.names)
            (C.shown outside.old.clock) (C.shown outside.new.clock) self.old self.new number set
            taken task result }
        ensures falls { FallsOver (StandsWith D.shown self.old number set taken task)
            (mine_with self.old number set taken task) D.told D.shown S.told
            (S.shown outside.old.store) (S.shown outside.new.store) (N.shown outside.old.names)
            (N.shown outside.new.names) self.old self.new }
        ensures any_moment { TaskMoments D.told D.shown S.told (S.shown outside.old.store)
            (S.shown outside.new.store) self.old self.new number set taken task }
        ensures descends { PublicationDescends self.new number set taken task result }
        ensures caches { PublishCaches (view_at self.old.ledger.databases set task) task
            self.old.txns self.new.txns }
    {
        let mut task = task;
        let reply = self.publish_once(alloc, outside, rule, set, taken, &mut task);
        if !is_working(&reply) {
            return reply;
        }
        self.give_back(number, Job::Publish { set, taken, task });
        reply
    }

    // Makes the next request of a publishing task: the put of its manifest where it is ready.
    #[tactic(none)]
    fn publish_once<S: Store, C: Clock, N: Names, F: Fn(u64, u64, u64) -> bool>(
        &mut self,
        alloc: Global,
        outside: &mut Outside<S, C, N>,
        rule: &KeepRule<F>,
        set: usize,
        taken: u64,
        task: &mut PublishTask,
    ) -> Reply
        requires form { InForm self.old }
        requires read { IsReadForm self.old.seen self.old.latest }
        requires can { CanStep self.old (Publish set taken task.old) }
        requires rule { IsKeepRule (F.pre rule.now.rule) (F.post rule.now.rule) }
        ensures form { InForm self.new }
        ensures read { IsReadForm self.new.seen self.new.latest }
        ensures only { OnlyPublishes self.old self.new }
        ensures goes_on { StaysInForm self.new set taken result task.new }
        ensures disk { DiskFailsAs D.told D.shown self.old self.new result }
        ensures reached { S.reaches outside.old.store outside.new.store }
        ensures counted { CountsOn (S.shown outside.old.store) (S.shown outside.new.store)
            (N.shown outside.old.names) (N.shown outside.new.names) (C.shown outside.old.clock)
            (C.shown outside.new.clock) }
        ensures causes { CallCauses (S.shown outside.old.store) (S.shown outside.new.store)
            (N.shown outside.old.names) (N.shown outside.new.names) (C.shown outside.old.clock)
            (C.shown outside.new.clock) result }
        ensures steps { StepsTask D.told D.shown S.told (S.shown outside.old.store)
            (S.shown outside.new.store) (N.shown outside.old.names) (N.shown outside.new.names)
            (C.shown outside.old.clock) (C.shown outside.new.clock) self.old self.new set taken
            task.old result task.new }
        ensures falls { FallsTask D.told D.shown S.told (S.shown outside.old.store)
            (S.shown outside.new.store) (N.shown outside.old.names) (N.shown outside.new.names)
            self.old self.new set taken task.old }
        ensures any_moment { (n : ℕ) → TaskMoments D.told D.shown S.told
            (S.shown outside.old.store) (S.shown outside.new.store) self.old self.new n set taken
            task.old }
        ensures descends { TaskDescends task.old result task.new }
        ensures caches { PublishCaches (view_at self.old.ledger.databases set task.old) task.old
            self.old.txns self.new.txns }
    {
        if task.ready() {
            return self.put_task(
                alloc,
                &mut outside.store,
                &mut outside.clock,
                set,
                taken,
                task,
            );
        }
        self.work_task(alloc, outside, rule, set, taken, task)
    }
}

// Whether a task goes on after its step, by the reply.
fn is_working(reply: &Reply) -> bool
    ensures { result ≡ is_working reply.now }
{
    matches!(reply, Reply::Working(_))
}
