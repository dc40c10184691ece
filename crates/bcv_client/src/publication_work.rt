//! The step of a publication before its put.
ghost use Rattle.std.specs.Prelude.{◌≡◌, ℕ, false};
ghost use Rattle.bcv_keeprule.specs.Retention.{IsKeepRule};
ghost use Rattle.bcv_publisher.specs.PollStep.{IsReadForm};
ghost use Rattle.bcv_tasks.specs.State.{IsRunning, is_ready};
ghost use Rattle.bcv_client.specs.CallFaults.{CallCauses, CountsOn, DiskFailsAs};
ghost use Rattle.bcv_client.specs.ClientForm.{ViewInForm};
ghost use Rattle.bcv_client.specs.Falls.{FallsTask};
ghost use Rattle.bcv_client.specs.InForm.{InForm};
ghost use Rattle.bcv_client.specs.PublicationOver.{OnlyPublishes, StaysInForm, StepsTask};
ghost use Rattle.bcv_client.specs.TaskRequests.{AsksTask, ClientWorks};
ghost use Rattle.bcv_client.specs.TaskTaken.{CanStep};
ghost use Rattle.bcv_client.specs.declared.job.Job.TheVariants.{Publish};

use crate::client::Client;
use bcv_base::{Clock, Names, Outside};
use bcv_disk::Disk;
use bcv_keeprule::KeepRule;
use bcv_model::Reply;
use bcv_publish::Work;
use bcv_publisher::end_work;
use bcv_store::Store;
use bcv_tasks::PublishTask;
use std::alloc::Global;

impl<D: Disk> Client<D> {
    /// Makes the next request of a publishing task that was taken out and is not ready, and returns the step's reply. The
    /// task goes on where `Working` is answered, and has ended at every other answer.
    pub(crate) fn work_task<S: Store, C: Clock, N: Names, F: Fn(u64, u64, u64) -> bool>(
        &mut self,
        alloc: Global,
        outside: &mut Outside<S, C, N>,
        rule: &KeepRule<F>,
        set: usize,
        taken: u64,
        task: &mut PublishTask,
    ) -> Reply
        requires form { InForm self.old }
        requires read { IsReadForm self.old.seen self.old.latest }
        requires can { CanStep self.old (Publish set taken task.old) }
        requires not_ready { is_ready task.old ≡ false }
        requires rule { IsKeepRule (F.pre rule.now.rule) (F.post rule.now.rule) }
        ensures form { InForm self.new }
        ensures read { IsReadForm self.new.seen self.new.latest }
        ensures only { OnlyPublishes self.old self.new }
        ensures seen { self.new.seen ≡ self.old.seen }
        ensures latest { self.new.latest ≡ self.old.latest }
        ensures goes_on { StaysInForm self.new set taken result task.new }
        ensures works { ClientWorks D.told D.shown (F.post rule.now.rule) S.told
            (S.shown outside.old.store) (S.shown outside.new.store) (N.shown outside.old.names)
            (N.shown outside.new.names) (C.shown outside.old.clock) (C.shown outside.new.clock)
            self.old self.new set task.old result task.new }
        ensures disk { DiskFailsAs D.told D.shown self.old self.new result }
        ensures reached { S.reaches outside.old.store outside.new.store }
        ensures counted { CountsOn (S.shown outside.old.store) (S.shown outside.new.store)
            (N.shown outside.old.names) (N.shown outside.new.names) (C.shown outside.old.clock)
            (C.shown outside.new.clock) }
        ensures causes { CallCauses (S.shown outside.old.store) (S.shown outside.new.store)
            (N.shown outside.old.names) (N.shown outside.new.names) (C.shown outside.old.clock)
            (C.shown outside.new.clock) result }
        ensures steps { StepsTask D.told D.shown S.told (S.shown outside.old.store)
            (S.shown outside.new.store) (N.shown outside.old.names) (N.shown outside.new.names)
            (C.shown outside.old.clock) (C.shown outside.new.clock) self.old self.new set taken
            task.old result task.new }
        ensures falls { FallsTask D.told D.shown S.told (S.shown outside.old.store)
            (S.shown outside.new.store) (N.shown outside.old.names) (N.shown outside.new.names)
            self.old self.new set taken task.old }
    {
        let store = &mut outside.store;
        let clock = &mut outside.clock;
        let names = &mut outside.names;
        let _ = taken;
        let work = self.request(alloc, store, clock, names, rule, set, task);
        end_work(alloc, &mut self.ledger, task, work)
    }

    // Makes the request. An upload looks into the cache, and takes the pages of its view from the set of a place.
    fn request<S: Store, C: Clock, N: Names, F: Fn(u64, u64, u64) -> bool>(
        &mut self,
        alloc: Global,
        store: &mut S,
        clock: &mut C,
        names: &mut N,
        rule: &KeepRule<F>,
        set: usize,
        task: &mut PublishTask,
    ) -> Work
        requires form { InForm self.old }
        requires running { IsRunning task.old }
        requires view { (taken : ℕ)
            × ViewInForm self.old.seen self.old.ledger.databases set taken task.old }
        requires not_ready { is_ready task.old ≡ false }
        requires rule { IsKeepRule (F.pre rule.now.rule) (F.post rule.now.rule) }
        ensures only { self.new ≡ record self.old { txns = self.new.txns } }
        ensures reached { S.reaches store.old store.new }
        ensures asks { AsksTask (F.post rule.now.rule) S.told (S.shown store.old)
            (S.shown store.new) (N.shown names.old) (N.shown names.new) (C.shown clock.old)
            (C.shown clock.new) self.old.seen self.old.ledger.databases set self.old.txns
            self.new.txns task.old result task.new }
    {
        let ledger = &self.ledger;
        let seen = &self.seen;
        match task {
            PublishTask::Create(_) => unreachable!(),
            PublishTask::Copy(_, copy) => copy.work(alloc, store, names, seen),
            PublishTask::Upload(_, upload) => match ledger.databases.pages(set) {
                Some(pages) => self.txns.upload(alloc, store, names, upload, seen, pages),
                None => unreachable!(),
            },
            PublishTask::Cleanup(_, cleanup) => cleanup.work(alloc, store, clock, seen, rule),
        }
    }
}
