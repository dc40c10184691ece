//! The step of a task by its number.
ghost use Rattle.std.specs.Prelude.{◌≡◌};
ghost use Rattle.bcv_keeprule.specs.Retention.{IsKeepRule};
ghost use Rattle.bcv_slots.specs.Numbered.{item_at};
ghost use Rattle.bcv_client.specs.Caching.{StepCaches};
ghost use Rattle.bcv_client.specs.AnyMoment.{CallMoments, NotesOfStep};
ghost use Rattle.bcv_client.specs.Descent.{StepDescends};
ghost use Rattle.bcv_client.specs.Falls.{Falls};
ghost use Rattle.bcv_client.specs.CallFaults.{CallCauses, CountsOn, DiskFailsAs};
ghost use Rattle.bcv_client.specs.InForm.{IsClient};
ghost use Rattle.bcv_client.specs.TaskCalls.{SameClient, StepsNumber};

use crate::client::Client;
use crate::job::Job;
use bcv_base::{Clock, Names, Outside};
use bcv_disk::Disk;
use bcv_keeprule::KeepRule;
use bcv_model::Reply;
use bcv_store::Store;
use std::alloc::Global;

impl<D: Disk> Client<D> {
    /// Makes the next request of the task of a number. A publication goes on where `Working` is answered, and has ended at every
    /// other answer; every other task ends with its step. `NoTask` is answered where there is no such task, and `Closed` where
    /// the journal is closed and the task publishes or resolves, which has ended then.
    #[tactic(none)]
    pub fn step<S: Store, C: Clock, N: Names, F: Fn(u64, u64, u64) -> bool>(
        &mut self,
        alloc: Global,
        number: u8,
        outside: &mut Outside<S, C, N>,
        rule: &KeepRule<F>,
    ) -> Reply
        requires client { IsClient self.old }
        requires rule { IsKeepRule (F.pre rule.now.rule) (F.post rule.now.rule) }
        ensures client { IsClient self.new }
        ensures same { SameClient self.old self.new }
        ensures disk { DiskFailsAs D.told D.shown self.old self.new result }
        ensures reached { S.reaches outside.old.store outside.new.store }
        ensures counted { CountsOn (S.shown outside.old.store) (S.shown outside.new.store)
            (N.shown outside.old.names) (N.shown outside.new.names) (C.shown outside.old.clock)
            (C.shown outside.new.clock) }
        ensures causes { CallCauses (S.shown outside.old.store) (S.shown outside.new.store)
            (N.shown outside.old.names) (N.shown outside.new.names) (C.shown outside.old.clock)
            (C.shown outside.new.clock) result }
        ensures steps { StepsNumber D.told D.shown S.told (S.shown outside.old.store)
            (S.shown outside.new.store) (N.shown outside.old.names) (N.shown outside.new.names)
            (C.shown outside.old.clock) (C.shown outside.new.clock) self.old self.new number
            result }
        ensures falls { Falls D.told D.shown S.told (S.shown outside.old.store)
            (S.shown outside.new.store) (N.shown outside.old.names) (N.shown outside.new.names)
            self.old self.new }
        ensures any_moment { CallMoments (NotesOfStep self.old.ledger.databases.kept.pending)
            D.told D.shown S.told (S.shown outside.old.store) (S.shown outside.new.store)
            self.old self.new }
        ensures descends { StepDescends self.old self.new number result }
        ensures caches { StepCaches S.told (S.shown outside.old.store) (S.shown outside.new.store)
            self.old.ledger.databases self.old.txns self.new.txns
            (item_at number self.old.tasks.items) result }
    {
        let number = number as u64;
        let job = match self.take_task(number) {
            Ok(job) => job,
            Err(reply) => return reply,
        };
        match job {
            Job::Publish { set, taken, task } => {
                self.publication(alloc, outside, rule, number, set, taken, task)
            }
            single => self.single_step(alloc, &mut outside.store, &single),
        }
    }
}
