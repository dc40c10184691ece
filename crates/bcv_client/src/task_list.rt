//! How a task is taken out of the list for its step, and put back.
ghost use Rattle.std.specs.Prelude.{◌≡◌, ◌<◌, ◌&&◌, ◌∷◌, ◌++◌, [], map, vec_capacity, vec_len};
ghost use Rattle.bcv_clientlaws.specs.Different.{AtMostOne};
ghost use Rattle.bcv_client.specs.ClientForm.{JobInForm};
ghost use Rattle.bcv_client.specs.InForm.{InForm};
ghost use Rattle.bcv_client.specs.NewTasks.{is_busy};
ghost use Rattle.bcv_client.specs.TaskTaken.{EndsAtOnce, GivesBack, CanGiveBack, TakesTask};
ghost use Rattle.bcv_client.specs.TaskParts.{task_part};

use crate::client::Client;
use crate::job::Job;
use crate::starts::publishes;
use bcv_disk::Disk;
use bcv_model::Reply;
use bcv_slots::{add, take};

/// How many tasks run at most.
pub(crate) const MOST_TASKS: usize = 16;

impl<D: Disk> Client<D> {
    /// Takes the task of a number out, for which there is room to put it back. `NoTask` is answered where there is none, and
    /// `Closed` where the journal is closed and the task publishes or resolves, which has ended then.
    #[tactic(none)]
    pub(crate) fn take_task(&mut self, number: u64) -> Result<Job, Reply>
        requires form { InForm self.old }
        ensures form { InForm self.new }
        ensures takes { TakesTask self.old self.new number result }
        ensures ends { EndsAtOnce D.shown self.old self.new number result }
    {
        let Some(job) = take(&mut self.tasks, number) else {
            return Err(Reply::NoTask);
        };
        if ends_shut(&job, self.ledger.closed()) {
            return Err(Reply::Closed);
        }
        Ok(job)
    }

    /// Puts a task back under its number, for which there is room.
    #[tactic(none)]
    pub(crate) fn give_back(&mut self, number: u64, job: Job)
        requires form { InForm self.old }
        requires place { CanGiveBack number self.old.tasks.items }
        requires room { vec_len self.old.tasks < vec_capacity self.old.tasks }
        requires job { JobInForm self.old.seen self.old.ledger.databases self.old.txns job }
        requires single { AtMostOne (map (task_part self.old.ledger.databases)
            (self.old.tasks.items ++ record { number = 0; item = job } ∷ [])) }
        ensures form { InForm self.new }
        ensures back { GivesBack self.old self.new number job }
    {
        add(&mut self.tasks, number, job);
    }
}

// Whether a job ends where the journal is closed, as one that publishes or resolves does.
fn ends_shut(job: &Job, closed: bool) -> bool
    ensures { result ≡ (is_busy job.now && closed) }
{
    publishes(job) && closed
}
