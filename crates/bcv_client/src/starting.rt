//! How a task starts.
ghost use Rattle.std.specs.Prelude.{◌≡◌, ◌<◌, ◌∷◌, ◌++◌, [], Some, false, length, map, nat_le, vec_capacity, vec_len};
ghost use Rattle.bcv_clientlaws.specs.Different.{AtMostOne};
ghost use Rattle.bcv_slots.specs.Numbered.{least_free, numbers_of};
ghost use Rattle.bcv_client.specs.ClientForm.{JobInForm};
ghost use Rattle.bcv_client.specs.InForm.{InForm};
ghost use Rattle.bcv_client.specs.TaskParts.{task_part};
ghost use Rattle.bcv_client.specs.NewTasks.{IsTask};
ghost use Rattle.bcv_client.specs.TaskStarts.{StartsTask};

use crate::client::Client;
use crate::job::Job;
use crate::task_list::MOST_TASKS;
use bcv_disk::Disk;
use bcv_model::Reply;
use bcv_slots::{Slot, add, free_number};

impl<D: Disk> Client<D> {
    /// Starts a task that has so many requests left.
    pub(crate) fn start(&mut self, job: Job, left: u32) -> Reply
        requires form { InForm self.old }
        requires job { JobInForm self.old.seen self.old.ledger.databases self.old.txns job }
        requires single { AtMostOne (map (task_part self.old.ledger.databases)
            (self.old.tasks.items ++ record { number = 0; item = job } ∷ [])) }
        ensures form { InForm self.new }
        ensures starts { StartsTask self.old self.new job left result }
    {
        if self.tasks.len() >= MOST_TASKS {
            return Reply::TooMany;
        }
        if self.tasks.reserve(1).is_err() {
            return Reply::NoMemory;
        }
        self.put_last(job, left)
    }

    /// Puts a task last, for which there is room.
    pub(crate) fn put_last(&mut self, job: Job, left: u32) -> Reply
        requires few { nat_le 16 (length self.old.tasks.items) ≡ false }
        requires room { vec_len self.old.tasks < vec_capacity self.old.tasks }
        requires form { InForm self.old }
        requires job { JobInForm self.old.seen self.old.ledger.databases self.old.txns job }
        requires single { AtMostOne (map (task_part self.old.ledger.databases)
            (self.old.tasks.items ++ record { number = 0; item = job } ∷ [])) }
        ensures form { InForm self.new }
        ensures starts { StartsTask self.old self.new job left result }
        ensures task { IsTask result }
    {
        let task = task_number(&self.tasks);
        add(&mut self.tasks, task as u64, job);
        Reply::Task { task, left }
    }
}

// The least number that no task has.
fn task_number(tasks: &[Slot<Job>]) -> u8
    requires { nat_le 16 (length tasks.now) ≡ false }
    ensures { least_free (numbers_of tasks.now) ≡ Some result }
{
    free_number(tasks) as u8
}
