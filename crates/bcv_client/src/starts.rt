//! The asks that start a poll or a resolve.
ghost use Rattle.std.specs.Prelude.{◌≡◌};
ghost use Rattle.std.specs.List.{list_any};
ghost use Rattle.bcv_clientstate.specs.PartRefusals.{runs_publication};
ghost use Rattle.bcv_clientstate.specs.StartRefusals.{resolve_reason};
ghost use Rattle.bcv_machine.specs.Starting.{StartsPoll, StartsResolve};
ghost use Rattle.bcv_client.specs.ClientParts.{parts_of};
ghost use Rattle.bcv_client.specs.Events.{Locally};
ghost use Rattle.bcv_client.specs.InForm.{InForm};
ghost use Rattle.bcv_client.specs.NewTasks.{StartsUnless, is_busy, resolve_reason_by};
ghost use Rattle.bcv_client.specs.TaskStarts.{StartsTask};
ghost use Rattle.bcv_client.specs.declared.job.Job.TheVariants.{Poll, Resolve};

use crate::client::Client;
use crate::job::Job;
use crate::task_list::MOST_TASKS;
use bcv_disk::Disk;
use bcv_model::Reply;
use bcv_slots::Slot;

impl<D: Disk> Client<D> {
    /// Starts a poll.
    pub(crate) fn start_poll(&mut self) -> Reply
        requires form { InForm self.old }
        ensures form { InForm self.new }
        ensures starts { StartsTask self.old self.new Poll 1 result }
        ensures steps { Locally D.shown (λ s u t. StartsPoll s u result t) self.old self.new result }
    {
        self.start(Job::Poll, 1)
    }

    /// Starts to find out what became of the pending publication.
    pub(crate) fn start_resolve(&mut self) -> Reply
        requires form { InForm self.old }
        ensures form { InForm self.new }
        ensures starts { StartsUnless self.old self.new (resolve_reason (parts_of self.old)) Resolve 1
            result }
        ensures steps { Locally D.shown (λ s u t. StartsResolve s u result t) self.old self.new result }
    {
        if let Some(reason) = self.resolve_refusal() {
            return reason;
        }
        self.start(Job::Resolve, 1)
    }

    /// Whether a task publishes or resolves.
    pub(crate) fn runs_publication(&self) -> bool
        ensures { result ≡ runs_publication (parts_of self.now) }
    {
        any_publishes(&self.tasks)
    }

    // Why a resolve is refused, if it is.
    fn resolve_refusal(&self) -> Option<Reply>
        ensures { result ≡ resolve_reason (parts_of self.now) }
    {
        let pending = self.ledger.pending().is_some();
        let all = self.tasks.len() >= MOST_TASKS;
        resolve_reason_by(
            self.ledger.closed(),
            any_publishes(&self.tasks),
            pending,
            all,
        )
    }
}

// Whether a task publishes or resolves.
fn any_publishes(tasks: &[Slot<Job>]) -> bool
    ensures { result ≡ list_any (λ s. is_busy s.item) tasks.now }
{
    tasks.iter().any(|slot| publishes(&slot.item))
}

/// Whether a job publishes or resolves.
pub(crate) fn publishes(job: &Job) -> bool
    ensures { result ≡ is_busy job.now }
{
    match job {
        Job::Fetch { .. } => false,
        Job::Poll => false,
        Job::Publish { .. } => true,
        Job::Resolve => true,
    }
}

// Why a resolve is refused, if it is.
fn resolve_reason_by(closed: bool, busy: bool, pending: bool, all: bool) -> Option<Reply>
    ensures { result ≡ resolve_reason_by closed busy pending all }
{
    if closed {
        return Some(Reply::Closed);
    }
    if busy {
        return Some(Reply::Busy);
    }
    if !pending {
        return Some(Reply::Nothing);
    }
    if all {
        return Some(Reply::TooMany);
    }
    None
}
