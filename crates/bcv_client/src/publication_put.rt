//! The step of a publishing task at its put.
ghost use Rattle.std.specs.Prelude.{◌≡◌, true, false, IfSome};
ghost use Rattle.bcv_base.specs.Drawn.{NamesShown};
ghost use Rattle.bcv_clientlog.specs.LogParts.{is_shut};
ghost use Rattle.bcv_databases.specs.Sound.{CanUpload};
ghost use Rattle.bcv_ledger.specs.Begins.{WaitsFor};
ghost use Rattle.bcv_publish.specs.ManifestRead.{is_other};
ghost use Rattle.bcv_publisher.specs.PollStep.{IsReadForm};
ghost use Rattle.bcv_tasks.specs.State.{IsRunning, is_ready, latest_of, pending_of, upload_of};
ghost use Rattle.bcv_client.specs.Falls.{FallsPut};
ghost use Rattle.bcv_client.specs.CallFaults.{CallCauses, CountsOn, DiskFailsAs};
ghost use Rattle.bcv_client.specs.InForm.{InForm};
ghost use Rattle.bcv_client.specs.PublicationOver.{OnlyPublishes, StaysInForm, StepsTask};
ghost use Rattle.bcv_client.specs.PublicationPut.{ClientNotes, ClientPuts, PutsAt, SeesWhere, says_made, seen_made, set_uploaded, signed};
ghost use Rattle.bcv_client.specs.TaskTaken.{CanStep};
ghost use Rattle.bcv_client.specs.declared.job.Job.TheVariants.{Publish};

use crate::client::Client;
use crate::trims::trim_where;
use bcv_base::{Clock, Id16, Manifest, Now, Seen};
use bcv_disk::Disk;
use bcv_model::Reply;
use bcv_publish::Work;
use bcv_publisher::{end_work, put_step};
use bcv_store::Store;
use bcv_tasks::PublishTask;
use std::alloc::Global;

impl<D: Disk> Client<D> {
    /// Makes the manifest's put of a publishing task that was taken out and is ready, with its notes. The task goes on where
    /// `Working` is answered, and has ended at every other answer. What was published is seen, and its databases are known, as
    /// after a poll; the manifest itself is read by the next poll.
    #[tactic(none)]
    pub(crate) fn put_task<S: Store, C: Clock>(
        &mut self,
        alloc: Global,
        store: &mut S,
        clock: &mut C,
        set: usize,
        taken: u64,
        task: &mut PublishTask,
    ) -> Reply
        requires form { InForm self.old }
        requires read { IsReadForm self.old.seen self.old.latest }
        requires can { CanStep self.old (Publish set taken task.old) }
        requires ready { is_ready task.old ≡ true }
        ensures form { InForm self.new }
        ensures read { IsReadForm self.new.seen self.new.latest }
        ensures only { OnlyPublishes self.old self.new }
        ensures goes_on { StaysInForm self.new set taken result task.new }
        ensures puts { ClientPuts D.told D.shown S.told (S.shown store.old) (S.shown store.new)
            (C.shown clock.old) (C.shown clock.new) self.old self.new set taken task.old result
            task.new }
        ensures notes { ClientNotes D.told D.shown S.told (S.shown store.old) (S.shown store.new)
            self.old self.new set taken task.old }
        ensures disk { DiskFailsAs D.told D.shown self.old self.new result }
        ensures reached { S.reaches store.old store.new }
        ensures counted { (names : NamesShown) → CountsOn (S.shown store.old) (S.shown store.new)
            names names (C.shown clock.old) (C.shown clock.new) }
        ensures causes { (names : NamesShown) → CallCauses (S.shown store.old) (S.shown store.new)
            names names (C.shown clock.old) (C.shown clock.new) result }
        ensures steps { (names : NamesShown) → StepsTask D.told D.shown S.told (S.shown store.old)
            (S.shown store.new) names names (C.shown clock.old) (C.shown clock.new)
            self.old self.new set taken task.old result task.new }
        ensures falls { FallsPut D.told D.shown S.told (S.shown store.old) (S.shown store.new)
            self.old self.new set taken task.old }
    {
        let _ = self.ledger.databases.kept();
        let _ = task.id().bytes();
        sign(task, self.id);
        match clock.now() {
            Now::At(moment) => self.put_at(alloc, store, set, taken, task, moment),
            Now::Failed => end_work(alloc, &mut self.ledger, task, Work::ClockFault),
        }
    }

    // Makes the put at a moment.
    #[tactic(none)]
    fn put_at<S: Store>(
        &mut self,
        alloc: Global,
        store: &mut S,
        set: usize,
        taken: u64,
        task: &mut PublishTask,
        moment: u64,
    ) -> Reply
        requires running { IsRunning task.old }
        requires ready { is_ready task.old ≡ true }
        requires waits { WaitsFor self.old.ledger.databases.kept.pending (pending_of taken task.old) }
        requires upload { IfSome (upload_of taken task.old)
            (CanUpload self.old.ledger.databases.kept.locals) }
        requires is_open { is_shut self.old.ledger.log ≡ false }
        ensures reached { S.reaches store.old store.new }
        ensures puts { PutsAt D.told D.shown S.told (S.shown store.old) (S.shown store.new)
            self.old self.new set taken task.old moment result task.new }
    {
        let reply = put_step(
            alloc,
            &mut self.ledger,
            store,
            task,
            taken,
            &self.seen,
            moment,
        );
        let made = says_made(&reply);
        see_where(&mut self.seen, task, made);
        trim_where(
            &mut self.ledger,
            &self.txns,
            &self.tasks,
            set_uploaded(task, set),
            made,
        );
        reply
    }
}

// Makes a container in this writer's name. The others have it from their publication.
fn sign(task: &mut PublishTask, writer: Id16)
    ensures { task.new ≡ signed writer task.old }
{
    if let PublishTask::Create(create) = task {
        create.writer = writer;
    }
}

// Whether a put's reply says that the publication was made.
fn says_made(reply: &Reply) -> bool
    ensures { result ≡ says_made reply.now }
{
    match reply {
        Reply::Done(_) => true,
        Reply::Cleaned { .. } => true,
        _ => false,
    }
}

// The manifest that was published is seen, where it was.
fn see_where(seen: &mut Seen, task: &PublishTask, made: bool)
    ensures { SeesWhere made seen.old seen.new (latest_of task.now) }
{
    if !made {
        return;
    }
    if let Some(latest) = task.latest() {
        *seen = seen_made(seen, &latest.manifest);
    }
}

// What is seen once this manifest was published: nothing more where it has another block size than was seen.
fn seen_made(seen: &Seen, manifest: &Manifest) -> Seen
    ensures { result ≡ seen_made (is_other seen.now.block manifest.now.block) seen.now manifest.now }
{
    if is_other(seen.block, manifest.block) {
        return *seen;
    }
    Seen {
        block: Some(manifest.block),
        number: seen.number.max(manifest.number),
    }
}

// Whether a block size is another one than was seen, where one was.
fn is_other(seen: Option<u32>, block: u32) -> bool
    ensures { result ≡ is_other seen block }
{
    match seen {
        Some(known) => known != block,
        None => false,
    }
}

// The set of a place whose commits a task uploads, where it uploads some.
fn set_uploaded(task: &PublishTask, set: usize) -> Option<usize>
    ensures { result ≡ set_uploaded set task.now }
{
    match task {
        PublishTask::Upload(_, _) => Some(set),
        _ => None,
    }
}
