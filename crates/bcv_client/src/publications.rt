//! The asks that start a publication.
ghost use Rattle.std.specs.Prelude.{◌≡◌, [], IfOk, None, true, is_some};
ghost use Rattle.std.specs.Option.{option_map};
ghost use Rattle.bcv_base.specs.ManifestRules.{is_block_size};
ghost use Rattle.bcv_clientlaws.specs.Starts.{kind_asked};
ghost use Rattle.bcv_clientstate.specs.PartRefusals.{runs_publication};
ghost use Rattle.bcv_clientstate.specs.StartRefusals.{kind_reasons, runs_all, start_reason};
ghost use Rattle.bcv_dbcopy.specs.State.{FitsPages, new_task};
ghost use Rattle.bcv_cleanup.specs.State.{new_cleanup};
ghost use Rattle.bcv_databases.specs.Catalog.{found_at, shown_view};
ghost use Rattle.bcv_machine.specs.Refusals.{first_reason};
ghost use Rattle.bcv_machine.specs.Starting.{Starts, upload_of as machine_upload};
ghost use Rattle.bcv_machine.specs.State.{Cleaning, Creating};
ghost use Rattle.bcv_tasks.specs.State.{IsRunning, left_of, refused_of, upload_of};
ghost use Rattle.bcv_tasks.specs.declared.publish_task.PublishTask.TheVariants.{Cleanup as CleanupTask, Copy as CopyOf, Create as CreateOf};
ghost use Rattle.bcv_client.specs.ClientParts.{parts_of};
ghost use Rattle.bcv_client.specs.InForm.{InForm};
ghost use Rattle.bcv_client.specs.NewTasks.{CanPublish, DrawnAs, DrawsUnless, IsTask, StartsPublication, left_in, reason_with, removal_reason_by};
ghost use Rattle.bcv_client.specs.NewUploads.{IsNewUpload, commits_reason, upload_job, upload_reason_by, upload_refusal};
ghost use Rattle.bcv_client.specs.TaskStarts.{StartsTask};
ghost use Rattle.bcv_client.specs.declared.job.Job.TheVariants.{Publish};

use crate::client::Client;
use crate::job::Job;
use crate::reading::view_base;
use crate::task_list::MOST_TASKS;
use bcv_base::{DbName, Draw, Id16, Names};
use bcv_cleanup::Cleanup;
use bcv_databases::{CommitsAt, DatabaseView};
use bcv_dbcopy::{CopyPlan, CopyTask};
use bcv_disk::Disk;
use bcv_model::Reply;
use bcv_tasks::{CreateTask, PublishTask};
use bcv_upload::Upload;
use std::alloc::{AllocError, Global};

impl<D: Disk> Client<D> {
    /// Starts to make a container of this block size, which keeps a dead block for so many seconds.
    #[tactic(none)]
    pub(crate) fn start_create<N: Names>(
        &mut self,
        names: &mut N,
        block: u32,
        retention: u64,
    ) -> Reply
        requires size { is_block_size block ≡ true }
        requires form { InForm self.old }
        ensures form { InForm self.new }
        ensures starts { StartsPublication D.shown
            (λ id s u t. Starts s u (Creating block retention) id result t) self.old self.new
            (N.shown names.old) (N.shown names.new)
            (start_reason (parts_of self.old) (Creating block retention))
            (λ id. Publish 0 0 (CreateOf (record {
              block = block;
              retention = retention;
              writer = self.old.id;
              id = id;
              latest = None;
            }))) result }
    {
        let id = match self.draw(names, None) {
            Ok(id) => id,
            Err(reply) => return reply,
        };
        let task = CreateTask::new(block, retention, self.id, id);
        self.publish(PublishTask::Create(task))
    }

    /// Starts to publish a new database, a copy or a removal.
    #[tactic(none)]
    pub(crate) fn start_copy<N: Names>(
        &mut self,
        alloc: Global,
        names: &mut N,
        plan: CopyPlan,
    ) -> Reply
        requires pages { FitsPages plan }
        requires form { InForm self.old }
        ensures form { InForm self.new }
        ensures starts { StartsPublication D.shown
            (λ id s u t. Starts s u (kind_asked plan) id result t) self.old self.new
            (N.shown names.old) (N.shown names.new)
            (start_reason (parts_of self.old) (kind_asked plan))
            (λ id. Publish 0 0 (CopyOf id (new_task plan self.old.id id))) result }
    {
        let own = self.copy_refusal(&plan);
        let id = match self.draw(names, own) {
            Ok(id) => id,
            Err(reply) => return reply,
        };
        let task = CopyTask::new(alloc, plan, self.id, id);
        self.publish(PublishTask::Copy(id, task))
    }

    /// Starts to upload the commits of a database, all that it has now. A name may have been drawn where memory is missing.
    pub(crate) fn start_upload<N: Names>(
        &mut self,
        alloc: Global,
        names: &mut N,
        db: DbName,
    ) -> Reply
        requires form { InForm self.old }
        ensures form { InForm self.new }
        ensures starts { StartsPublication D.shown
            (λ id s u t. Starts s u (machine_upload s.client.kept db) id result t) self.old self.new
            (N.shown names.old) (N.shown names.new) (upload_refusal self.old db)
            (upload_job self.old.ledger.databases self.old.id
            (found_at self.old.ledger.databases db)) result }
    {
        let own = upload_reason(self.ledger.find(&db));
        let id = match self.draw(names, own) {
            Ok(id) => id,
            Err(reply) => return reply,
        };
        let Ok(job) = self.new_upload(alloc, &db, id) else {
            return Reply::NoMemory;
        };
        let left = left_in(&job);
        self.put_last(job, left)
    }

    // The upload of all commits that a database has now.
    fn new_upload(&self, alloc: Global, db: &DbName, id: Id16) -> Result<Job, AllocError>
        requires form { InForm self.now }
        requires some { upload_reason_by (found_at self.now.ledger.databases db.now) ≡ None }
        ensures job { IfOk result (λ j. j ≡ upload_job self.now.ledger.databases self.now.id
            (found_at self.now.ledger.databases db.now) id) }
        ensures new { IfOk result (IsNewUpload self.now.ledger.databases self.now.id db.now id) }
    {
        let ledger = &self.ledger;
        let Some(view) = ledger.find(db) else {
            unreachable!()
        };
        let Some(at) = view.commits else {
            unreachable!()
        };
        let Some(pages) = ledger.databases.pages(at.set) else {
            unreachable!()
        };
        pages.commits_fit(at.from, at.to);
        let base = view_base(alloc, &view)?;
        let upload = Upload::new(alloc, &base, pages, self.id, id)?;
        Ok(Job::Publish {
            set: at.set,
            taken: at.to - at.from,
            task: PublishTask::Upload(id, upload),
        })
    }

    /// Starts to delete dead blocks.
    #[tactic(none)]
    pub(crate) fn start_cleanup<N: Names>(&mut self, alloc: Global, names: &mut N) -> Reply
        requires form { InForm self.old }
        ensures form { InForm self.new }
        ensures starts { StartsPublication D.shown
            (λ id s u t. Starts s u Cleaning id result t) self.old self.new
            (N.shown names.old) (N.shown names.new) (start_reason (parts_of self.old) Cleaning)
            (λ id. Publish 0 0 (CleanupTask id (new_cleanup self.old.id id))) result }
    {
        let id = match self.draw(names, None) {
            Ok(id) => id,
            Err(reply) => return reply,
        };
        let task = Cleanup::new(alloc, self.id, id);
        self.publish(PublishTask::Cleanup(id, task))
    }

    // Why a publication is refused, if it is, by what speaks against its kind alone.
    #[tactic(none)]
    fn start_refusal(&self, own: Option<Reply>) -> Option<Reply>
        ensures { result ≡ reason_with (parts_of self.now).closed
            (is_some (parts_of self.now).kept.pending) (runs_publication (parts_of self.now)) own
            (runs_all (parts_of self.now)) }
    {
        let pending = self.ledger.pending().is_some();
        let all = self.tasks.len() >= MOST_TASKS;
        reason_with(
            self.ledger.closed(),
            pending,
            self.runs_publication(),
            own,
            all,
        )
    }

    // What speaks against a new database, a copy or a removal alone: a database with commits is not removed.
    fn copy_refusal(&self, plan: &CopyPlan) -> Option<Reply>
        ensures { result ≡ first_reason (kind_reasons (parts_of self.now) (kind_asked plan.now)) }
    {
        match plan {
            CopyPlan::New { .. } => None,
            CopyPlan::Copy { .. } => None,
            CopyPlan::Remove { name } => removal_reason(self.ledger.find(name)),
        }
    }

    // Draws a publication's name, where nothing speaks against it and there is room for its task.
    #[tactic(none)]
    fn draw<N: Names>(&mut self, names: &mut N, own: Option<Reply>) -> Result<Id16, Reply>
        ensures { DrawsUnless self.old self.new (N.shown names.old) (N.shown names.new)
            (reason_with (parts_of self.old).closed (is_some (parts_of self.old).kept.pending)
            (runs_publication (parts_of self.old)) own (runs_all (parts_of self.old))) result }
    {
        if let Some(reason) = self.start_refusal(own) {
            return Err(reason);
        }
        if self.tasks.reserve(1).is_err() {
            return Err(Reply::NoMemory);
        }
        drawn(names)
    }

    // Puts a task last that publishes no commits, under the name that was drawn for it.
    #[tactic(none)]
    fn publish(&mut self, task: PublishTask) -> Reply
        requires can { CanPublish self.old }
        requires running { IsRunning task }
        requires new { refused_of task ≡ [] }
        requires plain { upload_of 0 task ≡ None }
        requires form { InForm self.old }
        ensures form { InForm self.new }
        ensures starts { StartsTask self.old self.new (Publish 0 0 task) (left_of task) result }
        ensures task { IsTask result }
    {
        let left = task.left();
        self.put_last(
            Job::Publish {
                set: 0,
                taken: 0,
                task,
            },
            left,
        )
    }
}

// Why a publication is refused, if it is: `own` is what speaks against its kind alone.
fn reason_with(
    closed: bool,
    pending: bool,
    busy: bool,
    own: Option<Reply>,
    all: bool,
) -> Option<Reply>
    ensures { result ≡ reason_with closed pending busy own all }
{
    if closed {
        return Some(Reply::Closed);
    }
    if pending {
        return Some(Reply::Pending);
    }
    if busy {
        return Some(Reply::Busy);
    }
    if own.is_some() {
        return own;
    }
    if all {
        return Some(Reply::TooMany);
    }
    None
}

// Why a database is not removed, by its view.
fn removal_reason(view: Option<DatabaseView<'_>>) -> Option<Reply>
    ensures { result ≡ removal_reason_by (option_map shown_view view.entry) }
{
    let Some(view) = view else {
        return None;
    };
    if view.commits.is_some() {
        return Some(Reply::HasLocal);
    }
    None
}

// What speaks against an upload alone: its database is not known, or has no commits.
fn upload_reason(view: Option<DatabaseView<'_>>) -> Option<Reply>
    ensures { result ≡ upload_reason_by (option_map shown_view view.entry) }
{
    let Some(view) = view else {
        return Some(Reply::NoDatabase);
    };
    commits_reason(view.commits)
}

// What speaks against an upload of these commits.
fn commits_reason(commits: Option<CommitsAt>) -> Option<Reply>
    ensures { result ≡ commits_reason commits }
{
    let Some(at) = commits else {
        return Some(Reply::Nothing);
    };
    if at.from == at.to {
        return Some(Reply::Nothing);
    }
    None
}

// How many requests a new job has left.
fn left_in(job: &Job) -> u32
    ensures { result ≡ left_in job.now }
{
    match job {
        Job::Publish {
            set: _,
            taken: _,
            task,
        } => task.left(),
        _ => 1,
    }
}

// Draws a name.
fn drawn<N: Names>(names: &mut N) -> Result<Id16, Reply>
    ensures { DrawnAs (N.shown names.old) (N.shown names.new) result }
{
    match names.draw() {
        Draw::Drawn(id) => {
            let _ = id.bytes();
            Ok(id)
        }
        Draw::Failed => Err(Reply::NamesFault),
    }
}
