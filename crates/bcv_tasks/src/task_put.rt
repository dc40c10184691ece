//! The manifest's put of a publishing task.
ghost use Rattle.std.specs.Prelude.{◌≡◌, ◌≢◌, true};
ghost use Rattle.bcv_tasks.specs.declared.publish_task.PublishTask.TheVariants as task;
ghost use Rattle.bcv_tasks.specs.State.{IsRunning, is_ready, left_of};
ghost use Rattle.bcv_tasks.specs.TaskPut.{CompletesCleanup, PutsTask};

use crate::create_task::CreateTask;
use crate::publish_task::PublishTask;
use crate::put_answer::PutAnswer;
use bcv_base::Id16;
use bcv_cleanup::Cleanup;
use bcv_dbcopy::CopyTask;
use bcv_store::Store;
use bcv_upload::Upload;
use std::alloc::Global;

impl PublishTask {
    /// Publishes over the manifest that was read, where it is still the last one, or, of a create, where there is none.
    /// This is one request to the store, or none where memory runs out before it. After `Refused` the manifest is read
    /// again, and what was put or deleted stays so; after `Published`, `Contended` and `Exists` the task has ended.
    /// `Unknown` leaves the task as it was; the put must not be tried again before it is known what became of it.
    pub fn put<S: Store>(&mut self, alloc: Global, store: &mut S, moment: u64) -> PutAnswer
        requires running { IsRunning self.old }
        requires ready { is_ready self.old ≡ true }
        ensures puts { PutsTask S.told (S.shown store.old)
            (S.shown store.new) self.old moment result self.new }
        ensures complete { CompletesCleanup self.old result self.new }
        ensures reached { S.reaches store.old store.new }
        ensures left { result ≡ PutAnswer.Refused → left_of self.new ≡ 2 }
        ensures running { result ≡ PutAnswer.Refused → IsRunning self.new }
    {
        match self {
            PublishTask::Create(create) => put_create(alloc, store, create, moment),
            PublishTask::Copy(id, copy) => put_copy(alloc, store, *id, copy, moment),
            PublishTask::Upload(id, upload) => put_upload(alloc, store, *id, upload, moment),
            PublishTask::Cleanup(id, cleanup) => put_cleanup(alloc, store, *id, cleanup, moment),
        }
    }
}

// The put of a create.
fn put_create<S: Store>(
    alloc: Global,
    store: &mut S,
    create: &mut CreateTask,
    moment: u64,
) -> PutAnswer
    requires running { IsRunning (task.Create create.old) }
    ensures puts { PutsTask S.told (S.shown store.old) (S.shown store.new)
        (task.Create create.old) moment result (task.Create create.new) }
    ensures reached { S.reaches store.old store.new }
    ensures tried { result ≢ PutAnswer.Refused }
{
    create.put(alloc, store, moment)
}

// The put of a new database, a copy or a removal.
fn put_copy<S: Store>(
    alloc: Global,
    store: &mut S,
    id: Id16,
    copy: &mut CopyTask,
    moment: u64,
) -> PutAnswer
    requires running { IsRunning (task.Copy id copy.old) }
    requires ready { is_ready (task.Copy id copy.old) ≡ true }
    ensures puts { PutsTask S.told (S.shown store.old) (S.shown store.new)
        (task.Copy id copy.old) moment result (task.Copy id copy.new) }
    ensures reached { S.reaches store.old store.new }
    ensures left { result ≡ PutAnswer.Refused → left_of (task.Copy id copy.new) ≡ 2 }
    ensures running { result ≡ PutAnswer.Refused → IsRunning (task.Copy id copy.new) }
{
    let end = copy.put(alloc, store, moment);
    PutAnswer::of(end)
}

// The put of an upload.
fn put_upload<S: Store>(
    alloc: Global,
    store: &mut S,
    id: Id16,
    upload: &mut Upload,
    moment: u64,
) -> PutAnswer
    requires running { IsRunning (task.Upload id upload.old) }
    requires ready { is_ready (task.Upload id upload.old) ≡ true }
    ensures puts { PutsTask S.told (S.shown store.old) (S.shown store.new)
        (task.Upload id upload.old) moment result (task.Upload id upload.new) }
    ensures reached { S.reaches store.old store.new }
    ensures left { result ≡ PutAnswer.Refused → left_of (task.Upload id upload.new) ≡ 2 }
    ensures running { result ≡ PutAnswer.Refused → IsRunning (task.Upload id upload.new) }
{
    let end = upload.put(alloc, store, moment);
    PutAnswer::of(end)
}

// The put of a cleanup.
fn put_cleanup<S: Store>(
    alloc: Global,
    store: &mut S,
    id: Id16,
    cleanup: &mut Cleanup,
    moment: u64,
) -> PutAnswer
    requires running { IsRunning (task.Cleanup id cleanup.old) }
    requires ready { is_ready (task.Cleanup id cleanup.old) ≡ true }
    ensures puts { PutsTask S.told (S.shown store.old) (S.shown store.new)
        (task.Cleanup id cleanup.old) moment result (task.Cleanup id cleanup.new) }
    ensures complete { CompletesCleanup (task.Cleanup id cleanup.old) result
        (task.Cleanup id cleanup.new) }
    ensures reached { S.reaches store.old store.new }
    ensures left { result ≡ PutAnswer.Refused → left_of (task.Cleanup id cleanup.new) ≡ 2 }
    ensures running { result ≡ PutAnswer.Refused → IsRunning (task.Cleanup id cleanup.new) }
{
    let end = cleanup.put(alloc, store, moment);
    PutAnswer::of(end)
}
