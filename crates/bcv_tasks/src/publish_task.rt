//! A publishing task, whatever it publishes.
ghost use Rattle.std.specs.Prelude.{◌≡◌};
ghost use Rattle.std.specs.Option.{option_copied};
ghost use Rattle.bcv_tasks.specs.State.{id_of, is_ready, latest_of, left_of, has_further, taken_count};

use crate::create_task::CreateTask;
use bcv_base::{Id16, Latest};
use bcv_cleanup::Cleanup;
use bcv_dbcopy::CopyTask;
use bcv_upload::Upload;

/// A task that publishes, one request a call: the `work` of its kind while it is not `ready`, and then `put`. After a
/// publication there is neither.
#[derive(Drop)]
pub enum PublishTask {
    /// The first manifest of a container.
    Create(CreateTask),
    /// A new database, a copy or a removal, under this id.
    Copy(Id16, CopyTask),
    /// The local commits of a database, under this id.
    Upload(Id16, Upload),
    /// The deletion of dead blocks, under this id.
    Cleanup(Id16, Cleanup),
}

impl PublishTask {
    /// The id of the publication.
    pub fn id(&self) -> Id16
        ensures { result ≡ id_of self.now }
    {
        match self {
            PublishTask::Create(task) => task.id,
            PublishTask::Copy(id, _) => *id,
            PublishTask::Upload(id, _) => *id,
            PublishTask::Cleanup(id, _) => *id,
        }
    }

    /// How many requests are left, where none is refused.
    pub fn left(&self) -> u32
        ensures { result ≡ left_of self.now }
    {
        match self {
            PublishTask::Create(task) => u32::from(task.latest.is_none()),
            PublishTask::Copy(_, task) => task.left(),
            PublishTask::Upload(_, task) => task.left(),
            PublishTask::Cleanup(_, task) => task.left(),
        }
    }

    /// Whether the manifest's put is the one request left.
    pub fn ready(&self) -> bool
        ensures { result ≡ is_ready self.now }
    {
        match self {
            PublishTask::Create(task) => task.latest.is_none(),
            PublishTask::Copy(_, task) => task.ready(),
            PublishTask::Upload(_, task) => task.ready(),
            PublishTask::Cleanup(_, task) => task.ready(),
        }
    }

    /// The manifest that was read last, or the one that was published, with its etag.
    pub fn latest(&self) -> Option<&Latest>
        ensures { option_copied result ≡ latest_of self.now }
    {
        match self {
            PublishTask::Create(task) => task.latest.as_ref(),
            PublishTask::Copy(_, task) => task.latest(),
            PublishTask::Upload(_, task) => task.latest(),
            PublishTask::Cleanup(_, task) => task.latest(),
        }
    }

    /// The manifest that was read last, or the one that was published, with its etag; the task ends.
    pub fn into_latest(self) -> Option<Latest>
        ensures { result ≡ latest_of self }
    {
        match self {
            PublishTask::Create(task) => task.latest,
            PublishTask::Copy(_, task) => task.into_latest(),
            PublishTask::Upload(_, task) => task.into_latest(),
            PublishTask::Cleanup(_, task) => task.into_latest(),
        }
    }

    /// How many blocks a cleanup has taken, and whether it knows of a further one. Every other task takes none.
    pub fn found(&self) -> (u32, bool)
        ensures count { result.0 ≡ taken_count self.now }
        ensures more { result.1 ≡ has_further self.now }
    {
        match self {
            PublishTask::Cleanup(_, task) => task.found(),
            _ => (0, false),
        }
    }
}
