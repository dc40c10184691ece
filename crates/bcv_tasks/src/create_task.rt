//! The task that makes a container.
ghost use Rattle.std.specs.Prelude.{◌≡◌, true, None};
ghost use Rattle.bcv_base.specs.ManifestRules.{is_block_size};
ghost use Rattle.bcv_tasks.specs.State.{IsCreate};
ghost use Rattle.bcv_tasks.specs.TaskPut.{Creates, Settles};

use crate::put_answer::PutAnswer;
use bcv_base::{Id16, Latest};
use bcv_publish::{Created, create};
use bcv_store::Store;
use std::alloc::Global;

/// A task that makes a container: its one request is the put of the first manifest.
#[derive(Drop)]
pub struct CreateTask {
    /// The size of the container's blocks, in bytes.
    pub block: u32,
    /// How long the container keeps a dead block, in seconds.
    pub retention: u64,
    pub writer: Id16,
    /// The id of the publication.
    pub id: Id16,
    /// The manifest that was put, with its etag.
    pub latest: Option<Latest>,
}

impl CreateTask {
    /// A task of a writer that publishes under a drawn id. Nothing is asked of the store yet.
    pub fn new(block: u32, retention: u64, writer: Id16, id: Id16) -> CreateTask
        requires { is_block_size block ≡ true }
        ensures task { result
            ≡ record { block = block; retention = retention; writer = writer; id = id; latest = None } }
        ensures running { IsCreate result }
    {
        CreateTask {
            block,
            retention,
            writer,
            id,
            latest: None,
        }
    }

    // Puts the first manifest.
    pub(crate) fn put<S: Store>(&mut self, alloc: Global, store: &mut S, moment: u64) -> PutAnswer
        requires running { IsCreate self.old }
        ensures creates { Creates S.told (S.shown store.old)
            (S.shown store.new) self.old moment result self.new }
        ensures reached { S.reaches store.old store.new }
    {
        let end = create(
            alloc,
            store,
            self.block,
            self.retention,
            self.writer,
            self.id,
            moment,
        );
        self.settle(end)
    }

    // Keeps the manifest that was put.
    fn settle(&mut self, end: Created) -> PutAnswer
        ensures { Settles end self.old result self.new }
    {
        match end {
            Created::Done(latest) => {
                let number = latest.manifest.number;
                self.latest = Some(latest);
                PutAnswer::Published(number)
            }
            Created::Exists => PutAnswer::Exists,
            Created::Unknown => PutAnswer::Unknown,
            Created::NoMemory => PutAnswer::NoMemory,
        }
    }
}
