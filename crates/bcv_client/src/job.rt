//! What a client's task does.
ghost use Rattle.std.specs.Prelude.{◌≡◌};

use bcv_tasks::PublishTask;

/// What a page is fetched for.
#[derive(Clone, Copy, Debug, PartialEq, Eq)]
pub enum Access {
    ToRead,
    ToHold,
}

/// What a client's task does, one request a step.
#[derive(Drop)]
pub enum Job {
    /// Fetches a page of an open transaction.
    Fetch {
        access: Access,
        txn: u8,
        page: u32,
    },
    /// Polls the container.
    Poll,
    /// Publishes. An upload takes so many commits, which are in the page set of this place.
    Publish {
        set: usize,
        taken: u64,
        task: PublishTask,
    },
    /// Finds out what became of the pending publication.
    Resolve,
}
