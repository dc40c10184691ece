ghost use Rattle.std.specs.Prelude.{◌≡◌, ◌≤◌, [], length};
ghost use Rattle.std.specs.Option.{option_copied};
ghost use Rattle.bcv_cleanup.specs.State.{
  IsRunning,
  IsTask,
  deletions_left,
  is_ready,
  left_of,
  manifest_requests,
  new_cleanup,
  taken_ids,
};

use crate::released::MOST_CLEANED;
use bcv_base::{Id16, Latest, Seq};
use bcv_dbmap::EditPlan;
use bcv_publish::Publish;
use std::alloc::Global;
use std::marker::Model;

/// A task that deletes dead blocks and sweeps them from the delete list, one request a call: `work` while it is not
/// `ready`, and then `put`. After a publication, and where there is nothing to delete, there is neither.
#[derive(Drop)]
pub struct Cleanup {
    // The sweep of the ids that were taken, its publication, the moment by which they are deleted, how many of them were,
    // whether the manifest that was read last has a further entry to be deleted, and whether the sweep was published.
    pub(crate) edit: EditPlan,
    pub(crate) publish: Publish,
    pub(crate) moment: Option<u64>,
    pub(crate) deleted: usize,
    pub(crate) more: bool,
    pub(crate) published: bool,
}

impl Model for Cleanup {
    ghost use Rattle.bcv_cleanup.specs.State.{State, IsTask};

    ghost Value = { State };

    ghost view = { λ t. record {
      edit = t.edit;
      publish = t.publish;
      moment = t.moment;
      deleted = t.deleted;
      more = t.more;
      published = t.published;
    } };

    ghost invariant = { λ t. IsTask (record {
      edit = t.edit;
      publish = t.publish;
      moment = t.moment;
      deleted = t.deleted;
      more = t.more;
      published = t.published;
    }) };
}

impl Cleanup {
    /// A cleanup by a writer that publishes under a drawn id. Nothing is asked of the clock or the store yet.
    pub fn new(alloc: Global, writer: Id16, id: Id16) -> Cleanup
        ensures task { result ≡ new_cleanup writer id }
        ensures running { IsRunning result }
    {
        Cleanup {
            edit: EditPlan::Sweep {
                ids: Seq::of(Vec::new(alloc)),
            },
            publish: Publish::new(writer, id),
            moment: None,
            deleted: 0,
            more: false,
            published: false,
        }
    }

    /// How many requests are left, where none is refused. Before the manifest is read, it counts as many entries as may
    /// be taken.
    pub fn left(&self) -> u32
        ensures { result ≡ left_of self.now }
    {
        if self.published {
            return 0;
        }
        self.deletions_left() as u32 + self.manifest_requests()
    }

    // The entries that are still to be deleted.
    fn deletions_left(&self) -> usize
        ensures left { result ≡ deletions_left self.now.publish.latest
            (taken_ids self.now) self.now.deleted }
        ensures few { result ≤ 64 }
    {
        let taken = self.taken().len();
        if taken == 0 && self.publish.latest().is_none() {
            return MOST_CLEANED;
        }
        taken - self.deleted
    }

    // The manifest's requests that are left.
    fn manifest_requests(&self) -> u32
        ensures { result ≡ manifest_requests self.now.publish.latest }
    {
        match self.publish.latest() {
            Some(_) => 1,
            None => 2,
        }
    }

    /// Whether the manifest's put is the one request left.
    pub fn ready(&self) -> bool
        ensures ready { result ≡ is_ready self.now }
        ensures task { IsTask self.now }
    {
        self.publish.latest().is_some() && self.left() == 1
    }

    /// How many entries were taken, and whether the manifest that was read last has a further one that the rule
    /// releases at the cleanup's moment.
    pub fn found(&self) -> (u32, bool)
        ensures count { result.0 ≡ length (taken_ids self.now) }
        ensures more { result.1 ≡ self.now.more }
    {
        (self.taken().len() as u32, self.more)
    }

    // The ids that were taken.
    pub(crate) fn taken(&self) -> &[Id16]
        ensures ids { result.now ≡ taken_ids self.now }
        ensures few { length result.now ≤ 64 }
        ensures deleted { self.now.deleted ≤ length result.now }
    {
        let EditPlan::Sweep { ids } = &self.edit else {
            unreachable!()
        };
        ids.items()
    }

    /// The manifest that was read last, or the one that was published, with its etag.
    pub fn latest(&self) -> Option<&Latest>
        ensures { option_copied result ≡ self.now.publish.latest }
    {
        self.publish.latest()
    }

    /// The manifest that was read last, or the one that was published, with its etag; the task ends.
    pub fn into_latest(self) -> Option<Latest>
        ensures { result ≡ self.publish.latest }
    {
        self.publish.into_latest()
    }
}
