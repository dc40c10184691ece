ghost use Rattle.std.specs.Prelude.{◌≡◌, List, Some};
ghost use Rattle.std.specs.Option.{option_copied};
ghost use Rattle.bcv_dbcopy.specs.State.{FitsPages, IsEdit, IsRunning, IsTask, edit_of_plan, pages_of_plan, new_task, left_of, is_ready, manifest_requests};

use crate::blocks::blocks_left;
use crate::plan::CopyPlan;
use bcv_base::{DbEntry, Id16, Latest, Seq};
use bcv_dbmap::EditPlan;
use bcv_publish::Publish;
use std::alloc::Global;
use std::marker::Model;

/// A task that publishes a new database, a copy or a removal, one request a call: `work` while it is not `ready`, and
/// then `put`. After a publication there is neither.
#[derive(Drop)]
pub struct CopyTask {
    // The edit, with the ids of the blocks that were put; the pages of a new database; the block size of the manifest
    // that was read first; and whether the edit was published.
    pub(crate) edit: EditPlan,
    pub(crate) pages: Seq<Seq<u8>>,
    pub(crate) publish: Publish,
    pub(crate) block: Option<u32>,
    pub(crate) published: bool,
}

impl Model for CopyTask {
    ghost use Rattle.bcv_dbcopy.specs.State.{State, IsTask};

    ghost Value = { State };

    ghost view = { λ t. record { edit = t.edit; pages = t.pages; publish = t.publish; block = t.block; published = t.published } };

    ghost invariant = { λ t. IsTask (record { edit = t.edit; pages = t.pages; publish = t.publish; block = t.block; published = t.published }) };
}

impl CopyTask {
    /// A task of a writer that publishes under a drawn id. Nothing is asked of the store yet.
    pub fn new(alloc: Global, plan: CopyPlan, writer: Id16, id: Id16) -> CopyTask
        requires { FitsPages plan }
        ensures task { result ≡ new_task plan writer id }
        ensures running { IsRunning result }
    {
        let (edit, pages) = parts(alloc, plan, id);
        CopyTask {
            edit,
            pages,
            publish: Publish::new(writer, id),
            block: None,
            published: false,
        }
    }

    /// How many requests are left, where none is refused. Before the manifest is read, a new database counts a block for
    /// each page, so that the number then falls to what the block size needs.
    pub fn left(&self) -> u32
        ensures { result ≡ left_of self.now }
    {
        if self.published {
            return 0;
        }
        match self.block {
            None => self.pages.items().len() as u32 + 2,
            Some(block) => blocks_left(block, &self.edit) + self.manifest_requests(),
        }
    }

    // The manifest's requests that are left.
    fn manifest_requests(&self) -> u32
        ensures { result ≡ manifest_requests self.now.publish.latest }
    {
        match self.publish.latest() {
            Some(_) => 1,
            None => 2,
        }
    }

    /// Whether the manifest's put is the one request left.
    pub fn ready(&self) -> bool
        ensures ready { result ≡ is_ready self.now }
        ensures task { IsTask self.now }
    {
        self.publish.latest().is_some() && self.left() == 1
    }

    /// The manifest that was read last, or the one that was published, with its etag.
    pub fn latest(&self) -> Option<&Latest>
        ensures { option_copied result ≡ self.now.publish.latest }
    {
        self.publish.latest()
    }

    /// The manifest that was read last, or the one that was published, with its etag; the task ends.
    pub fn into_latest(self) -> Option<Latest>
        ensures { result ≡ self.publish.latest }
    {
        self.publish.into_latest()
    }
}

// The edit of a plan under an id, and the pages of a new database.
fn parts(alloc: Global, plan: CopyPlan, id: Id16) -> (EditPlan, Seq<Seq<u8>>)
    requires { FitsPages plan }
    ensures edit { result.0 ≡ edit_of_plan plan id }
    ensures pages { result.1 ≡ pages_of_plan plan }
    ensures fits { IsEdit result.0 result.1 }
{
    match plan {
        CopyPlan::New {
            name,
            page_size,
            pages,
        } => {
            let _name = name.text();
            let _id = id.bytes();
            let entry = DbEntry {
                name,
                tag: id,
                page_size,
                pages: pages.items().len() as u32,
                blocks: Seq::of(Vec::new(alloc)),
            };
            (EditPlan::New(entry), pages)
        }
        CopyPlan::Copy { from, to } => {
            let _name = to.text();
            (EditPlan::Copy { from, to }, Seq::of(Vec::new(alloc)))
        }
        CopyPlan::Remove { name } => (EditPlan::Remove { name }, Seq::of(Vec::new(alloc))),
    }
}
