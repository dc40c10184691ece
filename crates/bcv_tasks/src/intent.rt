//! What the intent of a publication notes.
ghost use Rattle.std.specs.Prelude.{◌≡◌, true, IfOk};
ghost use Rattle.bcv_tasks.specs.State.{IsRunning, is_ready, pending_of, uploading_of};
ghost use Rattle.bcv_upload.specs.State as state;

use crate::publish_task::PublishTask;
use bcv_base::{DbEntry, Seq};
use bcv_model::{PendingPub, Uploading};
use bcv_upload::Upload;
use std::alloc::{AllocError, Global};

impl PublishTask {
    /// The publication that is pending once the intent of its put is noted. An upload takes so many commits of its
    /// database.
    pub fn pending(&self, alloc: Global, taken: u64) -> Result<PendingPub, AllocError>
        requires running { IsRunning self.now }
        requires ready { is_ready self.now ≡ true }
        ensures { IfOk result (λ x. x ≡ pending_of taken self.now) }
    {
        let upload = match self {
            PublishTask::Upload(_, upload) => Some(uploading(alloc, upload, taken)?),
            _ => None,
        };
        Ok(PendingPub {
            id: self.id(),
            upload,
        })
    }
}

// What a pending upload publishes.
fn uploading(alloc: Global, upload: &Upload, taken: u64) -> Result<Uploading, AllocError>
    requires running { state.IsRunning upload.now }
    requires ready { state.is_ready upload.now ≡ true }
    ensures { IfOk result (λ u. u ≡ uploading_of taken upload.now) }
{
    let Some(latest) = upload.latest() else {
        unreachable!()
    };
    Ok(Uploading {
        count: taken,
        block: latest.manifest.block,
        entry: copy_entry(alloc, upload.entry())?,
    })
}

// The same entry once more.
fn copy_entry(alloc: Global, entry: &DbEntry) -> Result<DbEntry, AllocError>
    ensures { IfOk result (λ e. e ≡ entry.now) }
{
    let mut blocks = Vec::with_capacity(alloc, entry.blocks.items().len())?;
    blocks.extend_from_slice(entry.blocks.items())?;
    Ok(DbEntry {
        name: entry.name,
        tag: entry.tag,
        page_size: entry.page_size,
        pages: entry.pages,
        blocks: Seq::of(blocks),
    })
}
