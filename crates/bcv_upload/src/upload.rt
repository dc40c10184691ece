ghost use Rattle.std.specs.Prelude.{◌≡◌, ◌≤◌, IfOk};
ghost use Rattle.std.specs.Option.{option_copied};
ghost use Rattle.bcv_base.specs.SizeLimits.{most_blocks};
ghost use Rattle.bcv_base.specs.Views.{touched_blocks};
ghost use Rattle.bcv_dbmap.specs.declared.plan.EditPlan.TheVariants as edit;
ghost use Rattle.bcv_pages.specs.Held.{CanView};
ghost use Rattle.bcv_upload.specs.BlockText.{per_block};
ghost use Rattle.bcv_upload.specs.State.{HoldsView, IsBase, IsRunning, IsTask, entry_with, is_ready, left_of, manifest_requests, needed, new_upload, plan_of, size_in, view_in};

use crate::view_entry::{copy_base, view_entry};
use bcv_base::{DbEntry, Id16, Latest, TxnBase};
use bcv_dbmap::EditPlan;
use bcv_pages::PageSet;
use bcv_publish::Publish;
use std::alloc::{AllocError, Global};
use std::marker::Model;

/// A task that publishes the view of some local commits over their base, one request a call: `work` while it is not
/// `ready`, and then `put`. After a publication there is neither.
#[derive(Drop)]
pub struct Upload {
    // What the view stands on; its size in pages; the edit that a get asks for, with zeros for each block that is
    // put, and the edit that is published; the numbers of the blocks with a local page, and the ids under which the
    // first of them were put; and the old bytes of the next one, where a get brought them.
    pub(crate) base: TxnBase,
    pub(crate) size: u32,
    pub(crate) asked: EditPlan,
    pub(crate) plan: EditPlan,
    pub(crate) touched: Vec<u32>,
    pub(crate) ids: Vec<Id16>,
    pub(crate) fetched: Option<Vec<u8>>,
    pub(crate) publish: Publish,
    pub(crate) published: bool,
}

impl Model for Upload {
    ghost use Rattle.std.specs.Prelude.{option_map};
    ghost use Rattle.bcv_upload.specs.State.{State};
    ghost use Rattle.bcv_upload.specs.Inside.{IsUpload};

    ghost Value = { State };

    ghost view = { λ t. record { base = t.base; size = t.size; touched = t.touched.items; ids = t.ids.items; fetched = option_map (λ b. b.items) t.fetched; publish = t.publish; published = t.published } };

    ghost invariant = { λ t. IsUpload (record { base = t.base; size = t.size; touched = t.touched.items; ids = t.ids.items; fetched = option_map (λ b. b.items) t.fetched; publish = t.publish; published = t.published }) t.asked t.plan };
}

impl Upload {
    /// An upload of a view by a writer that publishes under a drawn id. The view is what the base's commits in this set
    /// make of the base; `work` is to be handed a set that holds the same view. Nothing is asked of the store yet.
    pub fn new(
        alloc: Global,
        base: &TxnBase,
        pages: &PageSet,
        writer: Id16,
        id: Id16,
    ) -> Result<Upload, AllocError>
        requires base { IsBase base.now }
        requires view { CanView pages.now base.now.from base.now.to }
        requires page_size { pages.now.page_size ≡ base.now.entry.page_size }
        requires few { needed base.now (size_in pages.now base.now) ≤ most_blocks }
        ensures upload { IfOk result (λ u. u ≡ new_upload base.now (size_in pages.now base.now)
            (touched_blocks (per_block base.now) base.now.entry.pages (view_in pages.now base.now)) writer id) }
        ensures running { IfOk result IsRunning }
        ensures view { IfOk result (λ u. HoldsView pages.now u) }
    {
        let _id = id.bytes();
        let per_block = base.block / base.entry.page_size;
        let size = pages.size(base.entry.pages, base.from, base.to);
        let touched = pages.touched(alloc, base.entry.pages, base.from, base.to, per_block)?;
        let asked = view_entry(alloc, base, size, &touched, id)?;
        let entry = view_entry(alloc, base, size, &touched, id)?;
        let from = base.entry.tag;
        Ok(Upload {
            base: copy_base(alloc, base)?,
            size,
            asked: EditPlan::Upload { from, entry: asked },
            plan: EditPlan::Upload { from, entry },
            touched,
            ids: Vec::new(alloc),
            fetched: None,
            publish: Publish::new(writer, id),
            published: false,
        })
    }

    /// How many requests are left, where none is refused and each old block has to be fetched.
    pub fn left(&self) -> u32
        ensures { result ≡ left_of self.now }
    {
        if self.published {
            return 0;
        }
        let blocks = (self.touched.len() - self.ids.len()) as u32;
        let fetched = u32::from(self.fetched.is_some());
        2 * blocks - fetched + self.manifest_requests()
    }

    // The manifest's requests that are left.
    fn manifest_requests(&self) -> u32
        ensures requests { result ≡ manifest_requests self.now.publish.latest }
        ensures few { result ≤ 2 }
    {
        match self.publish.latest() {
            Some(_) => 1,
            None => 2,
        }
    }

    /// Whether the manifest's put is the one request left.
    pub fn ready(&self) -> bool
        ensures ready { result ≡ is_ready self.now }
        ensures task { IsTask self.now }
    {
        self.publish.latest().is_some() && self.left() == 1
    }

    /// The entry that is published, tagged with the publication's id. It is whole once the upload is ready; before
    /// that zeros stand for the blocks that are still to be put.
    pub fn entry(&self) -> &DbEntry
        ensures entry { result.now
            ≡ entry_with self.now.base self.now.size self.now.touched self.now.ids self.now.publish.id }
        ensures plan { plan_of self.now ≡ edit.Upload self.now.base.entry.tag result.now }
    {
        match &self.plan {
            EditPlan::Upload { from: _, entry } => entry,
            _ => unreachable!(),
        }
    }

    /// The manifest that was read last, or the one that was published, with its etag.
    pub fn latest(&self) -> Option<&Latest>
        ensures { option_copied result ≡ self.now.publish.latest }
    {
        self.publish.latest()
    }

    /// The manifest that was read last, or the one that was published, with its etag; the upload ends.
    pub fn into_latest(self) -> Option<Latest>
        ensures { result ≡ self.publish.latest }
    {
        self.publish.into_latest()
    }
}
