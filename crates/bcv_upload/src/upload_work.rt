//! A step of an upload before the manifest's put.
ghost use Rattle.std.specs.Prelude.{◌≡◌, Some, true, false, is_none};
ghost use Rattle.bcv_publish.specs.ManifestGet.{GetLeaves, ManifestGets};
ghost use Rattle.bcv_upload.specs.State.{HoldsView, IsRunning, IsTask, asked_plan, is_ready, view_in};
ghost use Rattle.bcv_upload.specs.UploadWork.{TaskWorks, WorkLeaves, cache_after, is_fetch, with_publish};

use crate::next_text::{NextText, next_text};
use crate::upload::Upload;
use bcv_base::{Names, Seen};
use bcv_cache::BlockCache;
use bcv_pages::PageSet;
use bcv_publish::Work;
use bcv_store::Store;
use std::alloc::Global;

impl Upload {
    /// Gets the manifest, where none is kept. Else it puts the next block under a name that is drawn for it, or,
    /// where the block keeps a page of the base and its old bytes are not in the cache, gets those first. This is one
    /// request to the store, or none where no name or no memory was had for it. Every answer but `More` ends the
    /// upload; the blocks that were put stay in the container, and no manifest lists them.
    pub fn work<S: Store, N: Names>(
        &mut self,
        alloc: Global,
        store: &mut S,
        names: &mut N,
        seen: &Seen,
        pages: &PageSet,
        cache: &mut BlockCache,
    ) -> Work
        requires running { IsRunning self.old }
        requires not_ready { is_ready self.old ≡ false }
        requires view { HoldsView pages.now self.old }
        requires seen { seen.now.block ≡ Some self.old.base.block }
        requires cache { cache.old.block ≡ self.old.base.block }
        ensures leaves { WorkLeaves self.old.publish.latest
            (is_fetch (view_in pages.now self.old.base) cache.old self.old) seen.now self.old result self.new }
        ensures cache { cache.new
            ≡ cache_after self.old.publish.latest (view_in pages.now self.old.base) self.old cache.old }
        ensures works { TaskWorks S.told (S.shown store.old) (S.shown store.new) (N.shown names.old)
            (N.shown names.new)
            seen.now (view_in pages.now self.old.base) cache.old self.old result self.new }
        ensures reached { S.reaches store.old store.new }
        ensures running { IsRunning self.new }
    {
        if self.publish.latest().is_none() {
            return self.read(alloc, store, seen);
        }
        let number = self.touched[self.ids.len()];
        match next_text(alloc, &self.base, pages, number, &self.fetched, cache) {
            NextText::Made(bytes) => self.put_block(alloc, store, names, &bytes),
            NextText::Missing(id) => self.fetch(alloc, store, id),
            NextText::NoMemory => Work::NoMemory,
        }
    }

    // The manifest's get.
    fn read<S: Store>(&mut self, alloc: Global, store: &mut S, seen: &Seen) -> Work
        requires none { is_none self.old.publish.latest ≡ true }
        requires seen { seen.now.block ≡ Some self.old.base.block }
        ensures leaves { GetLeaves seen.now (asked_plan self.old) self.old.publish result
            self.new.publish }
        ensures rest { self.new ≡ with_publish self.old self.new.publish }
        ensures gets { ManifestGets S.told (S.shown store.old) (S.shown store.new)
            seen.now (asked_plan self.old) self.old.publish result self.new.publish }
        ensures reached { S.reaches store.old store.new }
        ensures task { IsTask self.new }
    {
        self.publish.get(alloc, store, seen, &self.asked)
    }
}
