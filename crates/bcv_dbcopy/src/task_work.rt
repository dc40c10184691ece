//! A step of a task before the manifest's put.
ghost use Rattle.std.specs.Prelude.{◌≡◌, ◌≤◌, ◌<◌, true, false, length, is_none};
ghost use Rattle.std.specs.List.{AllByRecursion};
ghost use Rattle.std.specs.Option.{option_copied};
ghost use Rattle.bcv_base.specs.declared.seen.Seen.{Seen};
ghost use Rattle.bcv_base.specs.Ids.{IsId};
ghost use Rattle.bcv_base.specs.Image.{Page};
ghost use Rattle.bcv_publish.specs.BlockPut.{BlockPuts};
ghost use Rattle.bcv_publish.specs.ManifestGet.{ManifestGets};
ghost use Rattle.bcv_dbcopy.specs.State.{IsRunning, IsTask, block_text, is_ready};
ghost use Rattle.bcv_dbcopy.specs.TaskWork.{TaskWorks, WorkLeaves, block_known};

use crate::blocks::block_bytes;
use crate::task::CopyTask;
use bcv_base::{DbEntry, Latest, Names, Seen, Seq};
use bcv_dbmap::EditPlan;
use bcv_publish::{BlockEnd, Work, put_named};
use bcv_store::Store;
use std::alloc::Global;
use std::mem;

impl CopyTask {
    /// Gets the manifest, where none is kept, or else puts the next block under a name that is drawn for it. This is one
    /// request to the store, or none where no name or no memory was had for it. Every answer but `More` ends the task;
    /// the blocks that were put stay in the container, and no manifest lists them.
    pub fn work<S: Store, N: Names>(
        &mut self,
        alloc: Global,
        store: &mut S,
        names: &mut N,
        seen: &Seen,
    ) -> Work
        requires running { IsRunning self.old }
        requires not_ready { is_ready self.old ≡ false }
        ensures leaves { WorkLeaves self.old.publish.latest seen.now self.old result self.new }
        ensures works { TaskWorks S.told (S.shown store.old) (S.shown store.new) (N.shown names.old)
            (N.shown names.new)
            seen.now self.old result self.new }
        ensures reached { S.reaches store.old store.new }
        ensures running { IsRunning self.new }
    {
        if self.publish.latest().is_none() {
            self.read(alloc, store, seen)
        } else {
            self.put_block(alloc, store, names)
        }
    }

    // The manifest's get.
    fn read<S: Store>(&mut self, alloc: Global, store: &mut S, seen: &Seen) -> Work
        requires running { self.old.published ≡ false }
        requires none { is_none self.old.publish.latest ≡ true }
        ensures leaves { WorkLeaves self.old.publish.latest seen.now self.old result self.new }
        ensures gets { ManifestGets S.told (S.shown store.old) (S.shown store.new)
            seen.now self.old.edit self.old.publish result self.new.publish }
        ensures reached { S.reaches store.old store.new }
        ensures task { IsTask self.new }
    {
        let work = self.publish.get(alloc, store, seen, &self.edit);
        self.block = block_known(self.block, self.publish.latest());
        work
    }

    // The put of the next block, where a manifest is kept.
    fn put_block<S: Store, N: Names>(&mut self, alloc: Global, store: &mut S, names: &mut N) -> Work
        requires running { self.old.published ≡ false }
        requires kept { is_none self.old.publish.latest ≡ false }
        requires not_ready { is_ready self.old ≡ false }
        ensures leaves { (seen : Seen) → WorkLeaves self.old.publish.latest seen self.old
            result self.new }
        ensures works { (seen : Seen) →
            TaskWorks S.told (S.shown store.old) (S.shown store.new) (N.shown names.old) (N.shown names.new)
            seen self.old result self.new }
        ensures reached { S.reaches store.old store.new }
        ensures task { IsTask self.new }
        ensures rest { self.new ≡ record self.old { edit = self.new.edit } }
    {
        let Some(block) = self.block else {
            unreachable!()
        };
        let EditPlan::New(entry) = &mut self.edit else {
            unreachable!()
        };
        put_next(alloc, store, names, block, self.pages.items(), entry).work()
    }
}

// The block size that is known after a get: that of the first manifest that was kept.
fn block_known(known: Option<u32>, latest: Option<&Latest>) -> Option<u32>
    ensures { result ≡ block_known known (option_copied latest.entry) }
{
    match known {
        Some(block) => Some(block),
        None => latest.map(|latest| latest.manifest.block),
    }
}

// Puts the next block of these pages under a drawn name, which the entry then lists.
fn put_next<S: Store, N: Names>(
    alloc: Global,
    store: &mut S,
    names: &mut N,
    block: u32,
    pages: &[Seq<u8>],
    entry: &mut DbEntry,
) -> BlockEnd
    requires size { 512 ≤ entry.old.page_size }
    requires few { length entry.old.blocks < 65536 }
    requires pages { AllByRecursion (λ (p : Page). length p ≡ entry.old.page_size) pages.now }
    ensures puts { BlockPuts S.told (S.shown store.old) (S.shown store.new) (N.shown names.old)
        (N.shown names.new)
        (block_text block entry.old.page_size pages.now (length entry.old.blocks))
        entry.old.blocks result entry.new.blocks }
    ensures rest { entry.new ≡ record entry.old { blocks = entry.new.blocks } }
    ensures ids { AllByRecursion IsId entry.old.blocks → AllByRecursion IsId entry.new.blocks }
    ensures reached { S.reaches store.old store.new }
{
    let number = entry.blocks.items().len();
    let bytes = match block_bytes(alloc, block, entry.page_size, pages, number) {
        Ok(bytes) => bytes,
        Err(_) => return BlockEnd::NoMemory,
    };
    let mut ids = mem::replace(&mut entry.blocks, Seq::of(Vec::new(alloc))).into_vec();
    let end = put_named(alloc, store, names, &bytes, &mut ids);
    entry.blocks = Seq::of(ids);
    end
}
