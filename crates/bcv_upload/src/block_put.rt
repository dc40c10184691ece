//! The put of a block under a drawn name, which the upload's edit then lists.
ghost use Rattle.std.specs.Prelude.{◌≡◌, ◌<◌, length, vec_len};
ghost use Rattle.bcv_dbmap.specs.declared.plan.EditPlan.TheVariants as edit;
ghost use Rattle.bcv_publish.specs.BlockPut.{BlockPuts, block_work};
ghost use Rattle.bcv_upload.specs.Inside.{HasPlace, PutsNext, listed_at};
ghost use Rattle.bcv_upload.specs.State.{IsTask};
ghost use Rattle.bcv_upload.specs.UploadWork.{BlockLeaves};

use crate::upload::Upload;
use bcv_base::{Id16, Names, Seq};
use bcv_dbmap::EditPlan;
use bcv_publish::{BlockEnd, Work, put_named};
use bcv_store::Store;
use std::alloc::Global;
use std::mem;

impl Upload {
    /// Puts the next block, of these bytes.
    pub(crate) fn put_block<S: Store, N: Names>(
        &mut self,
        alloc: Global,
        store: &mut S,
        names: &mut N,
        bytes: &[u8],
    ) -> Work
        requires more { length self.old.ids < length self.old.touched }
        ensures leaves { BlockLeaves self.old result self.new }
        ensures puts { PutsNext S.told (S.shown store.old) (S.shown store.new) (N.shown names.old)
            (N.shown names.new)
            bytes.now self.old.ids result self.new.ids }
        ensures reached { S.reaches store.old store.new }
        ensures task { IsTask self.new }
    {
        let number = self.touched[self.ids.len()];
        let end = put_named(alloc, store, names, bytes, &mut self.ids);
        if let BlockEnd::Stored = end {
            let id = self.ids[self.ids.len() - 1];
            list_block(alloc, &mut self.plan, number, id);
            self.fetched = None;
            return Work::More;
        }
        end.work()
    }
}

// Lists an id for a block of the edit.
fn list_block(alloc: Global, plan: &mut EditPlan, number: u32, id: Id16)
    requires { HasPlace plan.old number }
    ensures { plan.new ≡ listed_at plan.old number id }
{
    let EditPlan::Upload { from: _, entry } = plan else {
        unreachable!()
    };
    let mut blocks = mem::replace(&mut entry.blocks, Seq::of(Vec::new(alloc))).into_vec();
    blocks[number as usize] = id;
    entry.blocks = Seq::of(blocks);
}
