//! The deletion of a block that a cleanup has taken.
ghost use Rattle.std.specs.Prelude.{◌≡◌, false, is_none};
ghost use Rattle.bcv_store.specs.Requests.{StoreDeletes};
ghost use Rattle.bcv_cleanup.specs.CleanupWork.{DeletesNext};
ghost use Rattle.bcv_cleanup.specs.State.{IsTask, is_ready};

use crate::cleanup::Cleanup;
use bcv_base::ObjName;
use bcv_publish::Work;
use bcv_store::{Del, Store};
use std::alloc::Global;

impl Cleanup {
    // Deletes the next block, where a manifest is kept.
    pub(crate) fn delete_block<S: Store>(&mut self, alloc: Global, store: &mut S) -> Work
        requires running { self.old.published ≡ false }
        requires kept { is_none self.old.publish.latest ≡ false }
        requires not_ready { is_ready self.old ≡ false }
        ensures deletes { DeletesNext S.told (S.shown store.old)
            (S.shown store.new) self.old result self.new }
        ensures reached { S.reaches store.old store.new }
        ensures task { IsTask self.new }
    {
        let Some(moment) = self.moment else {
            unreachable!()
        };
        let id = self.taken()[self.deleted];
        match store.delete(alloc, &ObjName::Block(id), moment) {
            Del::Done => {
                self.deleted += 1;
                Work::More
            }
            Del::Failed => Work::StoreFault,
            Del::NoMemory => Work::NoMemory,
        }
    }
}
