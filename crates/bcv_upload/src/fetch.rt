//! The get of a block's old bytes.
ghost use Rattle.std.specs.Prelude.{◌≡◌, ◌<◌, ◌≢◌, ℕ, None, length};
ghost use Rattle.std.specs.Option.{option_map};
ghost use Rattle.bcv_store.specs.declared.store.Got.TheVariants as got;
ghost use Rattle.bcv_store.specs.Within.{IsGotWithin};
ghost use Rattle.bcv_upload.specs.Inside.{BlockGets, FetchAnswered};
ghost use Rattle.bcv_upload.specs.State.{IsTask, old_id};
ghost use Rattle.bcv_upload.specs.UploadWork.{FetchLeaves};

use crate::upload::Upload;
use bcv_base::{Id16, ObjName};
use bcv_publish::Work;
use bcv_store::{Got, Store};
use std::alloc::Global;

impl Upload {
    /// Gets the old bytes of the next block, which stay with the upload until the block is put.
    pub(crate) fn fetch<S: Store>(&mut self, alloc: Global, store: &mut S, id: Id16) -> Work
        requires more { length self.old.ids < length self.old.touched }
        requires none { self.old.fetched ≡ None }
        requires id { id ≡ old_id self.old }
        ensures leaves { FetchLeaves self.old result self.new }
        ensures gets { BlockGets S.told (S.shown store.old) (S.shown store.new)
            id self.old.base.block result self.new.fetched }
        ensures reached { S.reaches store.old store.new }
        ensures task { IsTask self.new }
    {
        let mut bytes = Vec::new(alloc);
        let block = self.base.block as usize;
        let got = store.get(alloc, &ObjName::Block(id), None, &mut bytes, block);
        match whole_block(got, bytes, block) {
            Ok(bytes) => {
                self.fetched = Some(bytes);
                Work::More
            }
            Err(work) => work,
        }
    }
}

// The bytes of a block that a get brought, or why there are none.
fn whole_block(got: Got, bytes: Vec<u8>, block: usize) -> Result<Vec<u8>, Work>
    requires { IsGotWithin None block bytes.items got }
    ensures { FetchAnswered got bytes.items block result }
{
    match got {
        Got::Found(_) if bytes.len() == block => Ok(bytes),
        Got::Found(_) => Err(Work::BadBlock {
            len: bytes.len() as u64,
        }),
        Got::Same => unreachable!(),
        Got::Missing => Err(Work::Gone),
        Got::TooLong(len) => Err(Work::BadBlock { len }),
        Got::Failed => Err(Work::StoreFault),
        Got::NoMemory => Err(Work::NoMemory),
    }
}
