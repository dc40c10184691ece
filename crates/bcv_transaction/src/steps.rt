//! The steps of tasks that read or hold a page.
ghost use Rattle.std.specs.Prelude.{◌≡◌, IfSome};
ghost use Rattle.bcv_machine.specs.State.{ToHold, ToRead};
ghost use Rattle.bcv_publish.specs.Request.{OverSoundLog};
ghost use Rattle.bcv_transaction.specs.FitLaws.{LeavesFit};
ghost use Rattle.bcv_transaction.specs.Open.{AreOpen, CanRead, txn_at};
ghost use Rattle.bcv_transaction.specs.StepCalls.{ComesAs, IsAgain, StepSays, Steps, Wants, kept_out};
ghost use Rattle.bcv_transaction.specs.StepSides.{StepSound};

use crate::answers::{Came, Stepped};
use crate::transactions::Transactions;
use bcv_base::Id16;
use bcv_pages::PageSet;
use bcv_snapshot::Fetched;
use bcv_store::Store;
use std::alloc::Global;

impl Transactions {
    /// Reads a page, whose block of `block` bytes is brought into the cache by one get where it is not there. A block that
    /// came in meanwhile is found without a request.
    pub fn read_step<S: Store>(
        &mut self,
        alloc: Global,
        store: &mut S,
        number: u8,
        page: u32,
        pages: &PageSet,
        block: u32,
    ) -> Stepped
        requires view { IfSome (txn_at number self.old.txns) (CanRead pages.now) }
        requires block { IfSome self.old.cache (λ c. c.block ≡ block) }
        ensures steps { Steps ToRead pages.now S.told (S.shown store.old) (S.shown store.new)
            self.old number page result self.new }
        ensures are_open { AreOpen self.new }
        ensures says { StepSays S.told (S.shown store.old) (S.shown store.new) result }
        ensures sound { OverSoundLog S.told (S.shown store.old) (S.shown store.new)
            (λ mine. StepSound ToRead S.told mine (S.shown store.old) (S.shown store.new)
            pages.now self.old number page result self.new) }
        ensures fit { OverSoundLog S.told (S.shown store.old) (S.shown store.new)
            (λ mine. LeavesFit (S.shown store.old) (S.shown store.new) self.old self.new) }
        ensures reached { S.reaches store.old store.new }
    {
        let _ = self.is_full();
        let id = match wanted(self.read(alloc, number, page, pages)) {
            Ok(id) => id,
            Err(stepped) => return stepped,
        };
        match not_brought(self.fetch(alloc, store, id, block)) {
            Some(stepped) => stepped,
            None => again(self.read(alloc, number, page, pages)),
        }
    }

    /// Holds the block of a page, of `block` bytes, which is brought into the cache by one get where it is not there. A block
    /// that came in meanwhile is found without a request.
    pub fn hold_step<S: Store>(
        &mut self,
        alloc: Global,
        store: &mut S,
        number: u8,
        page: u32,
        pages: &PageSet,
        block: u32,
    ) -> Stepped
        requires view { IfSome (txn_at number self.old.txns) (CanRead pages.now) }
        requires block { IfSome self.old.cache (λ c. c.block ≡ block) }
        ensures steps { Steps ToHold pages.now S.told (S.shown store.old) (S.shown store.new)
            self.old number page result self.new }
        ensures are_open { AreOpen self.new }
        ensures says { StepSays S.told (S.shown store.old) (S.shown store.new) result }
        ensures sound { OverSoundLog S.told (S.shown store.old) (S.shown store.new)
            (λ mine. StepSound ToHold S.told mine (S.shown store.old) (S.shown store.new)
            pages.now self.old number page result self.new) }
        ensures fit { OverSoundLog S.told (S.shown store.old) (S.shown store.new)
            (λ mine. LeavesFit (S.shown store.old) (S.shown store.new) self.old self.new) }
        ensures reached { S.reaches store.old store.new }
    {
        let _ = self.is_full();
        let id = match wanted(self.hold(number, page, pages)) {
            Ok(id) => id,
            Err(stepped) => return stepped,
        };
        match not_brought(self.fetch(alloc, store, id, block)) {
            Some(stepped) => stepped,
            None => again(self.hold(number, page, pages)),
        }
    }
}

// The id of a block that has to be fetched, or what the step answers without it.
fn wanted(came: Came) -> Result<Id16, Stepped>
    ensures { Wants came result }
{
    match came {
        Came::Page(bytes) => Err(Stepped::Page(bytes)),
        Came::Held => Err(Stepped::Held),
        Came::Absent(id) => Ok(id),
        Came::CacheFull => Err(Stepped::CacheFull),
        Came::BadPage => Err(Stepped::BadPage),
        Came::NoTxn => Err(Stepped::NoTxn),
        Came::NoMemory => Err(Stepped::NoMemory),
    }
}

// What the step answers where a fetch did not bring the block in.
fn not_brought(fetched: Fetched) -> Option<Stepped>
    ensures { result ≡ kept_out fetched }
{
    match fetched {
        Fetched::In(_) => None,
        Fetched::CacheFull => Some(Stepped::CacheFull),
        Fetched::Gone => Some(Stepped::Gone),
        Fetched::BadBlock { len } => Some(Stepped::BadBlock { len }),
        Fetched::StoreFault => Some(Stepped::StoreFault),
        Fetched::NoMemory => Some(Stepped::NoMemory),
    }
}

// What the step answers where the block is in the cache.
fn again(came: Came) -> Stepped
    requires { IsAgain came }
    ensures { ComesAs came result }
{
    match came {
        Came::Page(bytes) => Stepped::Page(bytes),
        Came::Held => Stepped::Held,
        Came::NoMemory => Stepped::NoMemory,
        Came::Absent(_) => unreachable!(),
        Came::CacheFull => unreachable!(),
        Came::BadPage => unreachable!(),
        Came::NoTxn => unreachable!(),
    }
}
