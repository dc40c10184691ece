//! The step of a task that fetches a page of a transaction.
ghost use Rattle.std.specs.Prelude.{◌≡◌};
ghost use Rattle.bcv_client.specs.ClientForm.{FetchInForm};
ghost use Rattle.bcv_client.specs.Falls.{FallsJob};
ghost use Rattle.bcv_client.specs.FetchOver.{ClientFetches, FetchesStep, stepped_reply};
ghost use Rattle.bcv_client.specs.InForm.{InForm};
ghost use Rattle.bcv_client.specs.Steps.{EndsJob};
ghost use Rattle.bcv_client.specs.declared.job.Job.TheVariants.{Fetch};

use crate::client::Client;
use crate::job::Access;
use crate::page_reads::pages_of;
use bcv_base::Seq;
use bcv_disk::Disk;
use bcv_model::Reply;
use bcv_store::Store;
use bcv_transaction::Stepped;
use std::alloc::Global;

impl<D: Disk> Client<D> {
    /// Makes the step of a task that reads a page of an open transaction, or holds its block, and that was taken out.
    #[tactic(none)]
    pub(crate) fn fetch<S: Store>(
        &mut self,
        alloc: Global,
        store: &mut S,
        access: Access,
        txn: u8,
        page: u32,
    ) -> Reply
        requires form { InForm self.old }
        requires page { FetchInForm self.old.txns txn page }
        ensures form { InForm self.new }
        ensures reached { S.reaches store.old store.new }
        ensures fetches { ClientFetches S.told (S.shown store.old) (S.shown store.new)
            self.old self.new access txn page result }
        ensures ends { EndsJob D.told D.shown S.told (S.shown store.old) (S.shown store.new)
            self.old self.new (Fetch access txn page) result }
        ensures falls { FallsJob D.told D.shown S.told (S.shown store.old) (S.shown store.new)
            self.old self.new }
    {
        stepped_reply(self.fetch_page(alloc, store, access, txn, page))
    }

    // Reads the page, or holds its block.
    #[tactic(none)]
    fn fetch_page<S: Store>(
        &mut self,
        alloc: Global,
        store: &mut S,
        access: Access,
        txn: u8,
        page: u32,
    ) -> Stepped
        requires form { InForm self.old }
        requires page { FetchInForm self.old.txns txn page }
        ensures form { InForm self.new }
        ensures reached { S.reaches store.old store.new }
        ensures fetches { FetchesStep S.told (S.shown store.old) (S.shown store.new)
            self.old self.new access txn page result }
        ensures ends { EndsJob D.told D.shown S.told (S.shown store.old) (S.shown store.new)
            self.old self.new (Fetch access txn page) (stepped_reply result) }
        ensures falls { FallsJob D.told D.shown S.told (S.shown store.old) (S.shown store.new)
            self.old self.new }
    {
        let _ = self.txns.is_full();
        let Some(base) = self.txns.opened(txn) else {
            unreachable!()
        };
        let block = base.block;
        let ledger = &self.ledger;
        let Some(pages) = pages_of(&ledger.databases, &self.txns, txn) else {
            unreachable!()
        };
        match access {
            Access::ToRead => self.txns.read_step(alloc, store, txn, page, pages, block),
            Access::ToHold => self.txns.hold_step(alloc, store, txn, page, pages, block),
        }
    }
}

// The reply of a step that reads or holds a page.
fn stepped_reply(stepped: Stepped) -> Reply
    ensures { result ≡ stepped_reply stepped }
{
    match stepped {
        Stepped::Page(bytes) => Reply::Page(Seq::of(bytes)),
        Stepped::Held => Reply::Held,
        Stepped::CacheFull => Reply::CacheFull,
        Stepped::BadPage => Reply::BadPage,
        Stepped::NoTxn => Reply::NoTxn,
        Stepped::Gone => Reply::Gone,
        Stepped::BadBlock { len } => Reply::BadBlock { len },
        Stepped::StoreFault => Reply::StoreFault,
        Stepped::NoMemory => Reply::NoMemory,
    }
}
