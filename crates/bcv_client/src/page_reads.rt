//! Pages of transactions: what comes without a request, and the tasks that fetch the rest.
ghost use Rattle.std.specs.Prelude.{◌≡◌, ℕ, List};
ghost use Rattle.std.specs.List.{AllByRecursion};
ghost use Rattle.std.specs.Option.{option_map};
ghost use Rattle.bcv_base.specs.declared.log.Entry.{Entry};
ghost use Rattle.bcv_clientstate.specs.SeenClient.{Free};
ghost use Rattle.bcv_base.specs.Views.{view_size};
ghost use Rattle.bcv_machine.specs.Reading.{Fetches, Frees};
ghost use Rattle.bcv_pages.specs.Held.{CanView};
ghost use Rattle.bcv_transaction.specs.Open.{base_view};
ghost use Rattle.bcv_machine.specs.State.{ToHold, ToRead};
ghost use Rattle.bcv_transaction.specs.MachineCalls.{LooksAs};
ghost use Rattle.bcv_transaction.specs.StepCalls.{PageCalls};
ghost use Rattle.bcv_client.specs.ClientForm.{FetchInForm, ReadsSet};
ghost use Rattle.bcv_client.specs.InForm.{InForm};
ghost use Rattle.bcv_client.specs.Events.{Locally, StandsOver, client_side, client_up};
ghost use Rattle.bcv_client.specs.PagesFound.{ComesOver, PagesOf, WantsFetch};
ghost use Rattle.bcv_client.specs.TaskStarts.{OnlyTasks};
ghost use Rattle.bcv_client.specs.Transactions.{AnswersPage, AsksPage, FreesPage, OnlyReading, OnlyTxns, came_reply, freed_reply, opened_as, pages_for};

use crate::client::Client;
use crate::job::{Access, Job};
use bcv_base::{Seq, TxnBase};
use bcv_databases::Databases;
use bcv_disk::Disk;
use bcv_model::Reply;
use bcv_pages::PageSet;
use bcv_snapshot::Look;
use bcv_transaction::{Came, Freed, Transactions};
use std::alloc::Global;

impl<D: Disk> Client<D> {
    ghost use Rattle.bcv_client.specs.declared.job.Job.TheVariants as job;

    /// Reads a page of a transaction, which is answered at once where it is local, zeros, or in a cached block. Else a task is
    /// started that fetches its block, or it answers `TooMany` where 16 run.
    pub fn read(&mut self, alloc: Global, txn: u8, page: u32) -> Reply
        requires form { InForm self.old }
        ensures form { InForm self.new }
        ensures machine { Locally D.shown (λ s u t. Fetches ToRead s u txn page result t)
            self.old self.new result }
        ensures only { OnlyReading self.old self.new }
        ensures asks { AsksPage ToRead self.old self.new txn page
            (job.Fetch Access.ToRead txn page) result }
    {
        let came = self.read_now(alloc, txn, page);
        self.answer(came, Access::ToRead, txn, page)
    }

    /// Holds the block of a page of a transaction in the cache, until it is freed or the transaction ends. Where it is not in the
    /// cache, a task is started that fetches it, or it answers `TooMany` where 16 run. Of a local page nothing is held.
    pub fn hold(&mut self, txn: u8, page: u32) -> Reply
        requires form { InForm self.old }
        ensures form { InForm self.new }
        ensures machine { Locally D.shown (λ s u t. Fetches ToHold s u txn page result t)
            self.old self.new result }
        ensures only { OnlyReading self.old self.new }
        ensures asks { AsksPage ToHold self.old self.new txn page
            (job.Fetch Access.ToHold txn page) result }
    {
        let came = self.hold_now(txn, page);
        self.answer(came, Access::ToHold, txn, page)
    }

    /// The bytes of a page of a transaction that is local or in a block that it holds. Nothing is copied.
    pub fn look(&self, txn: u8, page: u32) -> Look<'_>
        requires form { InForm self.now }
        ensures { (moment : ℕ) (log : List Entry) (f : Free) → StandsOver D.shown self.now log f
            → LooksAs (client_side moment log self.now f) (client_up log self.now) txn page
            result (client_side moment log self.now f) }
    {
        let ledger = &self.ledger;
        match pages_of(&ledger.databases, &self.txns, txn) {
            Some(pages) => self.txns.look(txn, page, pages),
            None => Look::NoTxn,
        }
    }

    /// Lets the block of a page of a transaction go.
    pub fn free(&mut self, txn: u8, page: u32) -> Reply
        requires form { InForm self.old }
        ensures form { InForm self.new }
        ensures machine { Locally D.shown (λ s u t. Frees s u txn page result t)
            self.old self.new result }
        ensures only { OnlyTxns self.old self.new }
        ensures frees { FreesPage self.old.txns self.new.txns txn page result }
    {
        let _ = self.txns.is_full();
        freed_reply(self.txns.free(txn, page))
    }

    /// Of an open transaction the number of the version that it reads, the size of its pages in bytes, and how many pages it
    /// has; or `None` where it is not open.
    pub fn opened(&self, txn: u8) -> Option<(u64, u32, u32)>
        requires form { InForm self.now }
        ensures { result ≡ opened_as txn self.now.txns }
    {
        let ledger = &self.ledger;
        match pages_of(&ledger.databases, &self.txns, txn) {
            Some(pages) => match self.txns.opened(txn) {
                Some(base) => Some(numbers_of(base, pages)),
                None => None,
            },
            None => None,
        }
    }

    // Reads a page without a request.
    fn read_now(&mut self, alloc: Global, txn: u8, page: u32) -> Came
        requires form { InForm self.old }
        ensures form { InForm self.new }
        ensures only { OnlyTxns self.old self.new }
        ensures calls { PageCalls ToRead (pages_for self.old.ledger.databases txn self.old.txns)
            self.old.txns txn page result self.new.txns }
        ensures fetch { WantsFetch result (FetchInForm self.new.txns txn page) }
        ensures comes { ComesOver ToRead D.shown self.old self.new txn page result }
    {
        let _ = self.txns.is_full();
        let ledger = &self.ledger;
        match pages_of(&ledger.databases, &self.txns, txn) {
            Some(pages) => self.txns.read(alloc, txn, page, pages),
            None => Came::NoTxn,
        }
    }

    // Holds the block of a page without a request.
    fn hold_now(&mut self, txn: u8, page: u32) -> Came
        requires form { InForm self.old }
        ensures form { InForm self.new }
        ensures only { OnlyTxns self.old self.new }
        ensures calls { PageCalls ToHold (pages_for self.old.ledger.databases txn self.old.txns)
            self.old.txns txn page result self.new.txns }
        ensures fetch { WantsFetch result (FetchInForm self.new.txns txn page) }
        ensures comes { ComesOver ToHold D.shown self.old self.new txn page result }
    {
        let _ = self.txns.is_full();
        let ledger = &self.ledger;
        match pages_of(&ledger.databases, &self.txns, txn) {
            Some(pages) => self.txns.hold(txn, page, pages),
            None => Came::NoTxn,
        }
    }

    // Answers what came, or starts the task that fetches the page.
    fn answer(&mut self, came: Came, access: Access, txn: u8, page: u32) -> Reply
        requires form { InForm self.old }
        requires fetch { WantsFetch came (FetchInForm self.old.txns txn page) }
        ensures form { InForm self.new }
        ensures only { OnlyTasks self.old self.new }
        ensures answers { AnswersPage (came_reply came) self.old.tasks.items self.new.tasks.items
            (job.Fetch access txn page) result }
    {
        match came {
            Came::Page(bytes) => Reply::Page(Seq::of(bytes)),
            Came::Held => Reply::Held,
            Came::Absent(_) => self.start(Job::Fetch { access, txn, page }, 1),
            Came::CacheFull => Reply::CacheFull,
            Came::BadPage => Reply::BadPage,
            Came::NoTxn => Reply::NoTxn,
            Came::NoMemory => Reply::NoMemory,
        }
    }
}

// The set of pages of a transaction, or `None` where it is not open.
pub(crate) fn pages_of<'a>(
    databases: &'a Databases,
    txns: &Transactions,
    txn: u8,
) -> Option<&'a PageSet>
    requires { AllByRecursion (ReadsSet databases.now.sets) txns.now.txns }
    ensures { PagesOf databases.now txns.now txn (option_map (λ h. h.now) result) }
{
    match txns.set_of(txn) {
        Some(set) => databases.pages(set),
        None => None,
    }
}

// The number of a base's version, the size of its pages, and how many pages the view has.
fn numbers_of(base: &TxnBase, pages: &PageSet) -> (u64, u32, u32)
    requires { CanView pages.now base.now.from base.now.to }
    ensures { result ≡ (
      base.now.number,
      base.now.entry.page_size,
      view_size base.now.entry.pages (base_view pages.now base.now),
    ) }
{
    let size = pages.size(base.entry.pages, base.from, base.to);
    (base.number, base.entry.page_size, size)
}

// The reply of a free.
fn freed_reply(freed: Freed) -> Reply
    ensures { result ≡ freed_reply freed }
{
    match freed {
        Freed::Fine => Reply::Fine,
        Freed::NoTxn => Reply::NoTxn,
        Freed::BadPage => Reply::BadPage,
        Freed::NotHeld => Reply::NotHeld,
    }
}
