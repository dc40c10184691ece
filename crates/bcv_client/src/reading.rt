//! Transactions: how they begin and end.
ghost use Rattle.std.specs.Prelude.{◌≡◌, IfOk, None, false, length, nat_le};
ghost use Rattle.std.specs.List.{list_any};
ghost use Rattle.bcv_databases.specs.Catalog.{found_at, shown_view};
ghost use Rattle.bcv_machine.specs.Reading.{Begins as BeginsMachine, Ends};
ghost use Rattle.bcv_transaction.specs.Open.{set_in};
ghost use Rattle.bcv_transaction.specs.OpenCalls.{Begins};
ghost use Rattle.bcv_client.specs.ClientParts.{sets_in};
ghost use Rattle.bcv_client.specs.InForm.{InForm};
ghost use Rattle.bcv_client.specs.Events.{Locally};
ghost use Rattle.bcv_client.specs.Transactions.{EndsTxn, KeepsLedger, OnlyTxns, is_fetch_for, is_upload, is_upload_of, needed_in, uploads_of, without_fetches};
ghost use Rattle.bcv_client.specs.TxnBegins.{BeginsBase, BeginsTxn, BegunOver, HasCommits, HasNoCommits, OnlyBegins, base_over, begun_reply};

use crate::client::Client;
use crate::job::Job;
use bcv_base::{DbEntry, DbName, Seq, TxnBase};
use bcv_databases::DatabaseView;
use bcv_disk::Disk;
use bcv_model::Reply;
use bcv_slots::Slot;
use bcv_tasks::PublishTask;
use bcv_transaction::{Begun, Transactions};
use std::alloc::{AllocError, Global};

impl<D: Disk> Client<D> {
    /// Begins a transaction over a known database, of which it reads the base and the commits as they stand now. It answers
    /// `Txn` with the least free number from 1, `NoDatabase` where the database is not known, or `TooMany` where 64 are open.
    pub fn begin(&mut self, alloc: Global, db: &DbName) -> Reply
        requires form { InForm self.old }
        ensures form { InForm self.new }
        ensures machine { Locally D.shown (λ s u t. BeginsMachine s u db.now result t)
            self.old self.new result }
        ensures only { OnlyBegins self.old self.new }
        ensures begins { BeginsTxn self.old self.new (found_at self.old.ledger.databases db.now)
            result }
    {
        let full = self.txns.is_full();
        let Some(view) = self.ledger.find(db) else {
            return Reply::NoDatabase;
        };
        if full {
            return Reply::TooMany;
        }
        let Ok(base) = view_base(alloc, &view) else {
            return Reply::NoMemory;
        };
        match view.commits {
            Some(at) => begun_reply(self.begin_over(alloc, base, at.set)),
            None => self.begin_alone(alloc, base),
        }
    }

    // Begins a transaction over a database without commits, in a set of its own.
    fn begin_alone(&mut self, alloc: Global, base: TxnBase) -> Reply
        requires form { InForm self.old }
        requires few { nat_le 64 (length self.old.txns.txns) ≡ false }
        requires alone { HasNoCommits self.old.ledger.databases base }
        ensures form { InForm self.new }
        ensures machine { Locally D.shown (λ s u t. BeginsMachine s u base.entry.name result t)
            self.old self.new result }
        ensures only { OnlyBegins self.old self.new }
        ensures begins { BeginsBase self.old self.new base None result }
    {
        let _ = self.ledger.databases.kept();
        let Ok(set) = self.ledger.databases.open_set(alloc, base.entry.page_size) else {
            return Reply::NoMemory;
        };
        match self.begin_over(alloc, base, set) {
            Begun::Number(number) => Reply::Txn(number),
            Begun::TooMany => unreachable!(),
            Begun::NoMemory => {
                self.ledger.trim(set, None);
                Reply::NoMemory
            }
        }
    }

    // Begins a transaction over a base whose commits are in the set of a place.
    fn begin_over(&mut self, alloc: Global, base: TxnBase, set: usize) -> Begun
        requires form { InForm self.old }
        requires has { HasCommits self.old.ledger.databases base set }
        ensures form { InForm self.new }
        ensures only { OnlyTxns self.old self.new }
        ensures begins { Begins self.old.txns base set (sets_in self.old.ledger.databases set)
            result self.new.txns }
        ensures machine { BegunOver D.shown self.old self.new base.entry.name result }
    {
        let ledger = &self.ledger;
        let Some(pages) = ledger.databases.pages(set) else {
            unreachable!()
        };
        pages.commits_fit(base.from, base.to);
        self.txns.begin(alloc, base, set, pages)
    }

    /// Ends a transaction: its blocks are let go, and the tasks that fetch for it end.
    pub fn end(&mut self, txn: u8) -> Reply
        requires form { InForm self.old }
        ensures form { InForm self.new }
        ensures machine { Locally D.shown (λ s u t. Ends s u txn result t)
            self.old self.new result }
        ensures ledger { KeepsLedger self.old self.new }
        ensures ends { EndsTxn self.old self.new txn (set_in txn self.old.txns.txns) result }
    {
        let _ = self.txns.is_full();
        match self.txns.set_of(txn) {
            Some(set) => {
                let _ = self.txns.end(txn);
                drop_fetches(&mut self.tasks, txn);
                let oldest = needed(&self.txns, &self.tasks, set);
                self.ledger.trim(set, oldest);
                Reply::Fine
            }
            None => Reply::NoTxn,
        }
    }
}

/// What is read of a database: its base, and its commits as they stand.
pub(crate) fn view_base(alloc: Global, view: &DatabaseView<'_>) -> Result<TxnBase, AllocError>
    ensures { IfOk result (λ b. b ≡ base_over (shown_view view.now)) }
{
    let (from, to) = match view.commits {
        Some(at) => (at.from, at.to),
        None => (0, 0),
    };
    Ok(TxnBase {
        entry: copy_entry(alloc, view.entry)?,
        number: view.number,
        block: view.block,
        from,
        to,
    })
}

// The same entry once more.
fn copy_entry(alloc: Global, entry: &DbEntry) -> Result<DbEntry, AllocError>
    ensures { IfOk result (λ e. e ≡ entry.now) }
{
    Ok(DbEntry {
        name: entry.name,
        tag: entry.tag,
        page_size: entry.page_size,
        pages: entry.pages,
        blocks: Seq::of(Vec::from_slice(alloc, entry.blocks.items())?),
    })
}

// The reply to a begin.
fn begun_reply(begun: Begun) -> Reply
    ensures { result ≡ begun_reply begun }
{
    match begun {
        Begun::Number(number) => Reply::Txn(number),
        Begun::TooMany => Reply::TooMany,
        Begun::NoMemory => Reply::NoMemory,
    }
}

/// The least number after which the commits of a set are needed by a transaction or by an upload, or `None` where nobody uses
/// the set. All are needed while an upload runs over the set.
pub(crate) fn needed(txns: &Transactions, tasks: &[Slot<Job>], set: usize) -> Option<u64>
    ensures { result ≡ needed_in set txns.now tasks.now }
{
    if uploads(tasks, set) {
        return Some(0);
    }
    txns.oldest(set)
}

// Whether an upload runs over the set of a place.
fn uploads(tasks: &[Slot<Job>], set: usize) -> bool
    ensures { result ≡ uploads_of set tasks.now }
{
    tasks.iter().any(|slot| uploads_from(&slot.item, set))
}

// Whether a task uploads commits of the set of a place.
fn uploads_from(job: &Job, set: usize) -> bool
    ensures { result ≡ is_upload_of set job.now }
{
    match job {
        Job::Publish {
            set: at,
            taken: _,
            task,
        } => *at == set && is_upload(task),
        _ => false,
    }
}

// Whether a publishing task is an upload.
fn is_upload(task: &PublishTask) -> bool
    ensures { result ≡ is_upload task.now }
{
    match task {
        PublishTask::Upload(_, _) => true,
        _ => false,
    }
}

// Ends the tasks that fetch for a transaction.
fn drop_fetches(tasks: &mut Vec<Slot<Job>>, txn: u8)
    ensures { tasks.new.items ≡ without_fetches txn tasks.old.items }
{
    tasks.retain(|slot| !fetches_for(&slot.item, txn));
}

// Whether a task fetches for a transaction.
fn fetches_for(job: &Job, number: u8) -> bool
    ensures { result ≡ is_fetch_for number job.now }
{
    match job {
        Job::Fetch {
            access: _,
            txn,
            page: _,
        } => *txn == number,
        _ => false,
    }
}
