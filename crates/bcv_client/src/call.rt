//! What a client is asked, one call for every ask.
ghost use Rattle.std.specs.Prelude.{◌≡◌, false, unwrap_or};
ghost use Rattle.std.specs.Option.{option_map};
ghost use Rattle.bcv_keeprule.specs.Retention.{IsKeepRule};
ghost use Rattle.bcv_machine.specs.Reading.{Looks};
ghost use Rattle.bcv_client.specs.AnyMoment.{CallMoments, NotesOfAsk};
ghost use Rattle.bcv_client.specs.AskCalls.{AskInForm, AsksOver, RepliesLook, SameWith};
ghost use Rattle.bcv_client.specs.Caching.{Caches};
ghost use Rattle.bcv_client.specs.CallFaults.{CallCauses, CountsOn, DiskFailsAs, is_io_fault};
ghost use Rattle.bcv_client.specs.Descent.{Descends};
ghost use Rattle.bcv_client.specs.Events.{Locally};
ghost use Rattle.bcv_client.specs.Falls.{Falls};
ghost use Rattle.bcv_client.specs.InForm.{InForm, IsClient};

use crate::client::Client;
use bcv_base::{Clock, Names, Outside, Seq};
use bcv_dbcopy::CopyPlan;
use bcv_disk::Disk;
use bcv_keeprule::KeepRule;
use bcv_model::{Ask, Reply};
use bcv_snapshot::Look;
use bcv_store::Store;
use std::alloc::Global;

impl<D: Disk> Client<D> {
    /// Takes an ask and returns its reply, with at most one request to the store. An ask that starts a task answers its number
    /// and how many requests it has left, and each of them is made by a `Step` of that task.
    #[tactic(none)]
    pub fn call<S: Store, C: Clock, N: Names, F: Fn(u64, u64, u64) -> bool>(
        &mut self,
        alloc: Global,
        ask: Ask,
        outside: &mut Outside<S, C, N>,
        rule: &KeepRule<F>,
    ) -> Reply
        requires client { IsClient self.old }
        requires ask { AskInForm self.old.taken ask }
        requires rule { IsKeepRule (F.pre rule.now.rule) (F.post rule.now.rule) }
        ensures client { IsClient self.new }
        ensures same { SameWith ask self.old self.new }
        ensures disk { DiskFailsAs D.told D.shown self.old self.new result }
        ensures reached { S.reaches outside.old.store outside.new.store }
        ensures counted { CountsOn (S.shown outside.old.store) (S.shown outside.new.store)
            (N.shown outside.old.names) (N.shown outside.new.names) (C.shown outside.old.clock)
            (C.shown outside.new.clock) }
        ensures causes { CallCauses (S.shown outside.old.store) (S.shown outside.new.store)
            (N.shown outside.old.names) (N.shown outside.new.names) (C.shown outside.old.clock)
            (C.shown outside.new.clock) result }
        ensures asks { AsksOver D.told D.shown S.told (S.shown outside.old.store)
            (S.shown outside.new.store) (N.shown outside.old.names) (N.shown outside.new.names)
            (C.shown outside.old.clock) (C.shown outside.new.clock) self.old self.new ask result }
        ensures falls { Falls D.told D.shown S.told (S.shown outside.old.store)
            (S.shown outside.new.store) (N.shown outside.old.names) (N.shown outside.new.names)
            self.old self.new }
        ensures any_moment { CallMoments (NotesOfAsk self.old.ledger.databases ask) D.told D.shown
            S.told (S.shown outside.old.store) (S.shown outside.new.store) self.old self.new }
        ensures descends { Descends ask self.old self.new result }
        ensures caches { Caches S.told (S.shown outside.old.store) (S.shown outside.new.store) ask
            self.old self.new result }
    {
        match ask {
            Ask::Begin(db) => self.begin(alloc, &db),
            Ask::Read { txn, page } => self.read(alloc, txn, page),
            Ask::Hold { txn, page } => self.hold(txn, page),
            Ask::Look { txn, page } => self.look_copied(alloc, txn, page),
            Ask::Free { txn, page } => self.free(txn, page),
            Ask::End { txn } => self.end(txn),
            Ask::Commit { db, commit } => self.commit(alloc, db, commit),
            Ask::Revert(db) => self.revert(alloc, db),
            Ask::List => self.list(alloc),
            Ask::Create { block, retention } => {
                self.start_create(&mut outside.names, block, retention)
            }
            Ask::NewDb {
                db: name,
                page_size,
                pages,
            } => {
                let plan = CopyPlan::New {
                    name,
                    page_size,
                    pages,
                };
                self.start_copy(alloc, &mut outside.names, plan)
            }
            Ask::Upload(db) => self.start_upload(alloc, &mut outside.names, db),
            Ask::Copy { from, to } => {
                self.start_copy(alloc, &mut outside.names, CopyPlan::Copy { from, to })
            }
            Ask::Remove(name) => {
                self.start_copy(alloc, &mut outside.names, CopyPlan::Remove { name })
            }
            Ask::Poll => self.start_poll(),
            Ask::Cleanup => self.start_cleanup(alloc, &mut outside.names),
            Ask::Resolve => self.start_resolve(),
            Ask::Step { task } => self.step(alloc, task, outside, rule),
        }
    }

    // Copies a page that is at hand into a reply.
    #[tactic(none)]
    fn look_copied(&self, alloc: Global, txn: u8, page: u32) -> Reply
        requires form { InForm self.now }
        ensures machine { Locally D.shown (λ s u t. Looks s u txn page result t) self.now self.now
            result }
        ensures inside { is_io_fault result ≡ false }
    {
        let page_size = page_size_of(self.opened(txn));
        look_reply(alloc, self.look(txn, page), page_size)
    }
}

// The size of a transaction's pages, by what is told of it.
fn page_size_of(opened: Option<(u64, u32, u32)>) -> u32
    ensures { result ≡ unwrap_or (option_map (λ x. x.1) opened) 0 }
{
    match opened {
        Some((_, page_size, _)) => page_size,
        None => 0,
    }
}

// The reply to a look at a page of this size.
fn look_reply(alloc: Global, look: Look<'_>, page_size: u32) -> Reply
    ensures { RepliesLook page_size look.entry result }
{
    match look {
        Look::Page(bytes) => match bytes.to_vec(alloc) {
            Ok(copy) => Reply::Page(Seq::of(copy)),
            Err(_) => Reply::NoMemory,
        },
        Look::Zeros => match vec![in alloc; 0u8; page_size as usize] {
            Ok(zeros) => Reply::Page(Seq::of(zeros)),
            Err(_) => Reply::NoMemory,
        },
        Look::BadPage => Reply::BadPage,
        Look::NoTxn => Reply::NoTxn,
        Look::NotHeld => Reply::NotHeld,
    }
}
