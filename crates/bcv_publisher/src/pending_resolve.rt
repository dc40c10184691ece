//! The step of a resolve.
ghost use Rattle.std.specs.Prelude.{◌≡◌, true, false, is_some};
ghost use Rattle.bcv_clientlog.specs.LogParts.{is_shut};
ghost use Rattle.bcv_publisher.specs.ResolveStep.{EndsResolve, ResolveStep};

use crate::put_end::reply_by;
use bcv_base::{Id16, Seen};
use bcv_disk::Disk;
use bcv_ledger::Ledger;
use bcv_model::Reply;
use bcv_publish::{Resolved, resolve};
use bcv_store::Store;
use std::alloc::Global;

/// Looks up what became of the pending publication of this writer, and notes it: done as the version of the number that
/// `Resolved` answers, or void. It stays pending at every other answer. No task of the client may publish meanwhile.
pub fn resolve_step<D: Disk, S: Store>(
    alloc: Global,
    ledger: &mut Ledger<D>,
    store: &mut S,
    writer: Id16,
    seen: &Seen,
) -> Reply
    requires pending { is_some ledger.old.databases.kept.pending ≡ true }
    requires is_open { is_shut ledger.old.log ≡ false }
    ensures reached { S.reaches store.old store.new }
    ensures resolves { ResolveStep D.told D.shown S.told (S.shown store.old) (S.shown store.new)
        ledger.old ledger.new writer seen.now result }
{
    let Some(pending) = ledger.pending() else {
        unreachable!()
    };
    let id = pending.id;
    let _ = id.bytes();
    let answer = resolve(alloc, store, seen, &writer, &id);
    let reply = end_pending(alloc, ledger, id, answer);
    let _ = ledger.databases.kept();
    reply
}

// Notes what a resolve found of the pending publication of this id.
fn end_pending<D: Disk>(alloc: Global, ledger: &mut Ledger<D>, id: Id16, answer: Resolved) -> Reply
    requires pending { is_some ledger.old.databases.kept.pending ≡ true }
    requires is_open { is_shut ledger.old.log ≡ false }
    ensures { EndsResolve D.told D.shown ledger.old ledger.new id answer result }
{
    match answer {
        Resolved::At(number) => {
            reply_by(ledger.resolved(alloc, id, number), Reply::Resolved(number))
        }
        Resolved::Voided => reply_by(ledger.unmade(alloc, id), Reply::Voided),
        Resolved::BadManifest { at } => Reply::BadManifest { at },
        Resolved::StoreFault => Reply::StoreFault,
        Resolved::NoMemory => Reply::NoMemory,
    }
}
