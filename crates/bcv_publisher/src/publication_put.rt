//! The step of a publication at its put.
ghost use Rattle.std.specs.Prelude.{◌≡◌, true, false, IfSome};
ghost use Rattle.bcv_clientlog.specs.LogParts.{is_shut};
ghost use Rattle.bcv_databases.specs.Sound.{CanUpload};
ghost use Rattle.bcv_ledger.specs.Begins.{WaitsFor};
ghost use Rattle.bcv_publisher.specs.PutNotes.{PutNotes};
ghost use Rattle.bcv_publisher.specs.PutStep.{PutStep};
ghost use Rattle.bcv_tasks.specs.State.{IsRunning, is_ready, pending_of, upload_of};

use crate::put_end::settle;
use bcv_base::Seen;
use bcv_disk::Disk;
use bcv_ledger::Ledger;
use bcv_model::Reply;
use bcv_store::Store;
use bcv_tasks::PublishTask;
use std::alloc::Global;

/// Makes the manifest's put of a task that is ready, with its notes: the intent where the publication is not pending yet, and
/// done or void after it. An upload takes so many commits of its database. The task goes on where `Working` is answered, and
/// has ended at every other answer. Where it is not known what became of the put, the publication stays pending. `seen` is
/// what the client has seen of the container: of a manifest that it publishes in another block size nothing is known.
pub fn put_step<D: Disk, S: Store>(
    alloc: Global,
    ledger: &mut Ledger<D>,
    store: &mut S,
    task: &mut PublishTask,
    taken: u64,
    seen: &Seen,
    moment: u64,
) -> Reply
    requires running { IsRunning task.old }
    requires ready { is_ready task.old ≡ true }
    requires waits { WaitsFor ledger.old.databases.kept.pending (pending_of taken task.old) }
    requires upload { IfSome (upload_of taken task.old)
        (CanUpload ledger.old.databases.kept.locals) }
    requires is_open { is_shut ledger.old.log ≡ false }
    ensures reached { S.reaches store.old store.new }
    ensures puts { PutStep D.told D.shown S.told (S.shown store.old) (S.shown store.new)
        ledger.old ledger.new seen.now taken task.old moment result task.new }
    ensures notes { PutNotes D.told D.shown S.told (S.shown store.old) (S.shown store.new)
        ledger.old ledger.new seen.now taken task.old result task.new }
{
    let Ok(pending) = task.pending(alloc, taken) else {
        return Reply::NoMemory;
    };
    if let Some(fault) = ledger.begin(alloc, pending) {
        return fault;
    }
    let answer = task.put(alloc, store, moment);
    let reply = settle(alloc, ledger, task, seen, answer);
    let _ = ledger.databases.kept();
    reply
}
