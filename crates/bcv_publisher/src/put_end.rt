//! What a put's answer makes of its publication: it is noted what became of it, where that is known.
ghost use Rattle.std.specs.Prelude.{◌≡◌, true, false, is_some};
ghost use Rattle.bcv_base.specs.ManifestRules.{Ascends, db_name};
ghost use Rattle.bcv_clientlog.specs.LogParts.{is_shut};
ghost use Rattle.bcv_publication.specs.TaskSides.{done_answer};
ghost use Rattle.bcv_publish.specs.ManifestRead.{is_other};
ghost use Rattle.bcv_publisher.specs.Settles.{HasMade, NotesDone, Publishes, Settles, reply_by};

use bcv_base::{Id16, Manifest, Seen};
use bcv_disk::Disk;
use bcv_ledger::Ledger;
use bcv_model::Reply;
use bcv_tasks::{PublishTask, PutAnswer};
use std::alloc::Global;

// Notes what became of the pending publication of a task whose put was answered so.
pub(crate) fn settle<D: Disk>(
    alloc: Global,
    ledger: &mut Ledger<D>,
    task: &PublishTask,
    seen: &Seen,
    answer: PutAnswer,
) -> Reply
    requires waits { is_some ledger.old.databases.kept.pending ≡ true }
    requires is_open { is_shut ledger.old.log ≡ false }
    requires made { HasMade answer task.now }
    ensures { Settles D.told D.shown ledger.old ledger.new task.now seen.now answer result }
{
    match answer {
        PutAnswer::Published(number) => publish(alloc, ledger, task, seen, number),
        PutAnswer::Refused => Reply::Working(2),
        PutAnswer::Contended(numbers) => {
            reply_by(ledger.unmade(alloc, task.id()), Reply::Contended(numbers))
        }
        PutAnswer::Exists => reply_by(ledger.unmade(alloc, task.id()), Reply::Exists),
        PutAnswer::Unknown => Reply::Unknown(task.id()),
        PutAnswer::NoMemory => Reply::NoMemory,
    }
}

// Notes that the publication was made as the version of a number.
fn publish<D: Disk>(
    alloc: Global,
    ledger: &mut Ledger<D>,
    task: &PublishTask,
    seen: &Seen,
    number: u64,
) -> Reply
    requires waits { is_some ledger.old.databases.kept.pending ≡ true }
    requires is_open { is_shut ledger.old.log ≡ false }
    requires made { HasMade (PutAnswer.Published number) task.now }
    ensures { Publishes D.told D.shown ledger.old ledger.new task.now seen.now number result }
{
    let Some(latest) = task.latest() else {
        unreachable!()
    };
    let fault = note_done(alloc, ledger, task.id(), number, seen, &latest.manifest);
    reply_by(fault, done_answer(task, number))
}

// Notes that the pending publication of this id was made as the version of a number, with this manifest. Its databases are
// known then, unless it has another block size than was seen.
fn note_done<D: Disk>(
    alloc: Global,
    ledger: &mut Ledger<D>,
    id: Id16,
    number: u64,
    seen: &Seen,
    manifest: &Manifest,
) -> Option<Reply>
    requires waits { is_some ledger.old.databases.kept.pending ≡ true }
    requires is_open { is_shut ledger.old.log ≡ false }
    requires order { Ascends db_name manifest.now.dbs }
    ensures { NotesDone D.told D.shown ledger.old ledger.new id number seen.now
        manifest.now result }
{
    if is_other(seen.block, manifest.block) {
        return ledger.resolved(alloc, id, number);
    }
    ledger.made(alloc, id, number, manifest)
}

// Whether a block size is another one than was seen, where one was.
fn is_other(seen: Option<u32>, block: u32) -> bool
    ensures { result ≡ is_other seen block }
{
    match seen {
        Some(known) => known != block,
        None => false,
    }
}

// What answers a publication that was made as the version of a number.
fn done_answer(task: &PublishTask, number: u64) -> Reply
    ensures { result ≡ done_answer task.now number }
{
    match task {
        PublishTask::Cleanup(_, cleanup) => {
            let (deleted, more) = cleanup.found();
            Reply::Cleaned { deleted, more }
        }
        _ => Reply::Done(number),
    }
}

// The fault, or else this reply.
pub(crate) fn reply_by(fault: Option<Reply>, reply: Reply) -> Reply
    ensures { result ≡ reply_by fault reply }
{
    match fault {
        Some(fault) => fault,
        None => reply,
    }
}
