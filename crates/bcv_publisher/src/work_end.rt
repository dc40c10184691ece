//! What the answer of a request before a put makes of its publication: void is noted where it ends while it is pending.
ghost use Rattle.std.specs.Prelude.{◌≡◌, ◌≢◌, false, Some};
ghost use Rattle.bcv_clientlog.specs.LogParts.{is_shut};
ghost use Rattle.bcv_clientstate.specs.CheckLaws.{fault_reply};
ghost use Rattle.bcv_publisher.specs.WorkEnds.{EndsBy, EndsWork, end_of};

use crate::put_end::reply_by;
use bcv_dbmap::EditFault;
use bcv_disk::Disk;
use bcv_ledger::Ledger;
use bcv_model::Reply;
use bcv_publish::Work;
use bcv_tasks::PublishTask;
use std::alloc::Global;

/// How a task ends by the answer of a request: it goes on; memory ran out, so nothing more is noted; or it ends by a reply.
#[derive(Drop)]
pub(crate) enum Ended {
    GoesOn,
    OutOfMemory,
    By(Reply),
}

/// Notes what becomes of the publication of a task whose request before its put came to this, and returns the step's reply.
/// The task goes on where `Working` is answered, and has ended at every other answer. Where it ends while its publication is
/// pending, void is noted first, and a fault of that note is answered in place of the task's. Where memory ran out in the
/// request nothing is noted, and the publication stays pending.
pub fn end_work<D: Disk>(
    alloc: Global,
    ledger: &mut Ledger<D>,
    task: &PublishTask,
    work: Work,
) -> Reply
    requires is_open { is_shut ledger.old.log ≡ false }
    ensures { EndsWork D.told D.shown ledger.old ledger.new task.now work result }
{
    match end_of(work) {
        Ended::GoesOn => Reply::Working(task.left()),
        Ended::OutOfMemory => Reply::NoMemory,
        Ended::By(reply) => end_by(alloc, ledger, task, reply),
    }
}

// Notes that a publication which ends by this reply was not made, where it is pending.
fn end_by<D: Disk>(alloc: Global, ledger: &mut Ledger<D>, task: &PublishTask, reply: Reply) -> Reply
    requires is_open { is_shut ledger.old.log ≡ false }
    ensures { EndsBy D.told D.shown ledger.old ledger.new task.now
        ledger.old.databases.kept.pending reply result }
{
    if ledger.pending().is_none() {
        return reply;
    }
    reply_by(ledger.unmade(alloc, task.id()), reply)
}

// How a task ends by the answer of its request.
fn end_of(work: Work) -> Ended
    ensures { result ≡ end_of work }
{
    match work {
        Work::More => Ended::GoesOn,
        Work::Nothing => Ended::By(Reply::Cleaned {
            deleted: 0,
            more: false,
        }),
        Work::Fault(fault) => Ended::By(fault_reply(fault)),
        Work::NoContainer => Ended::By(Reply::NoContainer),
        Work::BadManifest { at } => Ended::By(Reply::BadManifest { at }),
        Work::Gone => Ended::By(Reply::Gone),
        Work::BadBlock { len } => Ended::By(Reply::BadBlock { len }),
        Work::NameTaken => Ended::By(Reply::NameTaken),
        Work::StoreFault => Ended::By(Reply::StoreFault),
        Work::NamesFault => Ended::By(Reply::NamesFault),
        Work::ClockFault => Ended::By(Reply::ClockFault),
        Work::NoMemory => Ended::OutOfMemory,
    }
}

// What answers an edit that cannot be published.
fn fault_reply(fault: EditFault) -> Reply
    ensures { result ≡ fault_reply fault }
{
    match fault {
        EditFault::VersionsFull => Reply::VersionsFull,
        EditFault::NoDatabase => Reply::NoDatabase,
        EditFault::Exists => Reply::Exists,
        EditFault::Conflict { mine, theirs } => Reply::Conflict { mine, theirs },
        EditFault::PageTooLarge => Reply::PageTooLarge,
        EditFault::TooLarge => Reply::TooLarge,
        EditFault::TooManyDatabases => Reply::TooManyDatabases,
        EditFault::WritersFull => Reply::WritersFull,
        EditFault::DeleteListFull => Reply::DeleteListFull,
        EditFault::ManifestTooLong => Reply::ManifestTooLong,
    }
}
