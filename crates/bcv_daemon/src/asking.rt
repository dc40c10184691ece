//! Asks that may start a task.
ghost use Rattle.std.specs.Prelude.{◌≡◌};
ghost use Rattle.bcv_keeprule.specs.Retention.{IsKeepRule};
ghost use Rattle.bcv_client.specs.AskCalls.{AskInForm};
ghost use Rattle.bcv_client.specs.InForm.{IsClient};
ghost use Rattle.bcv_daemon.specs.Connections.{AskedOver};
ghost use Rattle.bcv_client.specs.RangeReads.{point};

use bcv_base::{Clock, Names, Outside};
use bcv_client::Client;
use bcv_disk::Disk;
use bcv_keeprule::KeepRule;
use bcv_model::{Ask, Reply};
use bcv_store::Store;
use std::alloc::Global;

// Asks the client, and makes one step where that started a task.
pub(crate) fn ask_to_end<D: Disk, S: Store, C: Clock, N: Names, F: Fn(u64, u64, u64) -> bool>(
    alloc: Global,
    client: &mut Client<D>,
    ask: Ask,
    outside: &mut Outside<S, C, N>,
    rule: &KeepRule<F>,
) -> Reply
    requires client { IsClient client.old }
    requires ask { AskInForm client.old.taken ask }
    requires rule { IsKeepRule (F.pre rule.now.rule) (F.post rule.now.rule) }
    ensures client { IsClient client.new }
    ensures asked { AskedOver D.told D.shown S.told
        (point client.old (S.shown outside.old.store) (N.shown outside.old.names)
        (C.shown outside.old.clock))
        (point client.new (S.shown outside.new.store) (N.shown outside.new.names)
        (C.shown outside.new.clock)) ask result }
{
    match client.call(alloc, ask, outside, rule) {
        Reply::Task { task, left: _ } => client.call(alloc, Ask::Step { task }, outside, rule),
        reply => reply,
    }
}
