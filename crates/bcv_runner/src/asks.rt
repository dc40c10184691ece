//! The asks of a client, and the tasks that they start.
ghost use Rattle.std.specs.Prelude.{◌≡◌, ℕ, Option, List};
ghost use Rattle.bcv_client.specs.AskCalls.{AskInForm, taken_with};
ghost use Rattle.bcv_client.specs.Descent.{Descends};
ghost use Rattle.bcv_client.specs.InForm.{IsClient};
ghost use Rattle.bcv_client.specs.RangeAsks.{exchange};
ghost use Rattle.bcv_client.specs.Talk.{Exchange, Exchanged};
ghost use Rattle.bcv_client.specs.TaskCalls.{is_working};
ghost use Rattle.bcv_keeprule.specs.Retention.{IsKeepRule};
ghost use Rattle.bcv_runner.specs.CommandAsks.{StepsToEnd, TaskAsks, around, point_of, task_of};
ghost use Rattle.bcv_runner.specs.CommandTalks.{MakesAsks};

use bcv_base::{Clock, Names, Outside};
use bcv_client::Client;
use bcv_disk::Disk;
use bcv_keeprule::KeepRule;
use bcv_model::{Ask, Reply};
use bcv_store::Store;
use std::alloc::Global;

// Asks a client.
pub fn ask_client<D: Disk, S: Store, C: Clock, N: Names, F: Fn(u64, u64, u64) -> bool>(
    alloc: Global,
    client: &mut Client<D>,
    ask: Ask,
    outside: &mut Outside<S, C, N>,
    rule: &KeepRule<F>,
) -> Reply
    requires client { IsClient client.old }
    requires ask { AskInForm client.old.taken ask }
    requires rule { IsKeepRule (F.pre rule.now.rule) (F.post rule.now.rule) }
    ensures client { IsClient client.new }
    ensures taken { client.new.taken ≡ taken_with ask client.old.taken }
    ensures exchanged { Exchanged D.told D.shown S.told
        (point_of client.old (around S.shown N.shown C.shown outside.old)) (exchange ask result)
        (point_of client.new (around S.shown N.shown C.shown outside.new)) }
    ensures descends { Descends ask client.old client.new result }
{
    client.call(alloc, ask, outside, rule)
}

// Makes an ask, and where it starts a task the steps of that up to its end.
pub fn run_task<D: Disk, S: Store, C: Clock, N: Names, F: Fn(u64, u64, u64) -> bool>(
    alloc: Global,
    client: &mut Client<D>,
    ask: Ask,
    outside: &mut Outside<S, C, N>,
    rule: &KeepRule<F>,
) -> Reply
    requires client { IsClient client.old }
    requires ask { AskInForm client.old.taken ask }
    requires rule { IsKeepRule (F.pre rule.now.rule) (F.post rule.now.rule) }
    ensures client { IsClient client.new }
    ensures taken { client.new.taken ≡ taken_with ask client.old.taken }
    ensures asks { MakesAsks D.told D.shown S.told (λ es. TaskAsks ask es result)
        (point_of client.old (around S.shown N.shown C.shown outside.old))
        (point_of client.new (around S.shown N.shown C.shown outside.new)) }
{
    let reply = ask_client(alloc, client, ask, outside, rule);
    match task_of(&reply) {
        Some(task) => finish(alloc, client, task, outside, rule),
        None => reply,
    }
}

// The number of the task that has started.
fn task_of(reply: &Reply) -> Option<u8>
    ensures { result ≡ task_of reply.now }
{
    match reply {
        Reply::Task { task, .. } => Some(*task),
        _ => None,
    }
}

// Steps a task until it ends. While it goes on it has fewer steps to come after each.
fn finish<D: Disk, S: Store, C: Clock, N: Names, F: Fn(u64, u64, u64) -> bool>(
    alloc: Global,
    client: &mut Client<D>,
    task: u8,
    outside: &mut Outside<S, C, N>,
    rule: &KeepRule<F>,
) -> Reply
    requires client { IsClient client.old }
    requires rule { IsKeepRule (F.pre rule.now.rule) (F.post rule.now.rule) }
    ensures client { IsClient client.new }
    ensures taken { client.new.taken ≡ client.old.taken }
    ensures asks { MakesAsks D.told D.shown S.told (λ es. StepsToEnd task es result)
        (point_of client.old (around S.shown N.shown C.shown outside.old))
        (point_of client.new (around S.shown N.shown C.shown outside.new)) }
{
    'steps: loop {
        let reply = ask_client(alloc, client, Ask::Step { task }, outside, rule);
        if !is_working(&reply) {
            return reply;
        }
    }
}

// Whether the task goes on.
fn is_working(reply: &Reply) -> bool
    ensures { result ≡ is_working reply.now }
{
    matches!(reply, Reply::Working(_))
}
