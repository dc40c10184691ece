//! A command from its input to its output.
ghost use Rattle.std.specs.Prelude.{◌≡◌, ◌≢◌, ℕ, false, true, List, MatchResult};
ghost use Rattle.std.specs.Io.KnownBytes.{Appends, Consumes, IsAtEnd};
ghost use Rattle.bcv_client.specs.InForm.{IsClient};
ghost use Rattle.bcv_keeprule.specs.Retention.{IsKeepRule};
ghost use Rattle.bcv_runner.specs.CommandAsks.{around, point_of};
ghost use Rattle.bcv_runner.specs.CommandRuns.{AfterInput, AsksThenDown, CommandRuns, OperationRuns};
ghost use Rattle.bcv_runner.specs.CommandTalks.{EndsTalk};
ghost use Rattle.bcv_runner.specs.Endings.{FaultCounted, StreamCauses, is_clients, is_store_fault, status_of};
ghost use Rattle.bcv_runner.specs.Operations.{OperationInForm, PreparedInForm, RunsOverClient};

use crate::asks::run_task;
use crate::ending::{Ending, ended, up_ending};
use crate::operation::{Operation, prepare};
use crate::output::write_ending;
use crate::publishing::{commit, list, publish};
use crate::reading::read;
use bcv_base::{Clock, Names, Outside, Sink, Source};
use bcv_client::{Client, Up};
use bcv_commands::{Command, Status};
use bcv_disk::Disk;
use bcv_keeprule::KeepRule;
use bcv_model::Ask;
use bcv_store::Store;
use bcv_talks::{talks_are_runs, talks_leave_fit};
use std::alloc::Global;

// How many blocks the client's cache holds.
const SLOTS: u16 = 64;

/// How a command ended, and the disk of its client.
#[derive(Drop)]
pub struct Ran<D: Disk> {
    pub status: Status,
    pub disk: D,
}

/// Runs a command over the client of a disk: its input is read, the client comes up, is asked, and goes down, and the output is
/// written. `replay` and `generate` play a script, and run over no client.
pub fn run_command<
    S: Store,
    D: Disk,
    C: Clock,
    N: Names,
    F: Fn(u64, u64, u64) -> bool,
    I: Source,
    O: Sink,
>(
    alloc: Global,
    command: &Command,
    disk: D,
    outside: &mut Outside<S, C, N>,
    rule: &KeepRule<F>,
    input: &mut I,
    out: &mut O,
) -> Ran<D>
    requires unended { I.ended input.old ≡ false }
    requires over { RunsOverClient command.now }
    requires rule { IsKeepRule (F.pre rule.now.rule) (F.post rule.now.rule) }
    ensures runs { (taken : List ℕ) × (written : List ℕ)
        × Consumes (I.left input.old) (I.left input.new) taken
        × Appends (O.given out.old) (O.given out.new) written
        × CommandRuns ⟦<D as Disk>⟧ D.told D.shown S.told disk
        (around S.shown N.shown C.shown outside.old) (around S.shown N.shown C.shown outside.new)
        command.now result taken (IsAtEnd (I.left input.new)) written }
    ensures causes { StreamCauses (I.faults input.old) (I.faults input.new) (O.faults out.old)
        (O.faults out.new) result.status }
    ensures disk { FaultCounted (D.shown disk).faults (D.shown result.disk).faults
        (result.status ≡ Status.DiskFault) }
    ensures store { FaultCounted (S.shown outside.old.store).faults
        (S.shown outside.new.store).faults (is_store_fault result.status ≡ true) }
    ensures names { FaultCounted (N.shown outside.old.names).faults
        (N.shown outside.new.names).faults (result.status ≡ Status.NamesFault) }
    ensures clock { FaultCounted (C.shown outside.old.clock).faults
        (C.shown outside.new.clock).faults (result.status ≡ Status.ClockFault) }
    ensures words { result.status ≢ Status.BadWords }
{
    let prepared = prepare(alloc, command, input);
    let (ending, disk) = run_prepared(alloc, prepared, disk, outside, rule);
    let status = write_ending(alloc, ending, out);
    Ran { status, disk }
}

// Runs what the input has left to do, over the client of a disk.
fn run_prepared<S: Store, D: Disk, C: Clock, N: Names, F: Fn(u64, u64, u64) -> bool>(
    alloc: Global,
    prepared: Result<Operation, Ending>,
    disk: D,
    outside: &mut Outside<S, C, N>,
    rule: &KeepRule<F>,
) -> (Ending, D)
    requires form { PreparedInForm prepared }
    requires rule { IsKeepRule (F.pre rule.now.rule) (F.post rule.now.rule) }
    ensures runs { AfterInput (λ o e back. OperationRuns ⟦<D as Disk>⟧ D.told D.shown S.told o disk
        (around S.shown N.shown C.shown outside.old) (around S.shown N.shown C.shown outside.new)
        e back) prepared disk (around S.shown N.shown C.shown outside.old)
        (around S.shown N.shown C.shown outside.new) result.0 result.1 }
    ensures inside { MatchResult prepared (λ o. is_clients (status_of result.0) ≡ true)
        (λ why. result.0 ≡ why) }
{
    match prepared {
        Ok(operation) => run_operation(alloc, operation, disk, outside, rule),
        Err(ending) => (ending, disk),
    }
}

// Runs an operation over the client of a disk, where that comes up.
fn run_operation<S: Store, D: Disk, C: Clock, N: Names, F: Fn(u64, u64, u64) -> bool>(
    alloc: Global,
    operation: Operation,
    disk: D,
    outside: &mut Outside<S, C, N>,
    rule: &KeepRule<F>,
) -> (Ending, D)
    requires form { OperationInForm operation }
    requires rule { IsKeepRule (F.pre rule.now.rule) (F.post rule.now.rule) }
    ensures runs { OperationRuns ⟦<D as Disk>⟧ D.told D.shown S.told operation disk
        (around S.shown N.shown C.shown outside.old) (around S.shown N.shown C.shown outside.new)
        result.0 result.1 }
    ensures inside { is_clients (status_of result.0) ≡ true }
{
    match Client::up(alloc, disk, &mut outside.names, SLOTS) {
        Up::Ready(client) => over_client(alloc, operation, client, outside, rule),
        Up::Refused(disk, fault) => (up_ending(fault), disk),
    }
}

// Asks a client what an operation asks, and takes it down.
fn over_client<S: Store, D: Disk, C: Clock, N: Names, F: Fn(u64, u64, u64) -> bool>(
    alloc: Global,
    operation: Operation,
    client: Client<D>,
    outside: &mut Outside<S, C, N>,
    rule: &KeepRule<F>,
) -> (Ending, D)
    requires client { IsClient client }
    requires taken { client.taken ≡ 0 }
    requires form { OperationInForm operation }
    requires rule { IsKeepRule (F.pre rule.now.rule) (F.post rule.now.rule) }
    ensures talk { AsksThenDown D.told D.shown S.told operation client
        (around S.shown N.shown C.shown outside.old) (around S.shown N.shown C.shown outside.new)
        result.0 result.1 }
    ensures inside { is_clients (status_of result.0) ≡ true }
{
    let mut client = client;
    talks_are_runs(&client, &outside.store);
    talks_leave_fit(&client, &outside.store);
    let ending = run_asks(alloc, &mut client, operation, outside, rule);
    (ending, client.down())
}

// Asks a client what an operation asks.
fn run_asks<S: Store, D: Disk, C: Clock, N: Names, F: Fn(u64, u64, u64) -> bool>(
    alloc: Global,
    client: &mut Client<D>,
    operation: Operation,
    outside: &mut Outside<S, C, N>,
    rule: &KeepRule<F>,
) -> Ending
    requires client { IsClient client.old }
    requires taken { client.old.taken ≡ 0 }
    requires form { OperationInForm operation }
    requires rule { IsKeepRule (F.pre rule.now.rule) (F.post rule.now.rule) }
    ensures talk { EndsTalk D.told D.shown S.told operation result
        (point_of client.old (around S.shown N.shown C.shown outside.old))
        (point_of client.new (around S.shown N.shown C.shown outside.new)) }
    ensures inside { is_clients (status_of result) ≡ true }
{
    match operation {
        Operation::Publish(ask) => ended(false, publish(alloc, client, ask, outside, rule)),
        Operation::Poll => ended(false, run_task(alloc, client, Ask::Poll, outside, rule)),
        Operation::Resolve => ended(true, run_task(alloc, client, Ask::Resolve, outside, rule)),
        Operation::List => list(alloc, client, outside, rule),
        Operation::Commit { db, size, pages } => {
            commit(alloc, client, db, size, pages, outside, rule)
        }
        Operation::Read { db, offset, length } => {
            read(alloc, client, db, offset, length, outside, rule)
        }
    }
}
