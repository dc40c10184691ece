//! One connection served.
ghost use Rattle.std.specs.Prelude.{◌≡◌, ℕ, [], false, List};
ghost use Rattle.std.specs.Io.KnownBytes.{Appends, Consumes, IsAtEnd};
ghost use Rattle.bcv_client.specs.InForm.{IsClient};
ghost use Rattle.bcv_keeprule.specs.Retention.{IsKeepRule};
ghost use Rattle.bcv_daemon.specs.Connections.{ServesUp};
ghost use Rattle.bcv_client.specs.RangeReads.{point};
ghost use Rattle.bcv_daemon.specs.Served.{ServeCauses, Served};

use crate::connection::{Connection, ServeEnd};
use crate::daemon::Daemon;
use bcv_base::{Clock, Names, Outside, Sink, Source, Took};
use bcv_client::Client;
use bcv_disk::Disk;
use bcv_keeprule::KeepRule;
use bcv_store::Store;
use bcv_talks::talks_are_runs;
use std::alloc::Global;

/// Serves one connection: answers its messages in order until it ends, and then ends the transactions of its sessions. The
/// client stays for the next connection.
pub fn serve_top<S: Store, D: Disk, C: Clock, N: Names, I: Source, O: Sink>(
    alloc: Global,
    daemon: &mut Daemon<D>,
    outside: &mut Outside<S, C, N>,
    input: &mut I,
    out: &mut O,
) -> ServeEnd
    requires client { IsClient daemon.old.client }
    requires unended { I.ended input.old ≡ false }
    ensures client { IsClient daemon.new.client }
    ensures serves { (taken : List ℕ) × (written : List ℕ)
        × Consumes (I.left input.old) (I.left input.new) taken
        × Appends (O.given out.old) (O.given out.new) written
        × Served D.told D.shown S.told
        (point daemon.old.client (S.shown outside.old.store) (N.shown outside.old.names)
        (C.shown outside.old.clock))
        (point daemon.new.client (S.shown outside.new.store) (N.shown outside.new.names)
        (C.shown outside.new.clock))
        taken written (IsAtEnd (I.left input.new)) result }
    ensures causes { ServeCauses (I.faults input.old) (I.faults input.new) (O.faults out.old)
        (O.faults out.new) result }
{
    talks_are_runs(&daemon.client, &outside.store);
    let mut connection = match Connection::new(alloc) {
        Ok(connection) => connection,
        Err(_) => return ServeEnd::NoMemory,
    };
    let rule = KeepRule::new(never);
    let end = serve(
        alloc,
        &mut daemon.client,
        &mut connection,
        outside,
        &rule,
        input,
        out,
    );
    connection.end_sessions(alloc, &mut daemon.client, outside, &rule);
    end
}

// The rule that lets no block go.
fn never(stamp: u64, now: u64, retention: u64) -> bool
    ensures { result ≡ false }
{
    false
}

// Answers messages until the connection ends.
fn serve<S: Store, D: Disk, C: Clock, N: Names, F: Fn(u64, u64, u64) -> bool, I: Source, O: Sink>(
    alloc: Global,
    client: &mut Client<D>,
    connection: &mut Connection,
    outside: &mut Outside<S, C, N>,
    rule: &KeepRule<F>,
    input: &mut I,
    out: &mut O,
) -> ServeEnd
    requires client { IsClient client.old }
    requires rule { IsKeepRule (F.pre rule.now.rule) (F.post rule.now.rule) }
    requires unended { I.ended input.old ≡ false }
    requires none { connection.old.pending.items ≡ [] }
    ensures client { IsClient client.new }
    ensures serves { (taken : List ℕ) × (written : List ℕ)
        × Consumes (I.left input.old) (I.left input.new) taken
        × Appends (O.given out.old) (O.given out.new) written
        × ServesUp D.told D.shown S.told
        (point client.old (S.shown outside.old.store) (N.shown outside.old.names)
        (C.shown outside.old.clock))
        (point client.new (S.shown outside.new.store) (N.shown outside.new.names)
        (C.shown outside.new.clock))
        connection.old connection.new taken written (IsAtEnd (I.left input.new)) result }
    ensures causes { ServeCauses (I.faults input.old) (I.faults input.new) (O.faults out.old)
        (O.faults out.new) result }
{
    'pieces: loop {
        match connection.answer_all(alloc, client, outside, rule, out) {
            Ok(()) => {}
            Err(end) => return end,
        }
        match connection.inbox.refill(input) {
            Took::Some(_) => {}
            Took::End => return connection.ended(),
            Took::Failed => return ServeEnd::ReadFault,
        }
    }
}
