//! The read of a database's bytes.
ghost use Rattle.std.specs.Prelude.{◌≡◌, ◌≤◌, ◌^◌, ℕ, List, true};
ghost use Rattle.bcv_client.specs.InForm.{IsClient};
ghost use Rattle.bcv_client.specs.RangeAsks.{exchange};
ghost use Rattle.bcv_client.specs.Talk.{Exchange, Exchanged};
ghost use Rattle.bcv_keeprule.specs.Retention.{IsKeepRule};
ghost use Rattle.bcv_model.specs.declared.ask.Ask.TheVariants.{End};
ghost use Rattle.bcv_model.specs.declared.reply.Reply.{Reply};
ghost use Rattle.bcv_runner.specs.CommandAsks.{around, point_of};
ghost use Rattle.bcv_runner.specs.CommandTalks.{EndsTalk};
ghost use Rattle.bcv_runner.specs.Endings.{is_clients, status_of};
ghost use Rattle.bcv_runner.specs.ReadAsks.{DatabaseIsRead, RangeIsRead, bytes_read, txn_of};

use crate::asks::{ask_client, run_task};
use crate::ending::{Ending, ended};
use crate::operation::Operation;
use crate::publishing::is_polled;
use bcv_base::{Clock, DbName, Names, Outside, Seq};
use bcv_client::{Client, ReadAt};
use bcv_disk::Disk;
use bcv_keeprule::KeepRule;
use bcv_model::{Ask, Reply};
use bcv_store::Store;
use std::alloc::Global;

// Reads bytes of a database after a poll.
pub fn read<D: Disk, S: Store, C: Clock, N: Names, F: Fn(u64, u64, u64) -> bool>(
    alloc: Global,
    client: &mut Client<D>,
    db: DbName,
    offset: u64,
    length: u32,
    outside: &mut Outside<S, C, N>,
    rule: &KeepRule<F>,
) -> Ending
    requires client { IsClient client.old }
    requires most { length ≤ 2 ^ 24 }
    requires rule { IsKeepRule (F.pre rule.now.rule) (F.post rule.now.rule) }
    ensures talk { EndsTalk D.told D.shown S.told (Operation.Read db offset length) result
        (point_of client.old (around S.shown N.shown C.shown outside.old))
        (point_of client.new (around S.shown N.shown C.shown outside.new)) }
    ensures inside { is_clients (status_of result) ≡ true }
{
    let polled = run_task(alloc, client, Ask::Poll, outside, rule);
    if !is_polled(&polled) {
        return ended(false, polled);
    }
    read_database(alloc, client, db, offset, length, outside, rule)
}

// Reads bytes of a database by a transaction.
fn read_database<D: Disk, S: Store, C: Clock, N: Names, F: Fn(u64, u64, u64) -> bool>(
    alloc: Global,
    client: &mut Client<D>,
    db: DbName,
    offset: u64,
    length: u32,
    outside: &mut Outside<S, C, N>,
    rule: &KeepRule<F>,
) -> Ending
    requires client { IsClient client.old }
    requires most { length ≤ 2 ^ 24 }
    requires rule { IsKeepRule (F.pre rule.now.rule) (F.post rule.now.rule) }
    ensures talk { (es : List Exchange) × DatabaseIsRead D.told D.shown S.told db offset length
        (point_of client.old (around S.shown N.shown C.shown outside.old)) es result
        (point_of client.new (around S.shown N.shown C.shown outside.new)) }
    ensures inside { is_clients (status_of result) ≡ true }
{
    let begun = ask_client(alloc, client, Ask::Begin(db), outside, rule);
    match txn_of(&begun) {
        Some(txn) => read_range(alloc, client, txn, offset, length, outside, rule),
        None => ended(false, begun),
    }
}

// The number of the transaction that has begun.
fn txn_of(reply: &Reply) -> Option<u8>
    ensures { result ≡ txn_of reply.now }
{
    match reply {
        Reply::Txn(txn) => Some(*txn),
        _ => None,
    }
}

// Reads a range of an open transaction's file, and ends the transaction where the bytes came.
fn read_range<D: Disk, S: Store, C: Clock, N: Names, F: Fn(u64, u64, u64) -> bool>(
    alloc: Global,
    client: &mut Client<D>,
    txn: u8,
    offset: u64,
    length: u32,
    outside: &mut Outside<S, C, N>,
    rule: &KeepRule<F>,
) -> Ending
    requires client { IsClient client.old }
    requires most { length ≤ 2 ^ 24 }
    requires rule { IsKeepRule (F.pre rule.now.rule) (F.post rule.now.rule) }
    ensures talk { (es : List Exchange) × RangeIsRead D.told D.shown S.told offset length txn
        (point_of client.old (around S.shown N.shown C.shown outside.old)) es result
        (point_of client.new (around S.shown N.shown C.shown outside.new)) }
    ensures inside { is_clients (status_of result) ≡ true }
{
    let mut into = Vec::new(alloc);
    let read = client.read_at(alloc, txn, offset, length, &mut into, &mut outside.store);
    match bytes_read(read, into) {
        Ok(bytes) => {
            end_txn(alloc, client, txn, outside, rule);
            Ending::Read(bytes)
        }
        Err(reply) => ended(false, reply),
    }
}

// The bytes of a range that are there.
fn bytes_read(read: ReadAt, into: Vec<u8>) -> Result<Seq<u8>, Reply>
    ensures { result ≡ bytes_read read into.items }
{
    match read {
        ReadAt::Full => Ok(Seq::of(into)),
        ReadAt::Short(count) => {
            let mut bytes = into;
            bytes.truncate(count as usize);
            Ok(Seq::of(bytes))
        }
        ReadAt::Refused(reply) => Err(reply),
    }
}

// Ends a transaction.
fn end_txn<D: Disk, S: Store, C: Clock, N: Names, F: Fn(u64, u64, u64) -> bool>(
    alloc: Global,
    client: &mut Client<D>,
    txn: u8,
    outside: &mut Outside<S, C, N>,
    rule: &KeepRule<F>,
)
    requires client { IsClient client.old }
    requires rule { IsKeepRule (F.pre rule.now.rule) (F.post rule.now.rule) }
    ensures { (r : Reply) × Exchanged D.told D.shown S.told
        (point_of client.old (around S.shown N.shown C.shown outside.old)) (exchange (End txn) r)
        (point_of client.new (around S.shown N.shown C.shown outside.new)) }
{
    let reply = ask_client(alloc, client, Ask::End { txn }, outside, rule);
    drop(reply);
}
