//! What a message asks of the client, and its answer.
ghost use Rattle.std.specs.Prelude.{◌≡◌, ◌≤◌, ◌^◌, None, take};
ghost use Rattle.bcv_keeprule.specs.Retention.{IsKeepRule};
ghost use Rattle.bcv_client.specs.InForm.{IsClient};
ghost use Rattle.bcv_proto.specs.Messages.{IsMessage};
ghost use Rattle.bcv_proto.specs.declared.message.Message.TheVariants as message;
ghost use Rattle.bcv_daemon.specs.Connections.{ReadsOver};
ghost use Rattle.bcv_client.specs.RangeReads.{point};
ghost use Rattle.bcv_daemon.specs.Responses.{Answered};
ghost use Rattle.bcv_daemon.specs.Sessions.{txn_of};

use crate::asking::ask_to_end;
use crate::replies::{
    begun_answer, fine_answer, held_answer, page_answer, polled_answer, rows_answer,
};
use crate::sessions::{Session, close, open, txn_of};
use bcv_base::{Clock, DbName, Names, Outside, Seq};
use bcv_client::{Client, ReadAt};
use bcv_disk::Disk;
use bcv_keeprule::KeepRule;
use bcv_model::{Ask, Reply};
use bcv_proto::{Answer, Message};
use bcv_store::Store;
use std::alloc::Global;

// Makes the asks of a message, and returns its answer. It is refused for want of memory alone where the connection ends.
pub(crate) fn respond<D: Disk, S: Store, C: Clock, N: Names, F: Fn(u64, u64, u64) -> bool>(
    alloc: Global,
    client: &mut Client<D>,
    sessions: &mut Vec<Session>,
    message: Message,
    outside: &mut Outside<S, C, N>,
    rule: &KeepRule<F>,
) -> Answer
    requires client { IsClient client.old }
    requires rule { IsKeepRule (F.pre rule.now.rule) (F.post rule.now.rule) }
    requires message { IsMessage message }
    ensures client { IsClient client.new }
    ensures answered { Answered D.told D.shown S.told
        (point client.old (S.shown outside.old.store) (N.shown outside.old.names)
        (C.shown outside.old.clock))
        (point client.new (S.shown outside.new.store) (N.shown outside.new.names)
        (C.shown outside.new.clock))
        sessions.old.items sessions.new.items message result }
{
    match message {
        Message::Poll { session: _ } => {
            polled_answer(ask_to_end(alloc, client, Ask::Poll, outside, rule))
        }
        Message::Begin { session, db } => match txn_of(sessions, session) {
            Some(_) => Answer::Refused(Reply::Busy),
            None => begin(alloc, client, sessions, session, db, outside, rule),
        },
        Message::List { session: _ } => rows_answer(client.call(alloc, Ask::List, outside, rule)),
        Message::End { session } => match txn_of(sessions, session) {
            Some(txn) => {
                close(sessions, session);
                fine_answer(client.call(alloc, Ask::End { txn }, outside, rule))
            }
            None => Answer::Refused(Reply::NoTxn),
        },
        Message::Read { session, off, len } => match txn_of(sessions, session) {
            Some(txn) => read(alloc, client, txn, off, len, outside),
            None => Answer::Refused(Reply::NoTxn),
        },
        Message::Hold { session, page } => match txn_of(sessions, session) {
            Some(txn) => {
                let ask = Ask::Hold { txn, page };
                held_answer(ask_to_end(alloc, client, ask, outside, rule))
            }
            None => Answer::Refused(Reply::NoTxn),
        },
        Message::Look { session, page } => match txn_of(sessions, session) {
            Some(txn) => page_answer(client.call(alloc, Ask::Look { txn, page }, outside, rule)),
            None => Answer::Refused(Reply::NoTxn),
        },
        Message::Free { session, page } => match txn_of(sessions, session) {
            Some(txn) => fine_answer(client.call(alloc, Ask::Free { txn, page }, outside, rule)),
            None => Answer::Refused(Reply::NoTxn),
        },
    }
}

// Begins the transaction of a session that has none.
fn begin<D: Disk, S: Store, C: Clock, N: Names, F: Fn(u64, u64, u64) -> bool>(
    alloc: Global,
    client: &mut Client<D>,
    sessions: &mut Vec<Session>,
    session: u32,
    db: DbName,
    outside: &mut Outside<S, C, N>,
    rule: &KeepRule<F>,
) -> Answer
    requires client { IsClient client.old }
    requires none { txn_of sessions.old.items session ≡ None }
    requires rule { IsKeepRule (F.pre rule.now.rule) (F.post rule.now.rule) }
    ensures client { IsClient client.new }
    ensures answered { Answered D.told D.shown S.told
        (point client.old (S.shown outside.old.store) (N.shown outside.old.names)
        (C.shown outside.old.clock))
        (point client.new (S.shown outside.new.store) (N.shown outside.new.names)
        (C.shown outside.new.clock))
        sessions.old.items sessions.new.items (message.Begin session db) result }
{
    if sessions.reserve(1).is_err() {
        return Answer::Refused(Reply::NoMemory);
    }
    match client.call(alloc, Ask::Begin(db), outside, rule) {
        Reply::Txn(txn) => {
            open(sessions, session, txn);
            begun_answer(client.opened(txn))
        }
        reply => Answer::Refused(reply),
    }
}

// Reads bytes of a transaction's database.
fn read<D: Disk, S: Store, C: Clock, N: Names>(
    alloc: Global,
    client: &mut Client<D>,
    txn: u8,
    off: u64,
    len: u32,
    outside: &mut Outside<S, C, N>,
) -> Answer
    requires client { IsClient client.old }
    requires most { len ≤ 2 ^ 24 }
    ensures client { IsClient client.new }
    ensures reads { ReadsOver D.told D.shown S.told
        (point client.old (S.shown outside.old.store) (N.shown outside.old.names)
        (C.shown outside.old.clock))
        (point client.new (S.shown outside.new.store) (N.shown outside.new.names)
        (C.shown outside.new.clock))
        txn off len result }
{
    let mut into = Vec::new(alloc);
    match client.read_at(alloc, txn, off, len, &mut into, &mut outside.store) {
        ReadAt::Full => Answer::Bytes(Seq::of(into)),
        ReadAt::Short(there) => {
            cut(&mut into, there);
            Answer::Bytes(Seq::of(into))
        }
        ReadAt::Refused(reply) => Answer::Refused(reply),
    }
}

// Leaves so many bytes of a buffer.
fn cut(bytes: &mut Vec<u8>, count: u32)
    ensures { bytes.new.items ≡ take count bytes.old.items }
{
    bytes.truncate(count as usize);
}
