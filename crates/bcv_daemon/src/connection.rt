//! A connection: its messages taken, answered and written.
ghost use Rattle.std.specs.Prelude.{◌≡◌, ◌⊎◌, ◌^◌, ◌<◌, ◌≤◌, ℕ, [], List, Ok, Err, IfOk};
ghost use Rattle.std.specs.Io.KnownBytes.{Appends};
ghost use Rattle.bcv_base.specs.Faults.{Rose};
ghost use Rattle.bcv_keeprule.specs.Retention.{IsKeepRule};
ghost use Rattle.bcv_proto.specs.Messages.{Begins, session_of};
ghost use Rattle.bcv_client.specs.InForm.{IsClient};
ghost use Rattle.bcv_daemon.specs.Connections.{AnswersAll, EndsAll, IsFresh, Nexts, OnlyPending, WritesLast, WritesPending, ended};
ghost use Rattle.bcv_client.specs.RangeReads.{point};
ghost use Rattle.bcv_daemon.specs.Responses.{is_no_memory};

use crate::answering::add_answer;
use crate::responses::respond;
use crate::sessions::Session;
use bcv_base::{Clock, Names, Outside, Sink};
use bcv_client::Client;
use bcv_disk::Disk;
use bcv_inbox::Inbox;
use bcv_keeprule::KeepRule;
use bcv_model::{Ask, Reply};
use bcv_output::{Wrote, write_all};
use bcv_proto::{Answer, Message, Parsed, read_message};
use bcv_store::Store;
use std::alloc::{AllocError, Global};

// The bytes of answers that are kept until they are written, but for the last answer.
const PENDING: usize = 65536;

// The most bytes of messages that one connection is answered.
const MOST: u64 = 1 << 63;

/// How the service of a connection ended.
#[derive(Clone, Copy, Debug, PartialEq, Eq)]
pub enum ServeEnd {
    /// The input ended between two messages.
    Closed,
    /// Messages of 2^63 bytes or more were answered.
    Limit,
    /// From this place on, the start of a message, the bytes are no front of a message, or end inside one.
    BadMessage { at: u64 },
    /// The source failed.
    ReadFault,
    /// The sink failed.
    WriteFault,
    /// Memory ran out.
    NoMemory,
}

// What the next message comes to: it was answered, it is not there yet, or the connection ends.
#[derive(Clone, Copy, Debug, PartialEq, Eq)]
pub enum Next {
    Answered,
    Waits,
    Ends(ServeEnd),
}

// What a connection keeps: the bytes that were taken and not answered yet, its sessions, the answers that were not written
// yet, and how many bytes the answered messages have.
#[derive(Drop)]
pub struct Connection {
    pub inbox: Inbox,
    pub sessions: Vec<Session>,
    pub pending: Vec<u8>,
    pub used: u64,
}

impl Connection {
    pub(crate) fn new(alloc: Global) -> Result<Connection, AllocError>
        ensures { IfOk result IsFresh }
    {
        Ok(Connection {
            inbox: Inbox::new(alloc)?,
            sessions: Vec::new(alloc),
            pending: Vec::new(alloc),
            used: 0,
        })
    }

    // Answers all whole messages that are at hand, and writes the answers.
    pub(crate) fn answer_all<
        D: Disk,
        S: Store,
        C: Clock,
        N: Names,
        F: Fn(u64, u64, u64) -> bool,
        O: Sink,
    >(
        &mut self,
        alloc: Global,
        client: &mut Client<D>,
        outside: &mut Outside<S, C, N>,
        rule: &KeepRule<F>,
        out: &mut O,
    ) -> Result<(), ServeEnd>
        requires client { IsClient client.old }
        requires rule { IsKeepRule (F.pre rule.now.rule) (F.post rule.now.rule) }
        ensures client { IsClient client.new }
        ensures answers { (written : List ℕ) × Appends (O.given out.old) (O.given out.new) written
            × AnswersAll D.told D.shown S.told
            (point client.old (S.shown outside.old.store) (N.shown outside.old.names)
            (C.shown outside.old.clock))
            (point client.new (S.shown outside.new.store) (N.shown outside.new.names)
            (C.shown outside.new.clock))
            self.old self.new written result }
        ensures later { O.faults out.old ≤ O.faults out.new }
        ensures cause { result ≡ Err ServeEnd.WriteFault → Rose (O.faults out.old) (O.faults out.new) }
    {
        'messages: loop {
            match self.next(alloc, client, outside, rule) {
                Next::Answered => match self.write_many(out) {
                    Ok(()) => {}
                    Err(end) => return Err(end),
                },
                Next::Waits => return self.write_pending(out),
                Next::Ends(end) => return Err(self.write_last(out, end)),
            }
        }
    }

    // Answers the next message, where a whole one is at hand.
    fn next<D: Disk, S: Store, C: Clock, N: Names, F: Fn(u64, u64, u64) -> bool>(
        &mut self,
        alloc: Global,
        client: &mut Client<D>,
        outside: &mut Outside<S, C, N>,
        rule: &KeepRule<F>,
    ) -> Next
        requires client { IsClient client.old }
        requires rule { IsKeepRule (F.pre rule.now.rule) (F.post rule.now.rule) }
        ensures client { IsClient client.new }
        ensures next { Nexts D.told D.shown S.told
            (point client.old (S.shown outside.old.store) (N.shown outside.old.names)
            (C.shown outside.old.clock))
            (point client.new (S.shown outside.new.store) (N.shown outside.new.names)
            (C.shown outside.new.clock))
            self.old self.new result }
    {
        if self.used >= MOST {
            return Next::Ends(ServeEnd::Limit);
        }
        match read_message(self.inbox.bytes()) {
            Parsed::Whole(message, len) => {
                self.answer_one(alloc, client, message, len, outside, rule)
            }
            Parsed::Short => Next::Waits,
            Parsed::Bad => Next::Ends(ServeEnd::BadMessage { at: self.used }),
        }
    }

    // Answers the message of so many bytes at the front of the input.
    fn answer_one<D: Disk, S: Store, C: Clock, N: Names, F: Fn(u64, u64, u64) -> bool>(
        &mut self,
        alloc: Global,
        client: &mut Client<D>,
        message: Message,
        len: usize,
        outside: &mut Outside<S, C, N>,
        rule: &KeepRule<F>,
    ) -> Next
        requires client { IsClient client.old }
        requires rule { IsKeepRule (F.pre rule.now.rule) (F.post rule.now.rule) }
        requires below { self.old.used < 2 ^ 63 }
        requires begins { Begins self.old.inbox message len }
        ensures client { IsClient client.new }
        ensures next { Nexts D.told D.shown S.told
            (point client.old (S.shown outside.old.store) (N.shown outside.old.names)
            (C.shown outside.old.clock))
            (point client.new (S.shown outside.new.store) (N.shown outside.new.names)
            (C.shown outside.new.clock))
            self.old self.new result }
    {
        let _ = self.inbox.bytes();
        let session = session_of(&message);
        let given = respond(alloc, client, &mut self.sessions, message, outside, rule);
        if is_no_memory(&given) {
            return Next::Ends(ServeEnd::NoMemory);
        }
        match add_answer(alloc, session, &given, &mut self.pending) {
            Ok(()) => {
                self.inbox.skip(len);
                self.used += len as u64;
                Next::Answered
            }
            Err(_) => Next::Ends(ServeEnd::NoMemory),
        }
    }

    // Writes the pending answers where they are many.
    fn write_many<O: Sink>(&mut self, out: &mut O) -> Result<(), ServeEnd>
        ensures writes { (written : List ℕ) × Appends (O.given out.old) (O.given out.new) written
            × WritesPending result self.old.pending.items self.new.pending.items written }
        ensures others { OnlyPending self.old self.new }
        ensures later { O.faults out.old ≤ O.faults out.new }
        ensures cause { result ≡ Err ServeEnd.WriteFault → Rose (O.faults out.old) (O.faults out.new) }
    {
        if self.pending.len() < PENDING {
            return Ok(());
        }
        self.write_pending(out)
    }

    // Writes the pending answers.
    fn write_pending<O: Sink>(&mut self, out: &mut O) -> Result<(), ServeEnd>
        ensures writes { (written : List ℕ) × Appends (O.given out.old) (O.given out.new) written
            × WritesPending result self.old.pending.items self.new.pending.items written }
        ensures others { OnlyPending self.old self.new }
        ensures later { O.faults out.old ≤ O.faults out.new }
        ensures cause { result ≡ Err ServeEnd.WriteFault → Rose (O.faults out.old) (O.faults out.new) }
        ensures all { result ≡ Ok tt → self.new.pending.items ≡ [] }
    {
        match write_all(out, self.pending.as_slice()) {
            Wrote::All => {
                self.pending.clear();
                Ok(())
            }
            Wrote::Failed => Err(ServeEnd::WriteFault),
            Wrote::NoMemory => Err(ServeEnd::NoMemory),
        }
    }

    // Writes the pending answers before the connection ends so.
    fn write_last<O: Sink>(&mut self, out: &mut O, end: ServeEnd) -> ServeEnd
        ensures writes { (written : List ℕ) × Appends (O.given out.old) (O.given out.new) written
            × WritesLast end result self.old.pending.items written }
        ensures others { OnlyPending self.old self.new }
        ensures later { O.faults out.old ≤ O.faults out.new }
        ensures cause { result ≡ ServeEnd.WriteFault → (end ≡ ServeEnd.WriteFault) ⊎ Rose (O.faults out.old) (O.faults out.new) }
    {
        if end == ServeEnd::NoMemory {
            return end;
        }
        match self.write_pending(out) {
            Ok(()) => end,
            Err(fault) => fault,
        }
    }

    // How the connection ends where its input has ended.
    pub(crate) fn ended(&self) -> ServeEnd
        ensures { result ≡ ended self.now.inbox self.now.used }
    {
        if self.inbox.bytes().is_empty() {
            ServeEnd::Closed
        } else {
            ServeEnd::BadMessage { at: self.used }
        }
    }

    // Ends the transactions of all sessions, before the connection goes.
    pub(crate) fn end_sessions<D: Disk, S: Store, C: Clock, N: Names, F: Fn(u64, u64, u64) -> bool>(
        &self,
        alloc: Global,
        client: &mut Client<D>,
        outside: &mut Outside<S, C, N>,
        rule: &KeepRule<F>,
    )
        requires client { IsClient client.old }
        requires rule { IsKeepRule (F.pre rule.now.rule) (F.post rule.now.rule) }
        ensures client { IsClient client.new }
        ensures ends { EndsAll D.told D.shown S.told
            (point client.old (S.shown outside.old.store) (N.shown outside.old.names)
            (C.shown outside.old.clock))
            self.now.sessions.items
            (point client.new (S.shown outside.new.store) (N.shown outside.new.names)
            (C.shown outside.new.clock)) }
    {
        for session in &self.sessions {
            let txn = session.txn;
            let _ = client.call(alloc, Ask::End { txn }, outside, rule);
        }
    }
}

// Whether memory was missing for an answer.
fn is_no_memory(given: &Answer) -> bool
    ensures { result ≡ is_no_memory given.now }
{
    match given {
        Answer::Refused(Reply::NoMemory) => true,
        _ => false,
    }
}

// The session of a message.
fn session_of(message: &Message) -> u32
    ensures { result ≡ session_of message.now }
{
    match message {
        Message::Poll { session } => *session,
        Message::Begin { session, .. } => *session,
        Message::Read { session, .. } => *session,
        Message::End { session } => *session,
        Message::List { session } => *session,
        Message::Hold { session, .. } => *session,
        Message::Look { session, .. } => *session,
        Message::Free { session, .. } => *session,
    }
}
