//! A publication with its resolve, and what is asked after a poll.
ghost use Rattle.std.specs.Prelude.{◌≡◌, ℕ, List, true};
ghost use Rattle.bcv_client.specs.AskCalls.{AskInForm};
ghost use Rattle.bcv_client.specs.InForm.{IsClient};
ghost use Rattle.bcv_keeprule.specs.Retention.{IsKeepRule};
ghost use Rattle.bcv_client.specs.Talk.{Exchange};
ghost use Rattle.bcv_runner.specs.CommandAsks.{CommitsFilled, AsksLast, PollsFirst, PublishAsks, TaskAsks, around, is_polled, point_of, after_resolve, unknown_of};
ghost use Rattle.bcv_runner.specs.CommandTalks.{EndsTalk, MakesAsks};
ghost use Rattle.bcv_runner.specs.Endings.{is_clients, status_of};

use crate::asks::{ask_client, run_task};
use crate::ending::{Ending, ended};
use crate::filling::filled_pages;
use crate::operation::Operation;
use bcv_base::{Clock, DbName, Id16, Names, Outside, Seq};
use bcv_client::Client;
use bcv_disk::Disk;
use bcv_keeprule::KeepRule;
use bcv_model::{Ask, Commit, Reply};
use bcv_store::Store;
use std::alloc::Global;

// Publishes by an ask; where it is not known whether that was made, one resolve follows.
pub fn publish<D: Disk, S: Store, C: Clock, N: Names, F: Fn(u64, u64, u64) -> bool>(
    alloc: Global,
    client: &mut Client<D>,
    ask: Ask,
    outside: &mut Outside<S, C, N>,
    rule: &KeepRule<F>,
) -> Reply
    requires client { IsClient client.old }
    requires ask { AskInForm client.old.taken ask }
    requires rule { IsKeepRule (F.pre rule.now.rule) (F.post rule.now.rule) }
    ensures { MakesAsks D.told D.shown S.told (λ es. PublishAsks ask es result)
        (point_of client.old (around S.shown N.shown C.shown outside.old))
        (point_of client.new (around S.shown N.shown C.shown outside.new)) }
{
    let reply = run_task(alloc, client, ask, outside, rule);
    match unknown_of(&reply) {
        Some(id) => {
            let found = run_task(alloc, client, Ask::Resolve, outside, rule);
            after_resolve(id, found)
        }
        None => reply,
    }
}

// The publication of which it is not known whether it was made.
fn unknown_of(reply: &Reply) -> Option<Id16>
    ensures { result ≡ unknown_of reply.now }
{
    match reply {
        Reply::Unknown(id) => Some(*id),
        _ => None,
    }
}

// What a resolve makes of such a publication.
fn after_resolve(id: Id16, found: Reply) -> Reply
    ensures { result ≡ after_resolve id found }
{
    match found {
        Reply::StoreFault => Reply::Unknown(id),
        other => other,
    }
}

// Whether a poll was answered.
pub fn is_polled(reply: &Reply) -> bool
    ensures { result ≡ is_polled reply.now }
{
    matches!(reply, Reply::Polled(_))
}

// Asks for the table of all databases after a poll.
pub fn list<D: Disk, S: Store, C: Clock, N: Names, F: Fn(u64, u64, u64) -> bool>(
    alloc: Global,
    client: &mut Client<D>,
    outside: &mut Outside<S, C, N>,
    rule: &KeepRule<F>,
) -> Ending
    requires client { IsClient client.old }
    requires rule { IsKeepRule (F.pre rule.now.rule) (F.post rule.now.rule) }
    ensures talk { EndsTalk D.told D.shown S.told Operation.List result
        (point_of client.old (around S.shown N.shown C.shown outside.old))
        (point_of client.new (around S.shown N.shown C.shown outside.new)) }
    ensures inside { is_clients (status_of result) ≡ true }
{
    let polled = run_task(alloc, client, Ask::Poll, outside, rule);
    if !is_polled(&polled) {
        return ended(false, polled);
    }
    let table = ask_client(alloc, client, Ask::List, outside, rule);
    ended(false, table)
}

// Commits pages after a poll, which fixes the page size up to which each of them is filled.
pub fn commit<D: Disk, S: Store, C: Clock, N: Names, F: Fn(u64, u64, u64) -> bool>(
    alloc: Global,
    client: &mut Client<D>,
    db: DbName,
    size: u32,
    pages: Seq<(u32, Seq<u8>)>,
    outside: &mut Outside<S, C, N>,
    rule: &KeepRule<F>,
) -> Ending
    requires client { IsClient client.old }
    requires taken { client.old.taken ≡ 0 }
    requires rule { IsKeepRule (F.pre rule.now.rule) (F.post rule.now.rule) }
    ensures talk { EndsTalk D.told D.shown S.told (Operation.Commit db size pages) result
        (point_of client.old (around S.shown N.shown C.shown outside.old))
        (point_of client.new (around S.shown N.shown C.shown outside.new)) }
    ensures inside { is_clients (status_of result) ≡ true }
{
    let polled = run_task(alloc, client, Ask::Poll, outside, rule);
    if !is_polled(&polled) {
        return ended(false, polled);
    }
    commit_filled(alloc, client, db, size, pages, outside, rule)
}

// Asks for a commit of pages, each filled up to the page size that is known.
fn commit_filled<D: Disk, S: Store, C: Clock, N: Names, F: Fn(u64, u64, u64) -> bool>(
    alloc: Global,
    client: &mut Client<D>,
    db: DbName,
    size: u32,
    pages: Seq<(u32, Seq<u8>)>,
    outside: &mut Outside<S, C, N>,
    rule: &KeepRule<F>,
) -> Ending
    requires client { IsClient client.old }
    requires taken { client.old.taken ≡ 0 }
    requires rule { IsKeepRule (F.pre rule.now.rule) (F.post rule.now.rule) }
    ensures talk { (es : List Exchange) × CommitsFilled D.told D.shown S.told db size pages
        (point_of client.old (around S.shown N.shown C.shown outside.old)) es result
        (point_of client.new (around S.shown N.shown C.shown outside.new)) }
    ensures inside { is_clients (status_of result) ≡ true }
{
    let page_size = client.page_size(&db);
    let pages = match filled_pages(alloc, page_size, pages) {
        Ok(pages) => pages,
        Err(_) => return ended(false, Reply::NoMemory),
    };
    let commit = Commit { size, pages };
    let reply = ask_client(alloc, client, Ask::Commit { db, commit }, outside, rule);
    ended(false, reply)
}
