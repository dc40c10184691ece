ghost use Rattle.std.specs.Prelude.{◌≡◌};
ghost use Rattle.bcv_model.specs.Script.{act_at, asking, client_at, commit_at, event_at, fuse_at, new_at, step_at, tick_at, txn_and_page_at};
ghost use Rattle.bcv_script.specs.Reading.{Gives};

use crate::names::{last_name, name, names};
use crate::number::{last_number, number, number_in};
use crate::page::{pages, pairs};
use crate::stop::Stop;
use crate::verb::{outcome, verb};
use crate::words::Words;
use bcv_base::{DbName, Outcome, Seq};
use bcv_model::{Act, Ask, Commit, Event, Verb, WorldSpec};
use std::alloc::Global;

// The most pages, and device calls.
const MOST: u64 = u32::MAX as u64;

// The event that the words of a line make.
#[tactic(auto, unfolding(bcv_model::specs::Script::event_at))]
pub fn event(alloc: Global, spec: &WorldSpec, words: &mut Words) -> Result<Event, Stop>
    ensures { Gives (λ e. e) result (event_at spec.now words.old) }
{
    let (word, left) = words.word()?;
    if word == b"tick".as_slice() {
        return tick(words);
    }
    let Some(client) = number_in(word, 1, u64::from(spec.clients)) else {
        return Err(Stop::Fault(left));
    };
    let verb = verb(words)?;
    let act = act(alloc, spec, verb, words)?;
    Ok(Event::Of {
        client: client as u8,
        act,
    })
}

// Time that goes on, by the last word.
fn tick(words: &mut Words) -> Result<Event, Stop>
    ensures { Gives (λ e. e) result (tick_at words.old) }
{
    let seconds = last_number(words, 0, u64::MAX)?;
    Ok(Event::Tick(seconds))
}

// What happens to a client, by the verb and the words after it.
#[tactic(auto, unfolding(bcv_model::specs::Script::act_at))]
fn act(alloc: Global, spec: &WorldSpec, verb: Verb, words: &mut Words) -> Result<Act, Stop>
    ensures { Gives (λ a. a) result (act_at spec.now verb words.old) }
{
    match verb {
        Verb::Up => {
            words.end()?;
            Ok(Act::Up)
        }
        Verb::Crash => {
            let image = last_number(words, 0, 4)? as u8;
            Ok(Act::Crash { image })
        }
        Verb::Fuse => {
            let (calls, image) = fuse(words)?;
            Ok(Act::Fuse { calls, image })
        }
        Verb::Fail => {
            let calls = last_number(words, 0, MOST)? as u32;
            Ok(Act::FailAt { calls })
        }
        Verb::Begin => Ok(asking(Ask::Begin(last_name(words)?))),
        Verb::Read => {
            let (txn, page) = txn_and_page(words)?;
            Ok(asking(Ask::Read { txn, page }))
        }
        Verb::Hold => {
            let (txn, page) = txn_and_page(words)?;
            Ok(asking(Ask::Hold { txn, page }))
        }
        Verb::Look => {
            let (txn, page) = txn_and_page(words)?;
            Ok(asking(Ask::Look { txn, page }))
        }
        Verb::Free => {
            let (txn, page) = txn_and_page(words)?;
            Ok(asking(Ask::Free { txn, page }))
        }
        Verb::End => {
            let txn = last_number(words, 1, 64)? as u8;
            Ok(asking(Ask::End { txn }))
        }
        Verb::Commit => {
            let (db, commit) = commit(alloc, spec.page, words)?;
            Ok(asking(Ask::Commit { db, commit }))
        }
        Verb::Revert => Ok(asking(Ask::Revert(last_name(words)?))),
        Verb::List => {
            words.end()?;
            Ok(asking(Ask::List))
        }
        Verb::Create => {
            words.end()?;
            Ok(asking(Ask::Create {
                block: spec.block,
                retention: spec.retention,
            }))
        }
        Verb::New => {
            let (db, pages) = new_database(alloc, spec.page, words)?;
            Ok(asking(Ask::NewDb {
                db,
                page_size: spec.page,
                pages,
            }))
        }
        Verb::Upload => Ok(asking(Ask::Upload(last_name(words)?))),
        Verb::Copy => {
            let (from, to) = names(words)?;
            Ok(asking(Ask::Copy { from, to }))
        }
        Verb::Drop => Ok(asking(Ask::Remove(last_name(words)?))),
        Verb::Poll => {
            words.end()?;
            Ok(asking(Ask::Poll))
        }
        Verb::Cleanup => {
            words.end()?;
            Ok(asking(Ask::Cleanup))
        }
        Verb::Resolve => {
            words.end()?;
            Ok(asking(Ask::Resolve))
        }
        Verb::Step => {
            let (task, outcome) = step(words)?;
            Ok(Act::Ask(Ask::Step { task }, outcome))
        }
    }
}

// An ask whose requests are done.
fn asking(ask: Ask) -> Act
    ensures { result ≡ asking ask }
{
    Act::Ask(ask, Outcome::Ok)
}

// A number of device calls and an image, by the last two words.
fn fuse(words: &mut Words) -> Result<(u32, u8), Stop>
    ensures { Gives (λ x. x) result (fuse_at words.old) }
{
    let calls = number(words, 0, MOST)? as u32;
    let image = last_number(words, 0, 4)? as u8;
    Ok((calls, image))
}

// A transaction and a page, by the last two words.
fn txn_and_page(words: &mut Words) -> Result<(u8, u32), Stop>
    ensures { Gives (λ x. x) result (txn_and_page_at words.old) }
{
    let txn = number(words, 1, 64)? as u8;
    let page = last_number(words, 1, MOST)? as u32;
    Ok((txn, page))
}

// A database and the commit of the pages that the words after its size write.
fn commit(alloc: Global, page_size: u32, words: &mut Words) -> Result<(DbName, Commit), Stop>
    ensures { Gives (λ x. x) result (commit_at page_size words.old) }
{
    let db = name(words)?;
    let size = number(words, 0, MOST)? as u32;
    let pages = pairs(alloc, page_size, words)?;
    Ok((db, Commit { size, pages }))
}

// A database and the pages that the words after its name write.
fn new_database(
    alloc: Global,
    page_size: u32,
    words: &mut Words,
) -> Result<(DbName, Seq<Seq<u8>>), Stop>
    ensures { Gives (λ x. x) result (new_at page_size words.old) }
{
    let db = name(words)?;
    let pages = pages(alloc, page_size, words)?;
    Ok((db, pages))
}

// A task and the outcome of its request.
fn step(words: &mut Words) -> Result<(u8, Outcome), Stop>
    ensures { Gives (λ x. x) result (step_at words.old) }
{
    let task = number(words, 1, 16)? as u8;
    let outcome = outcome(words)?;
    Ok((task, outcome))
}
