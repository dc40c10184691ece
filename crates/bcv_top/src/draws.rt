//! The events of a script that is made from a number.
ghost use Rattle.std.specs.Prelude.{◌≡◌, ◌<◌, ◌≤◌, ◌+◌, [], ◌∷◌, IfOk};
ghost use Rattle.bcv_top.specs.declared.draws.AskKind.TheVariants as kind;
ghost use Rattle.bcv_top.specs.Generated.{a_name, an_event, ask_kind, asked, below, line_kind, lined, page_with, up_to};

use bcv_base::{DbName, Outcome, Seq};
use bcv_model::{Act, Ask, Commit, Event};
use std::alloc::{AllocError, Global};

// What a line asks a client.
#[derive(Clone, Copy)]
pub enum AskKind {
    Poll,
    New,
    Begin,
    Read,
    Commit,
    Upload,
    Copy,
    Drop,
    Cleanup,
    Resolve,
    Revert,
    End,
    Hold,
    Step,
}

// The kinds of lines.
#[derive(Clone, Copy)]
pub enum LineKind {
    Tick,
    FailedStep,
    Asks(AskKind),
}

// The number that events are drawn from.
#[derive(Clone, Copy)]
pub struct Draws {
    pub x: u64,
}

impl Draws {
    // A number below a bound.
    fn below(&mut self, bound: u64) -> u64
        requires { 0 < bound }
        ensures value { result ≡ (below bound self.old.x).0 }
        ensures next { self.new.x ≡ (below bound self.old.x).1 }
        ensures range { result < bound }
    {
        self.x = self
            .x
            .wrapping_mul(6_364_136_223_846_793_005)
            .wrapping_add(1_442_695_040_888_963_407);
        (self.x >> 33) % bound
    }

    // A number from 1 to a bound.
    fn up_to(&mut self, bound: u64) -> u64
        requires { 0 < bound }
        ensures value { result ≡ (up_to bound self.old.x).0 }
        ensures next { self.new.x ≡ (up_to bound self.old.x).1 }
        ensures from { 1 ≤ result }
        ensures to { result ≤ bound }
    {
        self.below(bound) + 1
    }

    // One of three names.
    fn name(&mut self) -> DbName
        ensures value { result ≡ (a_name self.old.x).0 }
        ensures next { self.new.x ≡ (a_name self.old.x).1 }
    {
        named(b'a' + self.below(3) as u8)
    }

    // A byte.
    fn byte(&mut self) -> u8
        ensures value { result ≡ (below 256 self.old.x).0 }
        ensures next { self.new.x ≡ (below 256 self.old.x).1 }
    {
        self.below(256) as u8
    }

    // The event of one line.
    pub fn event(&mut self, alloc: Global) -> Result<Event, AllocError>
        ensures value { IfOk result (λ e. e ≡ (an_event self.old.x).0) }
        ensures next { self.new.x ≡ (an_event self.old.x).1 }
    {
        let client = self.up_to(4) as u8;
        let kind = line_kind(self.below(32));
        self.line(alloc, client, kind)
    }

    // The event of a client's line by its kind.
    fn line(&mut self, alloc: Global, client: u8, kind: LineKind) -> Result<Event, AllocError>
        ensures value { IfOk result (λ e. e ≡ (lined client kind self.old.x).0) }
        ensures next { self.new.x ≡ (lined client kind self.old.x).1 }
    {
        let (ask, outcome) = match kind {
            LineKind::Tick => return Ok(Event::Tick(self.below(40))),
            LineKind::FailedStep => (Ask::Step { task: 1 }, Outcome::Fail),
            LineKind::Asks(kind) => (self.ask(alloc, kind)?, Outcome::Ok),
        };
        Ok(Event::Of {
            client,
            act: Act::Ask(ask, outcome),
        })
    }

    // The ask of a line by its kind.
    fn ask(&mut self, alloc: Global, kind: AskKind) -> Result<Ask, AllocError>
        ensures value { IfOk result (λ q. q ≡ (asked kind self.old.x).0) }
        ensures next { self.new.x ≡ (asked kind self.old.x).1 }
    {
        match kind {
            AskKind::Poll => Ok(Ask::Poll),
            AskKind::New => self.new_database(alloc),
            AskKind::Begin => Ok(Ask::Begin(self.name())),
            AskKind::Read => {
                let txn = self.up_to(4) as u8;
                let page = self.up_to(4) as u32;
                Ok(Ask::Read { txn, page })
            }
            AskKind::Commit => self.commit(alloc),
            AskKind::Upload => Ok(Ask::Upload(self.name())),
            AskKind::Copy => {
                let from = self.name();
                let to = self.name();
                Ok(Ask::Copy { from, to })
            }
            AskKind::Drop => Ok(Ask::Remove(self.name())),
            AskKind::Cleanup => Ok(Ask::Cleanup),
            AskKind::Resolve => Ok(Ask::Resolve),
            AskKind::Revert => Ok(Ask::Revert(self.name())),
            AskKind::End => Ok(Ask::End {
                txn: self.up_to(4) as u8,
            }),
            AskKind::Hold => {
                let txn = self.up_to(4) as u8;
                let page = self.up_to(4) as u32;
                Ok(Ask::Hold { txn, page })
            }
            AskKind::Step => Ok(Ask::Step {
                task: self.up_to(3) as u8,
            }),
        }
    }

    // A new database of two pages.
    fn new_database(&mut self, alloc: Global) -> Result<Ask, AllocError>
        ensures value { IfOk result (λ q. q ≡ (asked kind.New self.old.x).0) }
        ensures next { self.new.x ≡ (asked kind.New self.old.x).1 }
    {
        let db = self.name();
        let first = self.byte();
        let second = self.byte();
        let pages = two_pages(alloc, first, second)?;
        Ok(Ask::NewDb {
            db,
            page_size: 512,
            pages,
        })
    }

    // A commit of one page.
    fn commit(&mut self, alloc: Global) -> Result<Ask, AllocError>
        ensures value { IfOk result (λ q. q ≡ (asked kind.Commit self.old.x).0) }
        ensures next { self.new.x ≡ (asked kind.Commit self.old.x).1 }
    {
        let db = self.name();
        let size = self.up_to(4);
        let page = self.up_to(size) as u32;
        let byte = self.byte();
        let pages = numbered_page(alloc, page, byte)?;
        let commit = Commit {
            size: size as u32,
            pages,
        };
        Ok(Ask::Commit { db, commit })
    }
}

// The name of one letter.
fn named(letter: u8) -> DbName
    requires from { 97 ≤ letter }
    requires to { letter < 100 }
    ensures { result ≡ letter ∷ [] }
{
    match DbName::read(&[letter]) {
        Some(name) => name,
        None => unreachable!(),
    }
}

// A page that begins with a byte.
fn page(alloc: Global, byte: u8) -> Result<Seq<u8>, AllocError>
    ensures { IfOk result (λ p. p ≡ page_with byte) }
{
    let mut bytes = Vec::new(alloc);
    bytes.push(byte)?;
    bytes.resize(512, 0)?;
    Ok(Seq::of(bytes))
}

// Two pages by their first bytes.
fn two_pages(alloc: Global, first: u8, second: u8) -> Result<Seq<Seq<u8>>, AllocError>
    ensures { IfOk result (λ ps. ps ≡ page_with first ∷ page_with second ∷ []) }
{
    let mut pages = Vec::new(alloc);
    pages.push(page(alloc, first)?)?;
    pages.push(page(alloc, second)?)?;
    Ok(Seq::of(pages))
}

// One page under its number, by its first byte.
fn numbered_page(alloc: Global, number: u32, byte: u8) -> Result<Seq<(u32, Seq<u8>)>, AllocError>
    ensures { IfOk result (λ ps. ps ≡ (number, page_with byte) ∷ []) }
{
    let mut pages = Vec::new(alloc);
    pages.push((number, page(alloc, byte)?))?;
    Ok(Seq::of(pages))
}

// A line's kind by a number below 32.
fn line_kind(number: u64) -> LineKind
    ensures { result ≡ line_kind number }
{
    match number {
        10 => LineKind::Tick,
        31 => LineKind::FailedStep,
        _ => LineKind::Asks(ask_kind(number)),
    }
}

// What a line asks, by a number below 32.
fn ask_kind(number: u64) -> AskKind
    ensures { result ≡ ask_kind number }
{
    match number {
        0 => AskKind::Poll,
        1 => AskKind::New,
        2 => AskKind::Begin,
        3 => AskKind::Read,
        4 => AskKind::Commit,
        5 => AskKind::Upload,
        6 => AskKind::Copy,
        7 => AskKind::Drop,
        8 => AskKind::Cleanup,
        9 => AskKind::Resolve,
        11 => AskKind::Revert,
        12 => AskKind::End,
        13 => AskKind::Hold,
        _ => AskKind::Step,
    }
}
