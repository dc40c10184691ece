ghost use Rattle.std.specs.Prelude.{◌≡◌, ℕ, ◌+◌, ◌^◌, ◌<◌, ◌≤◌, ◌++◌, [], List, true, IfSome, OnOk};
ghost use Rattle.std.specs.Io.KnownBytes.{Appends};
ghost use Rattle.bcv_base.specs.Faults.{Rose};
ghost use Rattle.bcv_world.specs.LineEvents.{Keeps};
ghost use Rattle.bcv_world.specs.WorldForm.{IsWorld};
ghost use Rattle.bcv_keeprule.specs.Retention.{IsKeepRule};
ghost use Rattle.bcv_top.specs.MadeRun.{Generates, Playing, PlaysEvent, RanAll, count_line, status_by, summary_text};
ghost use Rattle.bcv_base.specs.declared.outcome.Outcome.TheVariants as outcome;
ghost use Rattle.bcv_model.specs.declared.event.Act.TheVariants as act;
ghost use Rattle.bcv_model.specs.declared.event.Event.TheVariants as event;

use crate::draws::Draws;
use crate::output::{Wrote, write_all};
use crate::replay::{Replayed, is_no_memory};
use bcv_base::{Outcome, Sink};
use bcv_commands::Status;
use bcv_keeprule::KeepRule;
use bcv_model::{Act, Ask, Event, WorldSpec};
use bcv_script::add_number;
use bcv_world::{Tally, World};
use std::alloc::{AllocError, Global};

// The lines of a script that are drawn.
const DRAWN: u64 = 1_998;

/// Runs the script that is made from a number, over a world of its own whose cleanups ask the rule, and writes the tally of its
/// replies: five lines.
pub fn generate_top<F: Fn(u64, u64, u64) -> bool, O: Sink>(
    alloc: Global,
    n: u64,
    rule: &KeepRule<F>,
    out: &mut O,
) -> Replayed
    requires rule { IsKeepRule (F.pre rule.now.rule) (F.post rule.now.rule) }
    ensures generates { (written : List ℕ) × Appends (O.given out.old) (O.given out.new) written
        × Generates n result.status result.world written }
    ensures cause { result.status ≡ Status.WriteFault
        → Rose (O.faults out.old) (O.faults out.new) }
{
    let Some(world) = ran(alloc, n, rule) else {
        return Replayed::at(Status::NoMemory, None);
    };
    let mut text = Vec::new(alloc);
    match add_summary(&world.tally(), &mut text) {
        Ok(()) => {}
        Err(_) => return Replayed::at(Status::NoMemory, None),
    }
    let bytes = text.as_slice();
    let wrote = write_all(out, bytes);
    Replayed::at(status_of(wrote), Some(world))
}

// How the writing of all output ends a command.
fn status_of(wrote: Wrote) -> Status
    ensures { result ≡ status_by wrote }
{
    match wrote {
        Wrote::All => Status::Done,
        Wrote::Failed => Status::WriteFault,
        Wrote::NoMemory => Status::NoMemory,
    }
}

// The world after all events of the script of a number, where memory was there.
fn ran<F: Fn(u64, u64, u64) -> bool>(alloc: Global, n: u64, rule: &KeepRule<F>) -> Option<World>
    requires rule { IsKeepRule (F.pre rule.now.rule) (F.post rule.now.rule) }
    ensures { IfSome result (RanAll n) }
{
    let mut world = begun(alloc, n, rule)?;
    let mut draws = Draws { x: n };
    let mut left = DRAWN;
    while left > 0 {
        let Ok(event) = draws.event(alloc) else {
            return None;
        };
        if !play(alloc, rule, &mut world, event) {
            return None;
        }
        left -= 1;
    }
    Some(world)
}

// A world in which the first client has made the container.
fn begun<F: Fn(u64, u64, u64) -> bool>(alloc: Global, n: u64, rule: &KeepRule<F>) -> Option<World>
    requires rule { IsKeepRule (F.pre rule.now.rule) (F.post rule.now.rule) }
    ensures { IfSome result (λ w. Playing n w n 1998) }
{
    let spec = WorldSpec {
        clients: 4,
        block: 1024,
        page: 512,
        retention: 50,
        slots: 4,
    };
    let Ok(mut world) = World::new(alloc, &spec) else {
        return None;
    };
    let create = Ask::Create {
        block: 1024,
        retention: 50,
    };
    if !play(alloc, rule, &mut world, first_asks(create)) {
        return None;
    }
    if !play(alloc, rule, &mut world, first_asks(Ask::Step { task: 1 })) {
        return None;
    }
    Some(world)
}

// The first client is asked, and each request is done.
fn first_asks(ask: Ask) -> Event
    ensures { result ≡ event.Of 1 (act.Ask ask outcome.Ok) }
{
    Event::Of {
        client: 1,
        act: Act::Ask(ask, Outcome::Ok),
    }
}

// Applies an event, and says whether memory was there.
fn play<F: Fn(u64, u64, u64) -> bool>(
    alloc: Global,
    rule: &KeepRule<F>,
    world: &mut World,
    event: Event,
) -> bool
    requires rule { IsKeepRule (F.pre rule.now.rule) (F.post rule.now.rule) }
    requires world { IsWorld world.old }
    requires few { world.old.tally.events < 2 ^ 62 }
    requires keeps { Keeps world.old.spec event }
    ensures { PlaysEvent result world.old world.new event }
{
    let said = world.apply(alloc, event, rule);
    !is_no_memory(&said.reply)
}

// Adds the five lines of a tally.
fn add_summary(tally: &Tally, into: &mut Vec<u8>) -> Result<(), AllocError>
    ensures { OnOk result (into.new.items ≡ into.old.items ++ summary_text tally.now) }
{
    add_count(b"events", tally.events, into)?;
    add_count(b"versions", tally.versions, into)?;
    add_count(b"pages", tally.pages, into)?;
    add_count(b"working", tally.working, into)?;
    add_count(b"other", tally.other, into)
}

// Adds a line of a word and a number.
fn add_count(word: &[u8], number: u64, into: &mut Vec<u8>) -> Result<(), AllocError>
    ensures { OnOk result (into.new.items ≡ into.old.items ++ count_line word.now number) }
{
    into.extend_from_slice(word)?;
    into.push(b' ')?;
    add_number(number, into)?;
    into.push(b'\n')?;
    Ok(())
}
