ghost use Rattle.std.specs.Prelude.{◌≡◌, ◌≢◌, ℕ, ◌^◌, ◌<◌, ◌≤◌, [], false, List, length, Err};
ghost use Rattle.std.specs.Io.KnownBytes.{Appends, Consumes, IsAtEnd};
ghost use Rattle.bcv_base.specs.Faults.{Rose};
ghost use Rattle.bcv_world.specs.WorldForm.{IsWorld};
ghost use Rattle.bcv_keeprule.specs.Retention.{IsKeepRule};
ghost use Rattle.bcv_top.specs.Headline.{Replays, HasCauses};
ghost use Rattle.bcv_top.specs.Led.{IsReady, Steps, Says, SaysLast, First, Answers, end_of, is_no_memory, kept_at, stopped_by, writing_end_of};

use crate::output::{Wrote, write_all};
use bcv_base::{Sink, Source};
use bcv_commands::Status;
use bcv_keeprule::KeepRule;
use bcv_lines::{Lines, Next};
use bcv_model::Reply;
use bcv_script::{LineFault, read_line, read_world, write_reply};
use bcv_world::World;
use std::alloc::Global;

/// How a command ended, and the world that it ran: it stands for the state that the machine reaches by the events that were
/// applied. At a write fault the line whose reply met the fault is one of them. There is no world where no first line fixed
/// one, nor where memory ran out.
#[derive(Drop)]
pub struct Replayed {
    pub status: Status,
    pub world: Option<World>,
}

impl Replayed {
    // The end at a status. Where memory ran out in the midst of an event, the world stands for no state.
    pub(crate) fn at(status: Status, world: Option<World>) -> Replayed
        ensures status { result.status ≡ status }
        ensures world { result.world ≡ kept_at status world }
    {
        match status {
            Status::NoMemory => Replayed {
                status: Status::NoMemory,
                world: None,
            },
            status => Replayed { status, world },
        }
    }
}

/// Replays the script of the input over a world of its own, whose cleanups ask the rule: line by line, each reply is written
/// before more of the input is asked for.
pub fn replay_top<F: Fn(u64, u64, u64) -> bool, I: Source, O: Sink>(
    alloc: Global,
    rule: &KeepRule<F>,
    input: &mut I,
    out: &mut O,
) -> Replayed
    requires rule { IsKeepRule (F.pre rule.now.rule) (F.post rule.now.rule) }
    requires unended { I.ended input.old ≡ false }
    ensures words { result.status ≢ Status.BadWords }
    ensures replays { (taken : List ℕ) × (written : List ℕ)
        × Consumes (I.left input.old) (I.left input.new) taken
        × Appends (O.given out.old) (O.given out.new) written
        × Replays result.status result.world taken (IsAtEnd (I.left input.new)) written }
    ensures causes { HasCauses (I.faults input.old) (I.faults input.new)
        (O.faults out.old) (O.faults out.new) result.status }
{
    let mut reader = match Lines::new(alloc) {
        Ok(reader) => reader,
        Err(_) => return Replayed::at(Status::NoMemory, None),
    };
    let mut world = None;
    let mut number = 0;
    'lines: loop {
        match reader.next(input) {
            Next::Line => {
                number += 1;
                let line = reader.line.as_slice();
                match say(alloc, rule, &mut world, number, line, out) {
                    Ok(()) => {}
                    Err(status) => return Replayed::at(status, world),
                }
            }
            Next::Last => {
                let last = reader.line.as_slice();
                let status = say_last(alloc, rule, &mut world, number + 1, last, out);
                return Replayed::at(status, world);
            }
            Next::End => return Replayed::at(ended(&world), world),
            Next::TooLong => return Replayed::at(Status::TooLong, world),
            Next::ReadFault => return Replayed::at(Status::ReadFault, world),
            Next::NoMemory => return Replayed::at(Status::NoMemory, world),
        }
    }
}

// The status of an input that has ended after whole lines.
fn ended(world: &Option<World>) -> Status
    ensures { result ≡ end_of world.now }
{
    match world {
        Some(_) => Status::Done,
        None => Status::BadScript { line: 1, at: 0 },
    }
}

// Applies the last line, which ends with the input.
fn say_last<F: Fn(u64, u64, u64) -> bool, O: Sink>(
    alloc: Global,
    rule: &KeepRule<F>,
    world: &mut Option<World>,
    number: u64,
    line: &[u8],
    out: &mut O,
) -> Status
    requires rule { IsKeepRule (F.pre rule.now.rule) (F.post rule.now.rule) }
    requires ready { IsReady world.old }
    requires short { length line.now ≤ 1048576 }
    ensures says { (written : List ℕ) × Appends (O.given out.old) (O.given out.new) written
        × SaysLast result number world.old world.new line.now written }
    ensures later { O.faults out.old ≤ O.faults out.new }
    ensures cause { result ≡ Status.WriteFault → Rose (O.faults out.old) (O.faults out.new) }
{
    match say(alloc, rule, world, number, line, out) {
        Ok(()) => Status::Done,
        Err(status) => status,
    }
}

// Applies the line of a number and writes its reply; an error is how the replay ends there.
fn say<F: Fn(u64, u64, u64) -> bool, O: Sink>(
    alloc: Global,
    rule: &KeepRule<F>,
    world: &mut Option<World>,
    number: u64,
    line: &[u8],
    out: &mut O,
) -> Result<(), Status>
    requires rule { IsKeepRule (F.pre rule.now.rule) (F.post rule.now.rule) }
    requires ready { IsReady world.old }
    requires short { length line.now ≤ 1048576 }
    ensures says { (written : List ℕ) × Appends (O.given out.old) (O.given out.new) written
        × Says result number world.old world.new line.now written }
    ensures later { O.faults out.old ≤ O.faults out.new }
    ensures cause { result ≡ Err Status.WriteFault → Rose (O.faults out.old) (O.faults out.new) }
{
    let mut text = Vec::new(alloc);
    match step(alloc, rule, world, line, &mut text) {
        Ok(()) => {}
        Err(fault) => return Err(stopped(number, fault)),
    }
    let bytes = text.as_slice();
    let wrote = write_all(out, bytes);
    writing_end(wrote)
}

// The status of a line that gave nothing.
fn stopped(number: u64, fault: LineFault) -> Status
    ensures { result ≡ stopped_by number fault }
{
    match fault {
        LineFault::BadLine { at } => Status::BadScript { line: number, at },
        LineFault::NoMemory => Status::NoMemory,
    }
}

// What the writing of a reply comes to.
fn writing_end(wrote: Wrote) -> Result<(), Status>
    ensures { result ≡ writing_end_of wrote }
{
    match wrote {
        Wrote::All => Ok(()),
        Wrote::Failed => Err(Status::WriteFault),
        Wrote::NoMemory => Err(Status::NoMemory),
    }
}

// Takes a line: the first one fixes the world, each other one is an event in it.
fn step<F: Fn(u64, u64, u64) -> bool>(
    alloc: Global,
    rule: &KeepRule<F>,
    world: &mut Option<World>,
    line: &[u8],
    text: &mut Vec<u8>,
) -> Result<(), LineFault>
    requires rule { IsKeepRule (F.pre rule.now.rule) (F.post rule.now.rule) }
    requires ready { IsReady world.old }
    requires short { length line.now ≤ 1048576 }
    requires empty { text.old.items ≡ [] }
    ensures { Steps world.old world.new line.now text.new.items result }
{
    match world {
        Some(world) => answer(alloc, rule, world, line, text),
        None => {
            let first = first_world(alloc, line)?;
            *world = Some(first);
            Ok(())
        }
    }
}

// The world that a script's first line fixes.
fn first_world(alloc: Global, line: &[u8]) -> Result<World, LineFault>
    requires { length line.now ≤ 1048576 }
    ensures { First result line.now }
{
    let spec = read_world(line)?;
    let world = World::new(alloc, &spec)?;
    Ok(world)
}

// Applies a line's event to the world, and adds the text of what is said of it.
fn answer<F: Fn(u64, u64, u64) -> bool>(
    alloc: Global,
    rule: &KeepRule<F>,
    world: &mut World,
    line: &[u8],
    text: &mut Vec<u8>,
) -> Result<(), LineFault>
    requires rule { IsKeepRule (F.pre rule.now.rule) (F.post rule.now.rule) }
    requires world { IsWorld world.old }
    requires few { world.old.tally.events < 2 ^ 62 }
    requires short { length line.now ≤ 1048576 }
    requires empty { text.old.items ≡ [] }
    ensures { Answers result world.old world.new line.now text.new.items }
{
    let event = read_line(alloc, world.spec(), line)?;
    let said = world.apply(alloc, event, rule);
    if is_no_memory(&said.reply) {
        return Err(LineFault::NoMemory);
    }
    write_reply(&said, text)?;
    Ok(())
}

// Whether memory ran out in the event.
pub(crate) fn is_no_memory(reply: &Reply) -> bool
    ensures { result ≡ is_no_memory reply.now }
{
    matches!(reply, Reply::NoMemory)
}
