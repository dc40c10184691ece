//! The commands over a source and a sink, a store and a disk. `replay` reads a script from any source, and writes what the machine's
//! clients reply to any sink; `generate` makes a script from a number, runs it, and writes the tally of its replies; every other
//! command is run by a client of its own over the store and the disk.
//!
//! It stands on `bcv_commands`, which reads words, on `bcv_runner`, which runs a command over a client, on `bcv_world`, which applies
//! events and stands for the machine's state, and on `bcv_script`, which reads lines and writes replies. It promises, for every
//! source and sink, in whatever pieces they move bytes, and for every rule on deleted blocks: at each status of a replay, what
//! was written is the text of replies that the machine accepts for the lines that were read, the world that is handed back stands
//! for the state that the machine reaches, its log is sound and no block was deleted too early; what a client's command did is
//! told as `bcv_runner` tells it; and each status other than want of memory comes only where its cause is.
#![tactic(auto)]

ghost use Rattle.std.specs.Prelude.{◌≡◌, ℕ, ◌↔◌, false, true, List, None, Some, map, string_bytes};
ghost use Rattle.std.specs.Io.KnownBytes.{Appends, Consumes, IsAtEnd};
ghost use Rattle.bcv_commands.specs.Commands.{command_of};
ghost use Rattle.bcv_commands.specs.declared.command.Command.{Command};
ghost use Rattle.bcv_keeprule.specs.Retention.{IsKeepRule};
ghost use Rattle.bcv_runner.specs.CommandAsks.{around};
ghost use Rattle.bcv_runner.specs.CommandRuns.{CommandRuns};
ghost use Rattle.bcv_runner.specs.Endings.{FaultCounted, is_store_fault};
ghost use Rattle.bcv_top.specs.ClientCommands.{RunsAlone, UsesClient, ran_of};
ghost use Rattle.bcv_top.specs.Commands.{RunsCommand};
ghost use Rattle.bcv_top.specs.Headline.{HasCauses};

mod draws;
mod generate;
mod output;
mod replay;

use bcv_base::{Clock, Names, Outside, Sink, Source};
pub use bcv_commands::Status;
use bcv_commands::{Command, read_words};
use bcv_disk::Disk;
use bcv_keeprule::KeepRule;
use bcv_runner::run_command;
use bcv_store::Store;
use bcv_world::World;
pub use generate::generate_top;
pub use replay::{Replayed, replay_top};
use std::alloc::Global;

/// How a command ended, the disk that it was given, and the world that a replay or a made script ran.
#[derive(Drop)]
pub struct Ended<D: Disk> {
    pub status: Status,
    pub disk: D,
    pub world: Option<World>,
}

/// Runs the command of these words, from the command's own word on.
///
/// `replay` reads a script from `input` and writes a reply line for each event to `out`, line by line, and a line is applied once
/// its newline or the end of the input was read; `generate N` runs the script that is made from the number N and writes the tally
/// of its replies. Both make a world of their own, which is handed on, and leave the disk and the outside alone. Every other
/// command brings a client up from the disk and asks it; the disk comes back with what the client's log keeps.
pub fn bcv_top<
    S: Store,
    D: Disk,
    C: Clock,
    N: Names,
    F: Fn(u64, u64, u64) -> bool,
    I: Source,
    O: Sink,
>(
    alloc: Global,
    words: &[String],
    disk: D,
    outside: &mut Outside<S, C, N>,
    rule: &KeepRule<F>,
    input: &mut I,
    out: &mut O,
) -> Ended<D>
    requires rule { IsKeepRule (F.pre rule.now.rule) (F.post rule.now.rule) }
    requires unended { I.ended input.old ≡ false }
    ensures words { (result.status ≡ Status.BadWords)
        ↔ (command_of (map string_bytes words.now) ≡ None) }
    ensures runs { (taken : List ℕ) × (written : List ℕ)
        × Consumes (I.left input.old) (I.left input.new) taken
        × Appends (O.given out.old) (O.given out.new) written
        × RunsCommand (command_of (map string_bytes words.now)) result.status result.world taken
        (IsAtEnd (I.left input.new)) written }
    ensures alone { RunsAlone (command_of (map string_bytes words.now))
        → (result.disk ≡ disk) × (outside.new ≡ outside.old) }
    ensures client { (c : Command) → command_of (map string_bytes words.now) ≡ Some c
        → UsesClient c → (taken : List ℕ) × (written : List ℕ)
        × Consumes (I.left input.old) (I.left input.new) taken
        × Appends (O.given out.old) (O.given out.new) written
        × CommandRuns ⟦<D as Disk>⟧ D.told D.shown S.told disk
        (around S.shown N.shown C.shown outside.old) (around S.shown N.shown C.shown outside.new) c
        (ran_of result) taken
        (IsAtEnd (I.left input.new)) written }
    ensures causes { HasCauses (I.faults input.old) (I.faults input.new)
        (O.faults out.old) (O.faults out.new) result.status }
    ensures disk { FaultCounted (D.shown disk).faults (D.shown result.disk).faults
        (result.status ≡ Status.DiskFault) }
    ensures store { FaultCounted (S.shown outside.old.store).faults
        (S.shown outside.new.store).faults (is_store_fault result.status ≡ true) }
    ensures names { FaultCounted (N.shown outside.old.names).faults
        (N.shown outside.new.names).faults (result.status ≡ Status.NamesFault) }
    ensures clock { FaultCounted (C.shown outside.old.clock).faults
        (C.shown outside.new.clock).faults (result.status ≡ Status.ClockFault) }
{
    let Some(command) = read_words(words) else {
        return Ended {
            status: Status::BadWords,
            disk,
            world: None,
        };
    };
    match command {
        Command::Replay => with_disk(replay_top(alloc, rule, input, out), disk),
        Command::Generate(number) => with_disk(generate_top(alloc, number, rule, out), disk),
        asked => {
            let ran = run_command(alloc, &asked, disk, outside, rule, input, out);
            Ended {
                status: ran.status,
                disk: ran.disk,
                world: None,
            }
        }
    }
}

// The end of a command that ran a world and left the disk alone.
fn with_disk<D: Disk>(ran: Replayed, disk: D) -> Ended<D>
    ensures status { result.status ≡ ran.status }
    ensures disk { result.disk ≡ disk }
    ensures world { result.world ≡ ran.world }
{
    let Replayed { status, world } = ran;
    Ended {
        status,
        disk,
        world,
    }
}
