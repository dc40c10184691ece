ghost use Rattle.std.specs.Prelude.{◌≡◌, ◌≢◌, ◌≤◌, Err, length};
ghost use Rattle.bcv_model.specs.Script.{world_of, event_of, pair_line_of};
ghost use Rattle.bcv_script.specs.Reading.{Answers};

use crate::act::event;
use crate::fault::LineFault;
use crate::page::last_pair;
use crate::stop::Stop;
use crate::words::Words;
use crate::world::world;
use bcv_model::{Event, WorldSpec};
use std::alloc::Global;

// The most bytes that a page has, and so the most that a line of the command `commit` may write.
const MOST_OF_PAGE: u32 = 65536;

/// Reads the world that a script's first line fixes. The line is given without its newline, and has at most 1,048,576
/// bytes.
#[tactic(auto, unfolding(bcv_model::specs::Script::world_of))]
pub fn read_world(line: &[u8]) -> Result<WorldSpec, LineFault>
    requires { length line.now ≤ 1048576 }
    ensures reads { Answers (λ s. s) result (world_of line.now) }
    ensures takes_no_memory { result ≢ Err LineFault.NoMemory }
{
    match world(&mut Words::of(line)) {
        Ok(spec) => Ok(spec),
        Err(stop) => Err(stop.placed(line)),
    }
}

/// Reads the event that a further line is, in a world of this kind.
#[tactic(auto, unfolding(bcv_model::specs::Script::event_of))]
pub fn read_line(alloc: Global, spec: &WorldSpec, line: &[u8]) -> Result<Event, LineFault>
    requires { length line.now ≤ 1048576 }
    ensures { Answers (λ e. e) result (event_of spec.now line.now) }
{
    match event(alloc, spec, &mut Words::of(line)) {
        Ok(event) => Ok(event),
        Err(stop) => Err(stop.placed(line)),
    }
}

/// Reads a line `P=TEXT` of the command `commit`, whose page number is to be above `after`: the number, and the bytes that
/// the text writes, none for `-`. A text may write as many bytes as the largest page has.
#[tactic(auto, unfolding(bcv_model::specs::Script::pair_line_of))]
pub fn read_pair(alloc: Global, after: u32, line: &[u8]) -> Result<(u32, Vec<u8>), LineFault>
    requires { length line.now ≤ 1048576 }
    ensures { Answers (λ x. (x.0, x.1.items)) result (pair_line_of after line.now) }
{
    match last_pair(alloc, MOST_OF_PAGE, after, &mut Words::of(line)) {
        Ok(pair) => Ok(pair),
        Err(stop) => Err(stop.placed(line)),
    }
}
