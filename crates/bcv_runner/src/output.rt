//! What a command writes at its end.
ghost use Rattle.std.specs.Prelude.{◌≡◌, ◌≢◌, ℕ, ◌≤◌, List, IfOk};
ghost use Rattle.std.specs.Io.KnownBytes.{Appends};
ghost use Rattle.bcv_base.specs.Faults.{Rose};
ghost use Rattle.bcv_output.specs.Writing.{IsSteady, Writes};
ghost use Rattle.bcv_runner.specs.Endings.{Outputs, line_of, status_of, output_of};

use crate::ending::Ending;
use bcv_base::Sink;
use bcv_commands::Status;
use bcv_model::Reply;
use bcv_output::{Wrote, write_all};
use bcv_script::write_text;
use std::alloc::{AllocError, Global};

// Writes what a command's end says: the line of its reply, the bytes that were read, or nothing.
pub fn write_ending<O: Sink>(alloc: Global, ending: Ending, out: &mut O) -> Status
    ensures output { (written : List ℕ) × Appends (O.given out.old) (O.given out.new) written
        × Outputs ending result written }
    ensures later { O.faults out.old ≤ O.faults out.new }
    ensures read { result ≡ Status.ReadFault → status_of ending ≡ Status.ReadFault }
    ensures write { result ≡ Status.WriteFault → status_of ending ≢ Status.WriteFault
        → Rose (O.faults out.old) (O.faults out.new) }
    ensures steady { result ≢ Status.WriteFault → O.faults out.new ≡ O.faults out.old }
    ensures words { result ≡ Status.BadWords → status_of ending ≡ Status.BadWords }
{
    match write_output(alloc, &ending, out) {
        Wrote::All => status_of(ending),
        Wrote::Failed => Status::WriteFault,
        Wrote::NoMemory => Status::NoMemory,
    }
}

// Writes the text of an ending.
fn write_output<O: Sink>(alloc: Global, ending: &Ending, out: &mut O) -> Wrote
    ensures bytes { (written : List ℕ) × Appends (O.given out.old) (O.given out.new) written
        × Writes result (output_of ending.now) written }
    ensures later { O.faults out.old ≤ O.faults out.new }
    ensures cause { result ≡ Wrote.Failed → Rose (O.faults out.old) (O.faults out.new) }
    ensures steady { IsSteady result (O.faults out.old) (O.faults out.new) }
{
    match ending {
        Ending::Replied(reply) => write_line(alloc, reply, out),
        Ending::Refused(reply) => write_line(alloc, reply, out),
        Ending::Read(bytes) => write_all(out, bytes.items()),
        Ending::Stopped(_) => write_all(out, &[]),
    }
}

// Writes a reply's line.
fn write_line<O: Sink>(alloc: Global, reply: &Reply, out: &mut O) -> Wrote
    ensures bytes { (written : List ℕ) × Appends (O.given out.old) (O.given out.new) written
        × Writes result (line_of reply.now) written }
    ensures later { O.faults out.old ≤ O.faults out.new }
    ensures cause { result ≡ Wrote.Failed → Rose (O.faults out.old) (O.faults out.new) }
    ensures steady { IsSteady result (O.faults out.old) (O.faults out.new) }
{
    match line_of(alloc, reply) {
        Ok(line) => write_all(out, &line),
        Err(_) => Wrote::NoMemory,
    }
}

// A reply's line.
fn line_of(alloc: Global, reply: &Reply) -> Result<Vec<u8>, AllocError>
    ensures { IfOk result (λ t. t.items ≡ line_of reply.now) }
{
    let mut line = Vec::new(alloc);
    write_text(reply, &mut line)?;
    line.push(b'\n')?;
    Ok(line)
}

fn status_of(ending: Ending) -> Status
    ensures { result ≡ status_of ending }
{
    match ending {
        Ending::Replied(_) | Ending::Read(_) => Status::Done,
        Ending::Refused(reply) => Status::Refused(reply),
        Ending::Stopped(status) => status,
    }
}
