//! What a command does over a client, once its input was read.
ghost use Rattle.std.specs.Prelude.{◌≡◌, ◌≤◌, ℕ, false, List, Some, IsSome};
ghost use Rattle.std.specs.Io.KnownBytes.{Consumes, IsAtEnd};
ghost use Rattle.bcv_runner.specs.Operations.{InputCauses, PreparedInForm, Prepares, ReadsCommit, ReadsNew, RunsOverClient, file_ending, operation_of, pairs_ending};

use crate::ending::Ending;
use bcv_base::{DbName, Seq, Source};
use bcv_commands::{Command, DatabaseFile, FileFault, PairsFault, Status, read_file, read_pairs};
use bcv_model::{Ask, Reply};
use std::alloc::Global;

/// What a command does over a client.
#[derive(Drop)]
pub enum Operation {
    /// Publishes by this ask. Where it is not known whether the publication was made, one resolve follows.
    Publish(Ask),
    Poll,
    Resolve,
    List,
    /// Commits pages, each filled with zeros up to the size of the database's pages.
    Commit {
        db: DbName,
        size: u32,
        pages: Seq<(u32, Seq<u8>)>,
    },
    /// Reads the bytes of a database from this one on, at most so many.
    Read {
        db: DbName,
        offset: u64,
        length: u32,
    },
}

// What a command does, its input read; or how its input ends it.
pub fn prepare<I: Source>(
    alloc: Global,
    command: &Command,
    input: &mut I,
) -> Result<Operation, Ending>
    requires unended { I.ended input.old ≡ false }
    requires over { RunsOverClient command.now }
    ensures read { (taken : List ℕ) × Consumes (I.left input.old) (I.left input.new) taken
        × Prepares command.now result taken (IsAtEnd (I.left input.new)) }
    ensures form { PreparedInForm result }
    ensures later { I.faults input.old ≤ I.faults input.new }
    ensures causes { InputCauses (I.faults input.old) (I.faults input.new) result }
{
    match *command {
        Command::New(db) => read_new(alloc, db, input),
        Command::Commit { db, size } => read_commit(alloc, db, size, input),
        other => Ok(without_input(other)),
    }
}

// What a command does that has no input.
fn without_input(command: Command) -> Operation
    requires { IsSome (operation_of command) }
    ensures { operation_of command ≡ Some result }
{
    match command {
        Command::Create { block, retention } => {
            Operation::Publish(Ask::Create { block, retention })
        }
        Command::Upload(db) => Operation::Publish(Ask::Upload(db)),
        Command::Copy { from, to } => Operation::Publish(Ask::Copy { from, to }),
        Command::Remove(db) => Operation::Publish(Ask::Remove(db)),
        Command::Cleanup => Operation::Publish(Ask::Cleanup),
        Command::Poll => Operation::Poll,
        Command::Resolve => Operation::Resolve,
        Command::List => Operation::List,
        Command::Read { db, offset, length } => Operation::Read { db, offset, length },
        _ => unreachable!(),
    }
}

// Reads the database file that is published under a name.
fn read_new<I: Source>(alloc: Global, db: DbName, input: &mut I) -> Result<Operation, Ending>
    requires unended { I.ended input.old ≡ false }
    ensures read { (taken : List ℕ) × Consumes (I.left input.old) (I.left input.new) taken
        × ReadsNew db result taken (IsAtEnd (I.left input.new)) }
    ensures form { PreparedInForm result }
    ensures later { I.faults input.old ≤ I.faults input.new }
    ensures causes { InputCauses (I.faults input.old) (I.faults input.new) result }
{
    match read_file(alloc, input) {
        Ok(DatabaseFile { page_size, pages }) => Ok(Operation::Publish(Ask::NewDb {
            db,
            page_size,
            pages,
        })),
        Err(fault) => Err(file_ending(fault)),
    }
}

// Reads the pairs of a commit.
fn read_commit<I: Source>(
    alloc: Global,
    db: DbName,
    size: u32,
    input: &mut I,
) -> Result<Operation, Ending>
    requires unended { I.ended input.old ≡ false }
    ensures read { (taken : List ℕ) × Consumes (I.left input.old) (I.left input.new) taken
        × ReadsCommit db size result taken (IsAtEnd (I.left input.new)) }
    ensures form { PreparedInForm result }
    ensures later { I.faults input.old ≤ I.faults input.new }
    ensures causes { InputCauses (I.faults input.old) (I.faults input.new) result }
{
    match read_pairs(alloc, input) {
        Ok(pages) => Ok(Operation::Commit { db, size, pages }),
        Err(fault) => Err(pairs_ending(fault)),
    }
}

// How a command ends whose input is no database file.
fn file_ending(fault: FileFault) -> Ending
    ensures { result ≡ file_ending fault }
{
    match fault {
        FileFault::BadImage(at) => Ending::Refused(Reply::BadImage(at)),
        FileFault::TooLong => Ending::Stopped(Status::TooLong),
        FileFault::ReadFault => Ending::Stopped(Status::ReadFault),
        FileFault::NoMemory => Ending::Stopped(Status::NoMemory),
    }
}

// And how one whose input is no list of pairs.
fn pairs_ending(fault: PairsFault) -> Ending
    ensures { result ≡ pairs_ending fault }
{
    match fault {
        PairsFault::BadScript { line, at } => Ending::Stopped(Status::BadScript { line, at }),
        PairsFault::TooLong => Ending::Stopped(Status::TooLong),
        PairsFault::ReadFault => Ending::Stopped(Status::ReadFault),
        PairsFault::NoMemory => Ending::Stopped(Status::NoMemory),
    }
}
