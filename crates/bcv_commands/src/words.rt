ghost use Rattle.std.specs.Prelude.{◌≡◌, map, string_bytes};
ghost use Rattle.bcv_model.specs.Words.{meaning_in};
ghost use Rattle.bcv_commands.specs.Commands.{alone, command_of, command_words, command_with, database_in, long_number, size_of_word, length_of_word};
ghost use Rattle.bcv_commands.specs.declared.command.CommandWord.TheVariants as word;

use crate::arguments::Arguments;
use crate::block_size::block_size_of;
use crate::command::{Command, CommandWord};
use bcv_base::DbName;
use bcv_script::number_in;

// The most bytes that one read asks for.
const MOST_OF_READ: u64 = 16_777_216;

/// Reads the words of a command, from its own word on: `None` exactly where they are no command. The first `--` after the
/// command's word is dropped, and a word in front of it that begins with `-` is refused.
pub fn read_words(words: &[String]) -> Option<Command>
    ensures { result ≡ command_of (map string_bytes words.now) }
{
    let (first, rest) = words.split_first()?;
    let word = command_word(first.as_bytes())?;
    match Arguments::of(rest) {
        Some(arguments) => command(word, arguments),
        None => None,
    }
}

// The command that a word names.
fn command_word(word: &[u8]) -> Option<CommandWord>
    ensures { result ≡ meaning_in command_words word.now }
{
    if word == b"replay".as_slice() {
        Some(CommandWord::Replay)
    } else if word == b"generate".as_slice() {
        Some(CommandWord::Generate)
    } else if word == b"create".as_slice() {
        Some(CommandWord::Create)
    } else if word == b"new".as_slice() {
        Some(CommandWord::New)
    } else if word == b"upload".as_slice() {
        Some(CommandWord::Upload)
    } else if word == b"copy".as_slice() {
        Some(CommandWord::Copy)
    } else if word == b"drop".as_slice() {
        Some(CommandWord::Drop)
    } else if word == b"cleanup".as_slice() {
        Some(CommandWord::Cleanup)
    } else if word == b"poll".as_slice() {
        Some(CommandWord::Poll)
    } else if word == b"resolve".as_slice() {
        Some(CommandWord::Resolve)
    } else if word == b"list".as_slice() {
        Some(CommandWord::List)
    } else if word == b"commit".as_slice() {
        Some(CommandWord::Commit)
    } else if word == b"read".as_slice() {
        Some(CommandWord::Read)
    } else {
        None
    }
}

// The command of a word with its arguments.
fn command(word: CommandWord, arguments: Arguments) -> Option<Command>
    ensures { result ≡ command_with word arguments.entry }
{
    match word {
        CommandWord::Replay => alone(Command::Replay, arguments),
        CommandWord::Cleanup => alone(Command::Cleanup, arguments),
        CommandWord::Poll => alone(Command::Poll, arguments),
        CommandWord::Resolve => alone(Command::Resolve, arguments),
        CommandWord::List => alone(Command::List, arguments),
        CommandWord::Generate => generate(arguments),
        CommandWord::Create => create(arguments),
        CommandWord::New => Some(Command::New(database(arguments)?)),
        CommandWord::Upload => Some(Command::Upload(database(arguments)?)),
        CommandWord::Drop => Some(Command::Remove(database(arguments)?)),
        CommandWord::Copy => copy(arguments),
        CommandWord::Commit => commit(arguments),
        CommandWord::Read => read(arguments),
    }
}

// The command, where it has no argument.
fn alone(command: Command, arguments: Arguments) -> Option<Command>
    ensures { result ≡ alone command arguments.entry }
{
    arguments.none()?;
    Some(command)
}

fn generate(arguments: Arguments) -> Option<Command>
    ensures { result ≡ command_with word.Generate arguments.entry }
{
    let number = arguments.one()?;
    Some(Command::Generate(long_number(number)?))
}

fn create(arguments: Arguments) -> Option<Command>
    ensures { result ≡ command_with word.Create arguments.entry }
{
    let (block, retention) = arguments.two()?;
    let block = block_size_of(block)?;
    let retention = long_number(retention)?;
    Some(Command::Create { block, retention })
}

fn copy(arguments: Arguments) -> Option<Command>
    ensures { result ≡ command_with word.Copy arguments.entry }
{
    let (from, to) = arguments.two()?;
    let from = DbName::read(from)?;
    let to = DbName::read(to)?;
    Some(Command::Copy { from, to })
}

fn commit(arguments: Arguments) -> Option<Command>
    ensures { result ≡ command_with word.Commit arguments.entry }
{
    let (db, size) = arguments.two()?;
    let db = DbName::read(db)?;
    let size = size_of(size)?;
    Some(Command::Commit { db, size })
}

fn read(arguments: Arguments) -> Option<Command>
    ensures { result ≡ command_with word.Read arguments.entry }
{
    let (db, offset, length) = arguments.three()?;
    let db = DbName::read(db)?;
    let offset = long_number(offset)?;
    let length = length_of(length)?;
    Some(Command::Read { db, offset, length })
}

// The one database.
fn database(arguments: Arguments) -> Option<DbName>
    ensures { result ≡ database_in arguments.entry }
{
    let name = arguments.one()?;
    DbName::read(name)
}

fn long_number(word: &[u8]) -> Option<u64>
    ensures { result ≡ long_number word.now }
{
    number_in(word, 0, u64::MAX)
}

fn size_of(word: &[u8]) -> Option<u32>
    ensures { result ≡ size_of_word word.now }
{
    let size = number_in(word, 0, u64::from(u32::MAX))?;
    Some(size as u32)
}

fn length_of(word: &[u8]) -> Option<u32>
    ensures { result ≡ length_of_word word.now }
{
    let length = number_in(word, 0, MOST_OF_READ)?;
    Some(length as u32)
}
