ghost use Rattle.std.specs.Prelude.{◌≡◌, ◌++◌, ◌<◌, OnOk, OnErr, codes};
ghost use Rattle.std.specs.List.{flat_map};
ghost use Rattle.std.specs.Fmt.{decimal};
ghost use Rattle.bcv_base.specs.Names.{hex_of, hex_digit};
ghost use Rattle.bcv_model.specs.ReplyText.{said_text, reply_text, page_text, published_text, row_text, numbers_text, flag_text, trimmed};
ghost use Rattle.bcv_script.specs.Lines.{Adds, line_text, parts_text, part_text};

use bcv_model::{Reply, Row, Said};
use std::alloc::AllocError;

// A part of a line.
#[derive(Clone, Copy)]
enum Part<'a> {
    Word(&'a str),
    Bytes(&'a [u8]),
    Number(u64),
    Hex(&'a [u8]),
}

// The shapes of replies.
#[derive(Clone, Copy)]
enum Line<'a> {
    Word(&'a str),
    Counted(&'a str, u64),
    Task {
        task: u8,
        left: u32,
    },
    Cleaned {
        deleted: u32,
        more: bool,
    },
    Page(&'a [u8]),
    Table {
        word: &'a str,
        rows: &'a [Row],
        pending: bool,
    },
    Conflict {
        mine: &'a [u8],
        theirs: &'a [u8],
    },
    Contended(&'a [u64]),
    Unknown(&'a [u8]),
}

/// Adds the line of what is said, with its newline, to the end of `into`; it is as before where memory ran out.
pub fn write_reply(said: &Said, into: &mut Vec<u8>) -> Result<(), AllocError>
    ensures ok { OnOk result (into.new.items ≡ into.old.items ++ said_text said.now) }
    ensures err { OnErr result (into.new.items ≡ into.old.items) }
{
    let start = into.len();
    match add_said(said, into) {
        Ok(()) => Ok(()),
        Err(fault) => {
            into.truncate(start);
            Err(fault)
        }
    }
}

/// Adds a reply's text alone to the end of `into`; it is as before where memory ran out.
pub fn write_text(reply: &Reply, into: &mut Vec<u8>) -> Result<(), AllocError>
    ensures ok { OnOk result (into.new.items ≡ into.old.items ++ reply_text reply.now) }
    ensures err { OnErr result (into.new.items ≡ into.old.items) }
{
    let start = into.len();
    match add_text(reply, into) {
        Ok(()) => Ok(()),
        Err(fault) => {
            into.truncate(start);
            Err(fault)
        }
    }
}

fn add_text(reply: &Reply, into: &mut Vec<u8>) -> Result<(), AllocError>
    ensures { Adds result into.old.items into.new.items (reply_text reply.now) }
{
    add_line(&line_of(reply), into)
}

#[tactic(auto, using(crate::proofs::Adding::front_kept, crate::proofs::Adding::onto_more), unfolding(bcv_model::specs::ReplyText::said_text))]
fn add_said(said: &Said, into: &mut Vec<u8>) -> Result<(), AllocError>
    ensures { Adds result into.old.items into.new.items (said_text said.now) }
{
    add_published(said.published, into)?;
    add_text(&said.reply, into)?;
    into.push(b'\n')?;
    Ok(())
}

fn add_published(version: Option<u64>, into: &mut Vec<u8>) -> Result<(), AllocError>
    ensures { Adds result into.old.items into.new.items (published_text version) }
{
    match version {
        None => Ok(()),
        Some(version) => add_parts(
            &[Part::Word("+"), Part::Number(version), Part::Word(" ")],
            into,
        ),
    }
}

// A reply as a line: a word and what follows it.
#[tactic(auto, unfolding(bcv_model::specs::ReplyText::reply_text))]
fn line_of(reply: &Reply) -> Line<'_>
    ensures { line_text result ≡ reply_text reply.now }
{
    match reply {
        Reply::Page(bytes) => Line::Page(bytes.items()),
        Reply::Table { rows, pending } => Line::Table {
            word: "list",
            rows: rows.items(),
            pending: *pending,
        },
        Reply::UpAgain { rows, pending } => Line::Table {
            word: "up",
            rows: rows.items(),
            pending: *pending,
        },
        Reply::Contended(numbers) => Line::Contended(numbers),
        Reply::Txn(number) => Line::Counted("txn ", u64::from(*number)),
        Reply::Task { task, left } => Line::Task {
            task: *task,
            left: *left,
        },
        Reply::Working(left) => Line::Counted("working ", u64::from(*left)),
        Reply::Done(number) => Line::Counted("done ", *number),
        Reply::Polled(number) => Line::Counted("polled ", *number),
        Reply::Cleaned { deleted, more } => Line::Cleaned {
            deleted: *deleted,
            more: *more,
        },
        Reply::Resolved(number) => Line::Counted("resolved ", *number),
        Reply::Conflict { mine, theirs } => Line::Conflict {
            mine: &mine.0,
            theirs: &theirs.0,
        },
        Reply::BadBlock { len } => Line::Counted("bad-block ", *len),
        Reply::BadManifest { at } => Line::Counted("bad-manifest ", *at),
        Reply::NotJournal(at) => Line::Counted("bad-journal ", *at),
        Reply::BadImage(at) => Line::Counted("bad-image ", *at),
        Reply::Unknown(id) => Line::Unknown(&id.0),
        Reply::Fine => Line::Word("ok"),
        Reply::Held => Line::Word("held"),
        Reply::Voided => Line::Word("voided"),
        Reply::NoDatabase => Line::Word("no-database"),
        Reply::BadPage => Line::Word("bad-page"),
        Reply::NoTxn => Line::Word("no-txn"),
        Reply::NotHeld => Line::Word("not-held"),
        Reply::NoTask => Line::Word("no-task"),
        Reply::TooMany => Line::Word("too-many"),
        Reply::CacheFull => Line::Word("cache-full"),
        Reply::Nothing => Line::Word("nothing"),
        Reply::Pending => Line::Word("pending"),
        Reply::Busy => Line::Word("busy"),
        Reply::HasLocal => Line::Word("has-local"),
        Reply::Exists => Line::Word("exists"),
        Reply::NoContainer => Line::Word("no-container"),
        Reply::PageTooLarge => Line::Word("page-too-large"),
        Reply::TooLarge => Line::Word("too-large"),
        Reply::TooManyDatabases => Line::Word("too-many-databases"),
        Reply::WritersFull => Line::Word("writers-full"),
        Reply::DeleteListFull => Line::Word("delete-list-full"),
        Reply::ManifestTooLong => Line::Word("manifest-too-long"),
        Reply::VersionsFull => Line::Word("versions-full"),
        Reply::Gone => Line::Word("gone"),
        Reply::NameTaken => Line::Word("name-taken"),
        Reply::StoreFault => Line::Word("store-fault"),
        Reply::DiskFault => Line::Word("disk-fault"),
        Reply::NamesFault => Line::Word("names-fault"),
        Reply::ClockFault => Line::Word("clock-fault"),
        Reply::JournalFull => Line::Word("journal-full"),
        Reply::Closed => Line::Word("closed"),
        Reply::Down => Line::Word("down"),
        Reply::IsUp => Line::Word("is-up"),
        Reply::Crashed => Line::Word("crashed"),
        Reply::NoMemory => Line::Word("no-memory"),
    }
}

fn add_line(line: &Line, into: &mut Vec<u8>) -> Result<(), AllocError>
    ensures { Adds result into.old.items into.new.items (line_text line.now) }
{
    match line {
        Line::Word(word) => add_parts(&[Part::Word(word)], into),
        Line::Counted(word, number) => add_parts(&[Part::Word(word), Part::Number(*number)], into),
        Line::Task { task, left } => add_task(*task, *left, into),
        Line::Cleaned { deleted, more } => add_cleaned(*deleted, *more, into),
        Line::Page(bytes) => add_page(bytes, into),
        Line::Table {
            word,
            rows,
            pending,
        } => add_table(word, rows, *pending, into),
        Line::Conflict { mine, theirs } => add_parts(
            &[
                Part::Word("conflict "),
                Part::Hex(mine),
                Part::Word(" "),
                Part::Hex(theirs),
            ],
            into,
        ),
        Line::Contended(numbers) => add_numbers(numbers, into),
        Line::Unknown(id) => add_parts(&[Part::Word("unknown "), Part::Hex(id)], into),
    }
}

fn add_task(task: u8, left: u32, into: &mut Vec<u8>) -> Result<(), AllocError>
    ensures { Adds result into.old.items into.new.items
        (codes "task " ++ (decimal task ++ (codes " working " ++ decimal left))) }
{
    let parts = [
        Part::Word("task "),
        Part::Number(u64::from(task)),
        Part::Word(" working "),
        Part::Number(u64::from(left)),
    ];
    add_parts(&parts, into)
}

fn add_cleaned(deleted: u32, more: bool, into: &mut Vec<u8>) -> Result<(), AllocError>
    ensures { Adds result into.old.items into.new.items
        (codes "cleaned " ++ (decimal deleted ++ flag_text more (codes " more"))) }
{
    let number = Part::Number(u64::from(deleted));
    if more {
        add_parts(&[Part::Word("cleaned "), number, Part::Word(" more")], into)
    } else {
        add_parts(&[Part::Word("cleaned "), number], into)
    }
}

#[tactic(auto, using(crate::proofs::Adding::front_kept, crate::proofs::Adding::map_onto))]
fn add_parts(parts: &[Part], into: &mut Vec<u8>) -> Result<(), AllocError>
    ensures { Adds result into.old.items into.new.items (parts_text parts.now) }
{
    for part in parts {
        add_part(part, into)?;
    }
    Ok(())
}

fn add_part(part: &Part, into: &mut Vec<u8>) -> Result<(), AllocError>
    ensures { Adds result into.old.items into.new.items (part_text part.now) }
{
    match part {
        Part::Word(text) => into.extend_from_slice(text.as_bytes()),
        Part::Bytes(bytes) => into.extend_from_slice(bytes),
        Part::Number(number) => add_number(*number, into),
        Part::Hex(bytes) => add_hex(bytes, into),
    }
}

/// Adds a number's decimal digits to the end of `into`; what stood there before still begins it where memory ran out.
#[tactic(auto, using(crate::proofs::Adding::front_kept, crate::proofs::Adding::digit_only, crate::proofs::Adding::number_onto))]
pub fn add_number(number: u64, into: &mut Vec<u8>) -> Result<(), AllocError>
    ensures { Adds result into.old.items into.new.items (decimal number) }
{
    let digit = b'0' + (number % 10) as u8;
    if number < 10 {
        into.push(digit)?;
        return Ok(());
    }
    add_number(number / 10, into)?;
    into.push(digit)?;
    Ok(())
}

#[tactic(auto, using(crate::proofs::Adding::front_kept, crate::proofs::Adding::hex_onto))]
fn add_hex(bytes: &[u8], into: &mut Vec<u8>) -> Result<(), AllocError>
    ensures { Adds result into.old.items into.new.items (hex_of bytes.now) }
{
    for byte in bytes {
        into.extend_from_slice(&[hex_digit(*byte / 16), hex_digit(*byte % 16)])?;
    }
    Ok(())
}

// The character of a half byte.
fn hex_digit(half: u8) -> u8
    requires { half < 16 }
    ensures { result ≡ hex_digit half }
{
    if half < 10 {
        b'0' + half
    } else {
        b'a' - 10 + half
    }
}

// Adds a page's bytes up to the last one that isn't zero, or `-` for a page of zeros.
#[tactic(auto, using(crate::proofs::Adding::front_kept))]
fn add_page(bytes: &[u8], into: &mut Vec<u8>) -> Result<(), AllocError>
    ensures { Adds result into.old.items into.new.items (codes "page " ++ page_text bytes.now) }
{
    match trimmed(bytes) {
        [] => add_parts(&[Part::Word("page "), Part::Word("-")], into),
        written => add_parts(&[Part::Word("page "), Part::Hex(written)], into),
    }
}

// The bytes up to the last one that isn't zero.
#[tactic(auto, using(crate::proofs::Adding::trimmed_zero, crate::proofs::Adding::trimmed_other))]
fn trimmed(bytes: &[u8]) -> &[u8]
    ensures { result.now ≡ trimmed bytes.now }
{
    let mut rest = bytes;
    while let Some((last, front)) = rest.split_last() {
        if *last != 0 {
            return rest;
        }
        rest = front;
    }
    rest
}

#[tactic(auto, using(crate::proofs::Adding::front_kept, crate::proofs::Adding::onto_more))]
fn add_table(word: &str, rows: &[Row], pending: bool, into: &mut Vec<u8>) -> Result<(), AllocError>
    ensures { Adds result into.old.items into.new.items
        (word.now ++ (flat_map row_text rows.now ++ flag_text pending (codes " pending"))) }
{
    into.extend_from_slice(word.as_bytes())?;
    add_rows(rows, into)?;
    if pending {
        into.extend_from_slice(b" pending")
    } else {
        Ok(())
    }
}

#[tactic(auto, using(crate::proofs::Adding::front_kept, crate::proofs::Adding::map_onto))]
fn add_rows(rows: &[Row], into: &mut Vec<u8>) -> Result<(), AllocError>
    ensures { Adds result into.old.items into.new.items (flat_map row_text rows.now) }
{
    for row in rows {
        add_row(row, into)?;
    }
    Ok(())
}

fn add_row(row: &Row, into: &mut Vec<u8>) -> Result<(), AllocError>
    ensures { Adds result into.old.items into.new.items (row_text row.now) }
{
    let parts = [
        Part::Word(" "),
        Part::Bytes(row.name.text()),
        Part::Word(":"),
        Part::Number(row.number),
        Part::Word(":"),
        Part::Number(u64::from(row.pages)),
        Part::Word(":"),
        Part::Number(row.commits),
    ];
    add_parts(&parts, into)
}

#[tactic(auto, using(crate::proofs::Adding::front_kept, crate::proofs::Adding::onto_more))]
fn add_numbers(numbers: &[u64], into: &mut Vec<u8>) -> Result<(), AllocError>
    ensures { Adds result into.old.items into.new.items
        (codes "contended" ++ numbers_text numbers.now) }
{
    into.extend_from_slice(b"contended")?;
    add_each_number(numbers, into)
}

#[tactic(auto, using(crate::proofs::Adding::front_kept, crate::proofs::Adding::map_onto))]
fn add_each_number(numbers: &[u64], into: &mut Vec<u8>) -> Result<(), AllocError>
    ensures { Adds result into.old.items into.new.items (numbers_text numbers.now) }
{
    for number in numbers {
        add_parts(&[Part::Word(" "), Part::Number(*number)], into)?;
    }
    Ok(())
}
