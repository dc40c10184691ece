ghost use Rattle.std.specs.Prelude.{◌≡◌, ◌+◌, ◌<◌, ◌≤◌, ◌^◌, ◌++◌, length, nat_le, OnOk, OnErr};
ghost use Rattle.std.specs.Int.{w32, w64, to_be_bytes};
ghost use Rattle.std.specs.List.{flat_map};
ghost use Rattle.bcv_base.specs.ManifestText.{counted};
ghost use Rattle.bcv_script.specs.Lines.{Adds};
ghost use Rattle.bcv_proto.specs.Answers.{answer_number, answer_fields, answer_text, begun_text, counts_text, measured_from, most_answer, name_text, row_fields, unmeasured, FitsAnswer};

use crate::answer::Answer;
use bcv_base::DbName;
use bcv_model::Row;
use bcv_script::write_text;
use std::alloc::AllocError;

// The bytes of an answer after its length, at most.
const MOST_ANSWER: usize = 16_777_280;

fn add_u32(number: u32, into: &mut Vec<u8>) -> Result<(), AllocError>
    ensures { Adds result into.old.items into.new.items (to_be_bytes w32 number) }
{
    into.extend_from_slice(&number.to_be_bytes())
}

fn add_u64(number: u64, into: &mut Vec<u8>) -> Result<(), AllocError>
    ensures { Adds result into.old.items into.new.items (to_be_bytes w64 number) }
{
    into.extend_from_slice(&number.to_be_bytes())
}

#[tactic(auto, using(bcv_script::proofs::Adding::front_kept, bcv_script::proofs::Adding::onto_more))]
fn add_name(name: &DbName, into: &mut Vec<u8>) -> Result<(), AllocError>
    ensures { Adds result into.old.items into.new.items (name_text name.now) }
{
    let text = name.text();
    into.push(text.len() as u8)?;
    into.extend_from_slice(text)
}

// Adds what a row says behind its name.
#[tactic(auto, using(bcv_script::proofs::Adding::front_kept, bcv_script::proofs::Adding::onto_more))]
fn add_counts(row: &Row, into: &mut Vec<u8>) -> Result<(), AllocError>
    ensures { Adds result into.old.items into.new.items (counts_text row.now) }
{
    add_u64(row.number, into)?;
    add_u32(row.pages, into)?;
    add_u64(row.commits, into)
}

#[tactic(auto, using(bcv_script::proofs::Adding::front_kept, bcv_script::proofs::Adding::onto_more))]
fn add_row(row: &Row, into: &mut Vec<u8>) -> Result<(), AllocError>
    ensures { Adds result into.old.items into.new.items (row_fields row.now) }
{
    add_name(&row.name, into)?;
    add_counts(row, into)
}

#[tactic(auto, using(bcv_script::proofs::Adding::front_kept, bcv_script::proofs::Adding::map_onto))]
fn add_each_row(rows: &[Row], into: &mut Vec<u8>) -> Result<(), AllocError>
    ensures { Adds result into.old.items into.new.items (flat_map row_fields rows.now) }
{
    for row in rows {
        add_row(row, into)?;
    }
    Ok(())
}

#[tactic(auto, using(bcv_script::proofs::Adding::front_kept, bcv_script::proofs::Adding::onto_more))]
fn add_rows(rows: &[Row], into: &mut Vec<u8>) -> Result<(), AllocError>
    requires { length rows.now < 2 ^ 32 }
    ensures { Adds result into.old.items into.new.items (counted row_fields rows.now) }
{
    add_u32(rows.len() as u32, into)?;
    add_each_row(rows, into)
}

#[tactic(auto, using(bcv_script::proofs::Adding::front_kept, bcv_script::proofs::Adding::onto_more))]
fn add_begun(number: u64, page_size: u32, pages: u32, into: &mut Vec<u8>) -> Result<(), AllocError>
    ensures { Adds result into.old.items into.new.items (begun_text number page_size pages) }
{
    add_u64(number, into)?;
    add_u32(page_size, into)?;
    add_u32(pages, into)
}

fn add_fields(answer: &Answer, into: &mut Vec<u8>) -> Result<(), AllocError>
    requires { FitsAnswer answer.now }
    ensures { Adds result into.old.items into.new.items (answer_fields answer.now) }
{
    match answer {
        Answer::Fine => Ok(()),
        Answer::Polled(number) => add_u64(*number, into),
        Answer::Begun {
            number,
            page_size,
            pages,
        } => add_begun(*number, *page_size, *pages, into),
        Answer::Bytes(bytes) => into.extend_from_slice(bytes.items()),
        Answer::Rows(rows) => add_rows(rows.items(), into),
        Answer::Refused(reply) => write_text(reply, into),
    }
}

// The bytes of a row.
fn row_len(row: &Row) -> usize
    ensures { result ≡ length (row_fields row.now) }
{
    row.name.text().len() + 21
}

/// Whether an answer of these rows is short enough to be written.
pub fn rows_fit(rows: &[Row]) -> bool
    ensures { result ≡ nat_le (5 + length (counted row_fields rows.now)) most_answer }
{
    let mut len = 9;
    for row in rows {
        let more = row_len(row);
        if more > MOST_ANSWER - len {
            return false;
        }
        len += more;
    }
    true
}

// The number of an answer's kind.
fn number_of(answer: &Answer) -> u8
    ensures { result ≡ answer_number answer.now }
{
    match answer {
        Answer::Fine => 0,
        Answer::Polled(_) => 1,
        Answer::Begun { .. } => 2,
        Answer::Bytes(_) => 3,
        Answer::Rows(_) => 5,
        Answer::Refused(_) => 64,
    }
}

// Adds an answer with zeros for its length.
#[tactic(auto, using(bcv_script::proofs::Adding::front_kept, bcv_script::proofs::Adding::onto_more))]
fn add_unmeasured(session: u32, answer: &Answer, into: &mut Vec<u8>) -> Result<(), AllocError>
    requires { FitsAnswer answer.now }
    ensures { Adds result into.old.items into.new.items (unmeasured session answer.now) }
{
    add_u32(0, into)?;
    into.push(number_of(answer))?;
    add_u32(session, into)?;
    add_fields(answer, into)
}

// Writes the length of what stands after the four bytes from a place on into these bytes.
fn measure(start: usize, into: &mut Vec<u8>)
    requires room { start + 4 ≤ length into.old.items }
    requires short { length into.old.items < start + 4 + 2 ^ 32 }
    ensures { into.new.items ≡ measured_from start into.old.items }
{
    let len = (into.len() - start - 4) as u32;
    into[start..start + 4].copy_from_slice(&len.to_be_bytes());
}

/// Adds an answer to a session at the end of `into`, which is as before where memory ran out.
pub fn write_answer(session: u32, answer: &Answer, into: &mut Vec<u8>) -> Result<(), AllocError>
    requires fits { FitsAnswer answer.now }
    ensures ok { OnOk result (into.new.items ≡ into.old.items ++ answer_text session answer.now) }
    ensures err { OnErr result (into.new.items ≡ into.old.items) }
{
    let start = into.len();
    match add_unmeasured(session, answer, into) {
        Ok(()) => {
            measure(start, into);
            Ok(())
        }
        Err(fault) => {
            into.truncate(start);
            Err(fault)
        }
    }
}
