//! Answers as bytes to be written.
ghost use Rattle.std.specs.Prelude.{◌≡◌, ◌++◌, nat_le, length, IfOk, OnOk, OnErr};
ghost use Rattle.bcv_model.specs.ReplyText.{reply_text};
ghost use Rattle.bcv_proto.specs.Answers.{answer_text};
ghost use Rattle.bcv_daemon.specs.Responses.{answer_fits, fitted};

use bcv_model::Reply;
use bcv_proto::{Answer, rows_fit, write_answer};
use bcv_script::write_text;
use std::alloc::{AllocError, Global};

// The bytes of an answer after its length, at most, but for its kind and session.
const MOST_FIELDS: usize = 16_777_275;

// Adds an answer to a session, or that it is too large to be written.
pub(crate) fn add_answer(
    alloc: Global,
    session: u32,
    answer: &Answer,
    into: &mut Vec<u8>,
) -> Result<(), AllocError>
    ensures ok { OnOk result (into.new.items ≡ into.old.items ++ answer_text session (fitted answer.now)) }
    ensures err { OnErr result (into.new.items ≡ into.old.items) }
{
    if answer_fits(alloc, answer)? {
        write_answer(session, answer, into)
    } else {
        write_answer(session, &Answer::Refused(Reply::TooLarge), into)
    }
}

// Whether an answer is short enough to be written.
fn answer_fits(alloc: Global, answer: &Answer) -> Result<bool, AllocError>
    ensures { IfOk result (λ fits. fits ≡ answer_fits answer.now) }
{
    match answer {
        Answer::Bytes(bytes) => Ok(bytes.items().len() <= MOST_FIELDS),
        Answer::Rows(rows) => Ok(rows_fit(rows.items())),
        Answer::Refused(reply) => text_fits(alloc, reply),
        _ => Ok(true),
    }
}

// Whether a reply's text is short enough to be written.
fn text_fits(alloc: Global, reply: &Reply) -> Result<bool, AllocError>
    ensures { IfOk result (λ fits. fits ≡ nat_le (length (reply_text reply.now)) 16777275) }
{
    let mut text = Vec::new(alloc);
    write_text(reply, &mut text)?;
    Ok(text.len() <= MOST_FIELDS)
}
