//! What a reply is as an answer.
ghost use Rattle.std.specs.Prelude.{◌≡◌};
ghost use Rattle.bcv_daemon.specs.Responses.{begun_answer, fine_answer, held_answer, page_answer, polled_answer, rows_answer};

use bcv_model::Reply;
use bcv_proto::Answer;

// The answer to a poll.
pub(crate) fn polled_answer(reply: Reply) -> Answer
    ensures { result ≡ polled_answer reply }
{
    match reply {
        Reply::Polled(number) => Answer::Polled(number),
        reply => Answer::Refused(reply),
    }
}

// The answer to an end or a free.
pub(crate) fn fine_answer(reply: Reply) -> Answer
    ensures { result ≡ fine_answer reply }
{
    match reply {
        Reply::Fine => Answer::Fine,
        reply => Answer::Refused(reply),
    }
}

// The answer to a hold.
pub(crate) fn held_answer(reply: Reply) -> Answer
    ensures { result ≡ held_answer reply }
{
    match reply {
        Reply::Held => Answer::Fine,
        reply => Answer::Refused(reply),
    }
}

// The answer to a look.
pub(crate) fn page_answer(reply: Reply) -> Answer
    ensures { result ≡ page_answer reply }
{
    match reply {
        Reply::Page(bytes) => Answer::Bytes(bytes),
        reply => Answer::Refused(reply),
    }
}

// The answer to a list.
pub(crate) fn rows_answer(reply: Reply) -> Answer
    ensures { result ≡ rows_answer reply }
{
    match reply {
        Reply::Table { rows, pending: _ } => Answer::Rows(rows),
        reply => Answer::Refused(reply),
    }
}

// The answer to a begin over what the client says of the transaction.
pub(crate) fn begun_answer(opened: Option<(u64, u32, u32)>) -> Answer
    ensures { result ≡ begun_answer opened }
{
    match opened {
        Some((number, page_size, pages)) => Answer::Begun {
            number,
            page_size,
            pages,
        },
        None => Answer::Refused(Reply::NoTxn),
    }
}
