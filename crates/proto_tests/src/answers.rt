ghost use Rattle.std.specs.Prelude.{◌≡◌, IfOk};
ghost use Rattle.bcv_proto.specs.Answers.{FitsAnswer};

use bcv_base::Seq;
use bcv_model::Reply;
use bcv_proto::{Answer, write_answer};
use std::alloc::{AllocError, Global};
use std::test::*;

// Whether an answer in session 1 is written as these bytes, after what stood there.
fn is_written(alloc: Global, answer: &Answer, want: &[u8]) -> bool
    requires { FitsAnswer answer.now }
{
    let mut text = Vec::new(alloc);
    if text.push(0xff).is_err() || write_answer(1, answer, &mut text).is_err() {
        return false;
    }
    text[0] == 0xff && &text[1..] == want
}

fn seq_of(alloc: Global, bytes: &[u8]) -> Result<Seq<u8>, AllocError>
    ensures { IfOk result (λ s. s ≡ bytes.now) }
{
    let mut items = Vec::new(alloc);
    items.extend_from_slice(bytes)?;
    Ok(Seq::of(items))
}

#[test]
fn numbers(rt: HostRuntime) {
    let alloc = rt.alloc();
    assert!(rt; is_written(alloc, &Answer::Fine, &[0, 0, 0, 5, 0, 0, 0, 0, 1]));
    assert!(rt;
        is_written(
            alloc,
            &Answer::Polled(2),
            &[0, 0, 0, 13, 1, 0, 0, 0, 1, 0, 0, 0, 0, 0, 0, 0, 2]
        )
    );
    let begun = Answer::Begun {
        number: 2,
        page_size: 512,
        pages: 1,
    };
    assert!(rt;
        is_written(
            alloc,
            &begun,
            &[
                0, 0, 0, 21, 2, 0, 0, 0, 1, 0, 0, 0, 0, 0, 0, 0, 2, 0, 0, 2, 0, 0, 0, 0, 1
            ]
        )
    );
}

#[test]
#[tactic(auto, unfolding(bcv_model::specs::ReplyText::reply_text))]
fn texts(rt: HostRuntime) -> Result<(), Fail> {
    let alloc = rt.alloc();
    let bytes = Answer::Bytes(seq_of(alloc, &[0xaa, 0])?);
    assert!(rt; is_written(alloc, &bytes, &[0, 0, 0, 7, 3, 0, 0, 0, 1, 0xaa, 0]));
    let refused = Answer::Refused(Reply::NoDatabase);
    assert!(rt; is_written(alloc, &refused, b"\0\0\0\x10\x40\0\0\0\x01no-database"));
    let rows = Answer::Rows(Seq::of(Vec::new(alloc)));
    assert!(rt; is_written(alloc, &rows, &[0, 0, 0, 9, 5, 0, 0, 0, 1, 0, 0, 0, 0]));
    Ok(())
}
