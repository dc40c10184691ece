use crate::container::{ONE_PAGE, SIX_PAGES, bytes_of};
use crate::served::{Sent, made, serve};
use bcv_daemon::ServeEnd;
use std::alloc::{AllocError, Global};
use std::test::Fail;

const SESSION: &str = "00000006 02 00000001 61 00000005 01 00000000 00000006 02 00000001 61
    00000011 03 00000001 0000000000000000 00000002 00000011 03 00000001 00000000000001ff 00000004
    00000005 04 00000001 0000";

const SESSION_ANSWERS: &str = "00000010 40 00000001 6e6f2d6461746162617365
    0000000d 01 00000000 0000000000000002 00000015 02 00000001 0000000000000002 00000200 00000001
    00000007 03 00000001 aa00 00000006 03 00000001 00 00000005 00 00000001";

// Two sessions hold a block each, and a read of a third one is refused until one of them is freed.
const TWO_SESSIONS: &str = "00000005 01 00000000 00000006 02 00000001 61 00000006 02 00000002 61
    00000009 06 00000001 00000001 00000009 06 00000002 00000003
    00000011 03 00000001 0000000000000800 00000002 00000009 08 00000002 00000003
    00000011 03 00000001 0000000000000800 00000002 00000009 07 00000001 00000001
    00000005 05 00000007 00000006 02 00000001 61 00000005 04 00000009";

// A held page is looked at whole: after its first byte stand 511 zeros.
const TWO_ANSWERS: (&str, &str) = (
    "0000000d 01 00000000 0000000000000002
    00000015 02 00000001 0000000000000002 00000200 00000006
    00000015 02 00000002 0000000000000002 00000200 00000006
    00000005 00 00000001 00000005 00 00000002 0000000f 40 00000001 63616368652d66756c6c
    00000005 00 00000002 00000007 03 00000001 0500 00000205 03 00000001 01",
    "0000001f 05 00000007 00000001 01 61 0000000000000002 00000006 0000000000000000
    00000009 40 00000001 62757379 0000000b 40 00000009 6e6f2d74786e",
);

// What is answered to these messages over a container, in pieces of at most so many bytes.
fn answers(
    alloc: Global,
    (manifest, pages): (&str, &[u8]),
    messages: &str,
    piece: u16,
) -> Result<(Vec<u8>, ServeEnd), AllocError> {
    let mut served = made(alloc, manifest, pages)?;
    let sent = Sent {
        bytes: bytes_of(alloc, messages)?,
        piece: usize::from(piece) + 1,
        failing_take: 0,
        failing_give: 0,
    };
    serve(alloc, &mut served, sent)
}

#[test]
fn one_session_in_pieces(rt: HostRuntime) -> Result<(), Fail> {
    let wanted = bytes_of(rt.alloc(), SESSION_ANSWERS)?;
    for piece in [0, 1, 6, 65535] {
        let (written, end) = answers(rt.alloc(), (ONE_PAGE, &[0xaa]), SESSION, piece)?;
        assert!(rt; end == ServeEnd::BadMessage { at: 80 }, "{piece}");
        assert!(rt; written == wanted, "{piece}");
    }
    Ok(())
}

#[test]
fn two_sessions_over_two_slots(rt: HostRuntime) -> Result<(), Fail> {
    let alloc = rt.alloc();
    let mut wanted = bytes_of(alloc, TWO_ANSWERS.0)?;
    wanted.extend_from_slice(&[0; 511])?;
    wanted.extend_from_slice(bytes_of(alloc, TWO_ANSWERS.1)?.as_slice())?;
    for piece in [0, 65535] {
        let six = (SIX_PAGES, [1, 2, 3, 4, 5, 6].as_slice());
        let (written, end) = answers(alloc, six, TWO_SESSIONS, piece)?;
        assert!(rt; end == ServeEnd::Closed, "{piece}");
        assert!(rt; written == wanted, "{piece}");
    }
    Ok(())
}
