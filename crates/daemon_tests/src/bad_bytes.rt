use crate::container::{ONE_PAGE, bytes_of};
use crate::served::{Sent, is_answered, made, serve};
use bcv_daemon::ServeEnd;
use std::test::Fail;

// A poll, a begin, a read and an end.
const MESSAGES: &str = "00000005 01 00000000 00000006 02 00000001 61
    00000011 03 00000001 00000000000001ff 00000004 00000005 04 00000001";

const ANSWERS: &str = "0000000d 01 00000000 0000000000000002
    00000015 02 00000001 0000000000000002 00000200 00000001 00000006 03 00000001 00
    00000005 00 00000001";

// Where each of them ends, and its answer.
const ENDS: [(usize, usize); 4] = [(9, 17), (19, 42), (40, 52), (49, 61)];

// Where the last whole message ends within so many bytes, and its answer.
fn last_whole(count: usize) -> (usize, usize) {
    let mut last = (0, 0);
    for (end, answered) in ENDS {
        if end <= count {
            last = (end, answered);
        }
    }
    last
}

#[test]
fn messages_cut_at_each_byte(rt: HostRuntime) -> Result<(), Fail> {
    let alloc = rt.alloc();
    let mut served = made(alloc, ONE_PAGE, &[0xaa])?;
    for count in 0..50usize {
        let mut bytes = bytes_of(alloc, MESSAGES)?;
        bytes.truncate(count);
        let mut answers = bytes_of(alloc, ANSWERS)?;
        let (from, answered) = last_whole(count);
        answers.truncate(answered);
        let end = if count == from {
            ServeEnd::Closed
        } else {
            ServeEnd::BadMessage { at: from as u64 }
        };
        let is_so = is_answered(alloc, &mut served, bytes, answers.as_slice(), end)?;
        assert!(rt; is_so, "{count}");
    }
    Ok(())
}

// What follows a poll, and is known to be no message before it is whole: lengths that no message has, lengths of other
// kinds, kinds that are none, a name and a length that cannot be.
const LIES: [&str; 16] = [
    "01",
    "0001",
    "00000000",
    "00000004",
    "00000046",
    "01000041",
    "ffffffff",
    "00000006 01",
    "00000005 02",
    "00000012 03",
    "00000009 04",
    "00000005 08",
    "00000005 00",
    "00000005 09",
    "00000007 02 00000001 2f",
    "00000011 03 00000001 0000000000000000 01000001",
];

#[test]
fn lengths_that_lie(rt: HostRuntime) -> Result<(), Fail> {
    let alloc = rt.alloc();
    let mut served = made(alloc, ONE_PAGE, &[0xaa])?;
    let polled = bytes_of(alloc, "0000000d 01 00000000 0000000000000002")?;
    for lie in LIES {
        let mut bytes = bytes_of(alloc, "00000005 01 00000000")?;
        bytes.extend_from_slice(bytes_of(alloc, lie)?.as_slice())?;
        // A second take would fail.
        let sent = Sent {
            bytes,
            piece: 65536,
            failing_take: 2,
            failing_give: 0,
        };
        let (written, end) = serve(alloc, &mut served, sent)?;
        assert!(rt; end == ServeEnd::BadMessage { at: 9 }, "{lie}");
        assert!(rt; written == polled, "{lie}");
    }
    Ok(())
}
