use bcv_proto::{Message, Parsed, read_message};
use std::test::*;

const BEGIN: [u8; 10] = [0, 0, 0, 6, 2, 0, 0, 0, 1, b'a'];

const READ: [u8; 21] = [
    0, 0, 0, 17, 3, 0, 0, 0, 1, 0, 0, 0, 0, 0, 0, 1, 0xff, 0, 0, 0, 4,
];

// Whether this is the begin above.
fn is_begin(found: &Parsed) -> bool {
    match found {
        Parsed::Whole(Message::Begin { session, db }, count) => {
            *session == 1 && *count == 10 && db.text() == b"a".as_slice()
        }
        _ => false,
    }
}

// Whether this is the read above, of four bytes at 511.
fn is_read(found: &Parsed) -> bool {
    match found {
        Parsed::Whole(Message::Read { session, off, len }, count) => {
            *session == 1 && *off == 511 && *len == 4 && *count == 21
        }
        _ => false,
    }
}

// Whether this is an end in session 1, of nine bytes.
fn is_end(found: &Parsed) -> bool {
    match found {
        Parsed::Whole(Message::End { session }, count) => *session == 1 && *count == 9,
        _ => false,
    }
}

#[test]
fn whole_messages(rt: HostRuntime) {
    assert!(rt; is_begin(&read_message(&BEGIN)));
    assert!(rt; is_read(&read_message(&READ)));
    assert!(rt; is_end(&read_message(&[0, 0, 0, 5, 4, 0, 0, 0, 1, 0, 0])));
}

#[test]
fn fronts_of_a_message(rt: HostRuntime) {
    for count in 0..10 {
        assert!(rt; matches!(read_message(&BEGIN[..count]), Parsed::Short));
    }
    assert!(rt; matches!(read_message(&[0, 0]), Parsed::Short));
}

#[test]
fn bytes_of_no_message(rt: HostRuntime) {
    assert!(rt; matches!(read_message(&[0, 0, 0, 4]), Parsed::Bad));
    assert!(rt; matches!(read_message(&[0, 0, 1]), Parsed::Bad));
    assert!(rt; matches!(read_message(&[0, 0, 0, 17, 2]), Parsed::Short));
    assert!(rt; matches!(read_message(&[0, 0, 0, 9, 3]), Parsed::Bad));
    assert!(rt;
        matches!(
            read_message(&[0, 0, 0, 7, 2, 0, 0, 0, 1, b'/']),
            Parsed::Bad
        )
    );
}
