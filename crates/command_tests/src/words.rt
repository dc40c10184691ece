use bcv_base::{DbName, Id16};
use bcv_commands::{Command, Status, What, read_words};
use bcv_model::Reply;
use std::alloc::{AllocError, Global};
use std::test::Fail;

// The command that words say, parted by spaces.
fn command(alloc: Global, text: &str) -> Result<Option<Command>, AllocError> {
    let mut words = Vec::new(alloc);
    for word in text.split(' ') {
        words.push(format!(in alloc; "{word}")?)?;
    }
    Ok(read_words(&words))
}

#[test]
fn words(rt: HostRuntime) -> Result<(), Fail> {
    let shop = DbName::read(b"shop").unwrap();
    let dash = DbName::read(b"-a").unwrap();
    for (text, want) in [
        ("replay", Some(Command::Replay)),
        (
            "create 4194304 86400",
            Some(Command::Create {
                block: 4_194_304,
                retention: 86_400,
            }),
        ),
        (
            "read shop 12287990 100",
            Some(Command::Read {
                db: shop,
                offset: 12_287_990,
                length: 100,
            }),
        ),
        (
            "copy shop -- -a",
            Some(Command::Copy {
                from: shop,
                to: dash,
            }),
        ),
        ("drop -a", None),
        ("frob", None),
    ] {
        assert_eq!(rt; command(rt.alloc(), text)?, want, "{text}");
    }
    Ok(())
}

#[test]
fn codes(rt: HostRuntime) {
    assert_eq!(rt; Status::Done.code(), 0);
    assert_eq!(rt; Status::Refused(Reply::NoContainer).code(), 9);
    let unknown = Status::Unknown(Id16([0; 16]));
    assert_eq!(rt; unknown.code(), 10);
    let bad = Status::BadStore {
        what: What::Journal,
        at: 8,
    };
    assert_eq!(rt; bad.code(), 14);
}
