ghost use Rattle.std.specs.Prelude.{◌≤◌, length};

use bcv_base::{DbName, Id16, Seq};
use bcv_model::{Act, Ask, Event, Outcome, Reply, Row, Said, WorldSpec};
use bcv_script::{LineFault, read_line, read_pair, read_world, write_reply};
use std::alloc::{AllocError, Global};
use std::test::Fail;

const SPEC: WorldSpec = WorldSpec {
    clients: 3,
    block: 1024,
    page: 512,
    retention: 50,
    slots: 4,
};

fn bytes_of(text: &str) -> &[u8]
    ensures { length result.now ≤ 1048576 }
{
    let bytes = text.as_bytes();
    &bytes[..bytes.len().min(1048576)]
}

#[test]
fn worlds(rt: HostRuntime) {
    let largest = WorldSpec {
        clients: 16,
        block: 16777216,
        page: 65536,
        retention: u64::MAX,
        slots: 64,
    };
    let smallest = WorldSpec {
        clients: 1,
        block: 512,
        page: 512,
        retention: 0,
        slots: 1024,
    };
    for (line, want) in [
        (
            "world 16 16777216 65536 18446744073709551615 64",
            Ok(largest),
        ),
        ("world 1 512 512 0 1024", Ok(smallest)),
        ("", bad(0)),
        (" ", bad(0)),
        ("World 1 512 512 0 1024", bad(0)),
        ("world", bad(5)),
        ("world ", bad(6)),
        ("world 0 512 512 0 1024", bad(6)),
        ("world 01 512 512 0 1024", bad(6)),
        ("world 17 512 512 0 1024", bad(6)),
        ("world 1", bad(7)),
        ("world 1  512 512 0 1024", bad(8)),
        ("world 1 256 512 0 1024", bad(8)),
        ("world 1 513 512 0 1024", bad(8)),
        ("world 1 33554432 512 0 1", bad(8)),
        ("world 1 512 1024 0 1024", bad(12)),
        ("world 1 512 513 0 1024", bad(12)),
        ("world 1 512 512", bad(15)),
        ("world 1 512 512 18446744073709551616 1024", bad(16)),
        (
            "world 1 512 512 99999999999999999999999999999 1024",
            bad(16),
        ),
        ("world 1 512 512 0", bad(17)),
        ("world 1 512 512 0 0", bad(18)),
        ("world 1 512 512 0 1025", bad(18)),
        ("world 16 16777216 65536 0 65", bad(26)),
        ("world 1 512 512 0 1024 ", bad(23)),
        ("world 1 512 512 0 1024 1", bad(23)),
    ] {
        assert_eq!(rt; read_world(bytes_of(line)), want, "{line}");
    }
}

fn bad(at: u32) -> Result<WorldSpec, LineFault> {
    Err(LineFault::BadLine { at })
}

// Each line of the grammar, as it is read.
#[test]
fn events(rt: HostRuntime) -> Result<(), Fail> {
    for (line, want) in [
        ("tick 0", "tick 0"),
        ("tick 18446744073709551615", "tick 18446744073709551615"),
        ("1 up", "1 up"),
        ("1 crash 4", "1 crash 4"),
        ("1 fuse 4294967295 0", "1 fuse 4294967295 0"),
        ("1 fail 0", "1 fail 0"),
        ("1 begin Main-2_copy.db", "1 begin Main-2_copy.db"),
        ("2 read 64 4294967295", "2 read 64 4294967295"),
        ("2 hold 1 2", "2 hold 1 2"),
        ("2 look 1 2", "2 look 1 2"),
        ("2 free 1 2", "2 free 1 2"),
        ("2 end 64", "2 end 64"),
        ("1 commit a 0", "1 commit a 0:"),
        (
            "1 commit a 2 1=- 3=ff 4294967295=0a00",
            "1 commit a 2: 1=512:0 3=512:255 4294967295=512:10",
        ),
        ("1 revert a", "1 revert a"),
        ("1 list", "1 list"),
        ("3 create", "3 create 1024 50"),
        ("1 new a", "1 new a 512:"),
        ("1 new a - 0a ff00", "1 new a 512: 512:0 512:10 512:255"),
        ("1 upload a", "1 upload a"),
        ("2 copy a b.c", "2 copy a b.c"),
        ("3 drop a", "3 drop a"),
        ("1 poll", "1 poll"),
        ("1 cleanup", "1 cleanup"),
        ("1 resolve", "1 resolve"),
        ("1 step 16", "1 step 16 ok"),
        ("1 step 1 fail", "1 step 1 fail"),
        ("1 step 1 lost", "1 step 1 lost"),
    ] {
        assert_eq!(rt; shown(rt.alloc(), line)?.as_str(), want, "{line}");
    }
    Ok(())
}

// Lines that are bad, each at the place of the first word that cannot stand.
#[test]
fn bad_events(rt: HostRuntime) {
    for (line, at) in [
        ("", 0u32),
        (" ", 0),
        (" 1 poll", 0),
        ("0 poll", 0),
        ("4 poll", 0),
        ("01 poll", 0),
        ("1\t poll", 0),
        ("Tick 1", 0),
        ("\u{e9} poll", 0),
        ("world 1 512 512 0 1", 0),
        ("1", 1),
        ("1 ", 2),
        ("1  poll", 2),
        ("1 forget", 2),
        ("1 Poll", 2),
        ("1 poll\r", 2),
        ("1 poll\0", 2),
        ("1 tick 1", 2),
        ("tick", 4),
        ("tick ", 5),
        ("tick -1", 5),
        ("tick 01", 5),
        ("tick 18446744073709551616", 5),
        ("tick 1 1", 7),
        ("1 up 1", 5),
        ("1 list ", 7),
        ("1 create 1024", 9),
        ("1 crash", 7),
        ("1 crash 5", 8),
        ("1 crash 0 0", 10),
        ("1 fuse 4294967296 0", 7),
        ("1 fuse 0", 8),
        ("1 fuse 0 5", 9),
        ("1 fail 4294967296", 7),
        ("1 begin", 7),
        ("1 begin ", 8),
        ("1 begin a/b", 8),
        (
            "1 begin 01234567890123456789012345678901234567890123456789012345678901234",
            8,
        ),
        ("1 begin a b", 10),
        ("2 read 65 1", 7),
        ("2 read 0 1", 7),
        ("2 read 1 0", 9),
        ("2 hold 1 4294967296", 9),
        ("2 look 1", 8),
        ("2 free 1 1 ", 11),
        ("2 end 65", 6),
        ("1 commit a", 10),
        ("1 commit a 4294967296", 11),
        ("1 commit a 1 0=aa", 13),
        ("1 commit a 1 1", 13),
        ("1 commit a 1 1=", 13),
        ("1 commit a 1 =aa", 13),
        ("1 commit a 1 1=aA", 13),
        ("1 commit a 1 1=a", 13),
        ("1 commit a 1 1==aa", 13),
        ("1 commit a 9 2=aa 2=bb", 18),
        ("1 commit a 9 2=aa 3=bb 1=cc", 23),
        ("1 commit a 9 2=aa ", 18),
        ("1 new a - 0", 10),
        ("1 new a 0A", 8),
        ("1 new a 0g", 8),
        ("1 new a  00", 8),
        ("1 copy a b c", 11),
        ("1 drop", 6),
        ("1 step 17 lose", 7),
        ("1 step 1 lose", 9),
        ("1 step 1 ", 9),
        ("1 step 1 fail fail", 14),
    ] {
        let read = read_line(rt.alloc(), &SPEC, bytes_of(line));
        assert_eq!(rt; read.err(), Some(LineFault::BadLine { at }), "{line}");
    }
}

#[test]
fn whole_pages(rt: HostRuntime) -> Result<(), Fail> {
    let mut line = Vec::new(rt.alloc());
    line.extend_from_slice(b"1 new a ")?;
    line.resize(8 + 1024, b'7')?;
    assert_eq!(rt;
        shown_bytes(rt.alloc(), &line)?.as_str(),
        "1 new a 512: 512:119"
    );
    line.resize(8 + 1026, b'7')?;
    assert_eq!(rt; shown_bytes(rt.alloc(), &line)?.as_str(), "bad 8");
    Ok(())
}

#[test]
fn pairs(rt: HostRuntime) -> Result<(), Fail> {
    for (after, line, want) in [
        (0u32, "1=-", "1:"),
        (0, "1=00", "1: 0"),
        (6, "7=0aff", "7: 10 255"),
        (4294967294, "4294967295=ff", "4294967295: 255"),
        (7, "7=0aff", "bad 0"),
        (4294967295, "4294967295=ff", "bad 0"),
        (0, "", "bad 0"),
        (0, "01=ff", "bad 0"),
        (0, "1=f", "bad 0"),
        (0, "1", "bad 0"),
        (0, "1=", "bad 0"),
        (0, "1=ff ", "bad 5"),
        (0, "1=ff 2=ff", "bad 5"),
    ] {
        assert_eq!(rt;
            shown_pair(rt.alloc(), after, line)?.as_str(),
            want,
            "{line}"
        );
    }
    Ok(())
}

fn shown_pair(alloc: Global, after: u32, line: &str) -> Result<String, AllocError> {
    match read_pair(alloc, after, bytes_of(line)) {
        Ok((page, bytes)) => {
            let mut text = format!(in alloc; "{page}:")?;
            for byte in &bytes {
                text.push_str(format!(in alloc; " {byte}")?.as_str())?;
            }
            Ok(text)
        }
        Err(fault) => shown_fault(alloc, fault),
    }
}

fn shown_fault(alloc: Global, fault: LineFault) -> Result<String, AllocError> {
    match fault {
        LineFault::BadLine { at } => format!(in alloc; "bad {at}"),
        LineFault::NoMemory => Err(AllocError),
    }
}

fn shown(alloc: Global, line: &str) -> Result<String, AllocError> {
    shown_bytes(alloc, bytes_of(line))
}

fn shown_bytes(alloc: Global, line: &[u8]) -> Result<String, AllocError> {
    if line.len() > 1048576 {
        return String::from_str(alloc, "long");
    }
    match read_line(alloc, &SPEC, line) {
        Ok(Event::Tick(seconds)) => format!(in alloc; "tick {seconds}"),
        Ok(Event::Of { client, act }) => {
            let text = shown_act(alloc, &act)?;
            format!(in alloc; "{client} {text}")
        }
        Err(fault) => shown_fault(alloc, fault),
    }
}

fn shown_act(alloc: Global, act: &Act) -> Result<String, AllocError> {
    match act {
        Act::Up => String::from_str(alloc, "up"),
        Act::Crash { image } => format!(in alloc; "crash {image}"),
        Act::Fuse { calls, image } => format!(in alloc; "fuse {calls} {image}"),
        Act::FailAt { calls } => format!(in alloc; "fail {calls}"),
        Act::Ask(Ask::Step { task }, outcome) => {
            let outcome = match outcome {
                Outcome::Ok => "ok",
                Outcome::Fail => "fail",
                Outcome::Lost => "lost",
            };
            format!(in alloc; "step {task} {outcome}")
        }
        Act::Ask(ask, Outcome::Ok) => shown_ask(alloc, ask),
        Act::Ask(_, _) => String::from_str(alloc, "not done"),
    }
}

fn shown_ask(alloc: Global, ask: &Ask) -> Result<String, AllocError> {
    match ask {
        Ask::Begin(db) => format!(in alloc; "begin {db:?}"),
        Ask::Read { txn, page } => format!(in alloc; "read {txn} {page}"),
        Ask::Hold { txn, page } => format!(in alloc; "hold {txn} {page}"),
        Ask::Look { txn, page } => format!(in alloc; "look {txn} {page}"),
        Ask::Free { txn, page } => format!(in alloc; "free {txn} {page}"),
        Ask::End { txn } => format!(in alloc; "end {txn}"),
        Ask::Commit { db, commit } => {
            let mut text = format!(in alloc; "commit {db:?} {}:", commit.size)?;
            for (number, page) in commit.pages.items() {
                let page = shown_page(alloc, page)?;
                text.push_str(format!(in alloc; " {number}={page}")?.as_str())?;
            }
            Ok(text)
        }
        Ask::Revert(db) => format!(in alloc; "revert {db:?}"),
        Ask::List => String::from_str(alloc, "list"),
        Ask::Create { block, retention } => format!(in alloc; "create {block} {retention}"),
        Ask::NewDb {
            db,
            page_size,
            pages,
        } => {
            let mut text = format!(in alloc; "new {db:?} {page_size}:")?;
            for page in pages.items() {
                let page = shown_page(alloc, page)?;
                text.push_str(format!(in alloc; " {page}")?.as_str())?;
            }
            Ok(text)
        }
        Ask::Upload(db) => format!(in alloc; "upload {db:?}"),
        Ask::Copy { from, to } => format!(in alloc; "copy {from:?} {to:?}"),
        Ask::Remove(db) => format!(in alloc; "drop {db:?}"),
        Ask::Poll => String::from_str(alloc, "poll"),
        Ask::Cleanup => String::from_str(alloc, "cleanup"),
        Ask::Resolve => String::from_str(alloc, "resolve"),
        Ask::Step { task } => format!(in alloc; "step {task}"),
    }
}

// A page's length and its first byte.
fn shown_page(alloc: Global, page: &Seq<u8>) -> Result<String, AllocError> {
    let first = page.items().first().copied().unwrap_or(0);
    format!(in alloc; "{}:{first}", page.items().len())
}

#[test]
fn replies(rt: HostRuntime) -> Result<(), Fail> {
    let alloc = rt.alloc();
    let mine = Id16([0, 1, 2, 3, 4, 5, 6, 7, 8, 9, 10, 11, 12, 13, 254, 255]);
    let theirs = Id16([16; 16]);
    for (reply, want) in [
        (Reply::Fine, "ok\n"),
        (Reply::Txn(64), "txn 64\n"),
        (Reply::Task { task: 16, left: 1 }, "task 16 working 1\n"),
        (Reply::Working(4294967295), "working 4294967295\n"),
        (Reply::Held, "held\n"),
        (Reply::Done(u64::MAX), "done 18446744073709551615\n"),
        (Reply::Polled(0), "polled 0\n"),
        (
            Reply::Cleaned {
                deleted: 100,
                more: false,
            },
            "cleaned 100\n",
        ),
        (
            Reply::Cleaned {
                deleted: 0,
                more: true,
            },
            "cleaned 0 more\n",
        ),
        (Reply::Resolved(10), "resolved 10\n"),
        (Reply::Voided, "voided\n"),
        (Reply::NoDatabase, "no-database\n"),
        (Reply::BadPage, "bad-page\n"),
        (Reply::NoTxn, "no-txn\n"),
        (Reply::NotHeld, "not-held\n"),
        (Reply::NoTask, "no-task\n"),
        (Reply::TooMany, "too-many\n"),
        (Reply::CacheFull, "cache-full\n"),
        (Reply::Nothing, "nothing\n"),
        (Reply::Pending, "pending\n"),
        (Reply::Busy, "busy\n"),
        (Reply::HasLocal, "has-local\n"),
        (Reply::Exists, "exists\n"),
        (Reply::NoContainer, "no-container\n"),
        (Reply::PageTooLarge, "page-too-large\n"),
        (Reply::TooLarge, "too-large\n"),
        (Reply::TooManyDatabases, "too-many-databases\n"),
        (
            Reply::Conflict { mine, theirs },
            "conflict 000102030405060708090a0b0c0dfeff 10101010101010101010101010101010\n",
        ),
        (Reply::WritersFull, "writers-full\n"),
        (Reply::DeleteListFull, "delete-list-full\n"),
        (Reply::ManifestTooLong, "manifest-too-long\n"),
        (Reply::VersionsFull, "versions-full\n"),
        (
            Reply::Contended([1, 2, 3, 4, 5, 6, 7, 80]),
            "contended 1 2 3 4 5 6 7 80\n",
        ),
        (Reply::Gone, "gone\n"),
        (Reply::BadBlock { len: 9 }, "bad-block 9\n"),
        (Reply::BadManifest { at: 8 }, "bad-manifest 8\n"),
        (Reply::NotJournal(2147483648), "bad-journal 2147483648\n"),
        (Reply::BadImage(32), "bad-image 32\n"),
        (Reply::NameTaken, "name-taken\n"),
        (Reply::StoreFault, "store-fault\n"),
        (Reply::DiskFault, "disk-fault\n"),
        (Reply::NamesFault, "names-fault\n"),
        (Reply::ClockFault, "clock-fault\n"),
        (Reply::JournalFull, "journal-full\n"),
        (Reply::Closed, "closed\n"),
        (
            Reply::Unknown(mine),
            "unknown 000102030405060708090a0b0c0dfeff\n",
        ),
        (Reply::Down, "down\n"),
        (Reply::IsUp, "is-up\n"),
        (Reply::Crashed, "crashed\n"),
        (Reply::NoMemory, "no-memory\n"),
    ] {
        assert_eq!(rt; written(alloc, None, reply)?.as_slice(), want.as_bytes());
    }
    Ok(())
}

#[test]
fn longer_replies(rt: HostRuntime) -> Result<(), Fail> {
    let alloc = rt.alloc();
    let page = Seq::of(vec![in alloc; 10, 0, 255, 0, 0]?);
    assert_eq!(rt;
        written(alloc, None, Reply::Page(page))?.as_slice(),
        b"page 0a00ff\n".as_slice()
    );
    let page = Seq::of(vec![in alloc; 0; 512]?);
    assert_eq!(rt;
        written(alloc, None, Reply::Page(page))?.as_slice(),
        b"page -\n".as_slice()
    );
    let table = Reply::Table {
        rows: rows(alloc)?,
        pending: true,
    };
    assert_eq!(rt;
        written(alloc, None, table)?.as_slice(),
        b"list a:7:30:2 b:1:0:0 pending\n".as_slice()
    );
    let table = Reply::UpAgain {
        rows: rows(alloc)?,
        pending: false,
    };
    assert_eq!(rt;
        written(alloc, None, table)?.as_slice(),
        b"up a:7:30:2 b:1:0:0\n".as_slice()
    );
    assert_eq!(rt;
        written(alloc, Some(12), Reply::Done(12))?.as_slice(),
        b"+12 done 12\n".as_slice()
    );
    Ok(())
}

fn rows(alloc: Global) -> Result<Seq<Row>, Fail> {
    let mut rows = Vec::new(alloc);
    for (name, number, pages, commits) in [(b"a", 7, 30, 2), (b"b", 1, 0, 0)] {
        rows.push(Row {
            name: DbName::read(name).ok_or("a name")?,
            number,
            pages,
            commits,
        })?;
    }
    Ok(Seq::of(rows))
}

fn written(alloc: Global, published: Option<u64>, reply: Reply) -> Result<Vec<u8>, AllocError> {
    let mut line = Vec::new(alloc);
    write_reply(&Said { published, reply }, &mut line)?;
    Ok(line)
}
