ghost use Rattle.std.specs.Prelude.{◌≡◌, ◌≤◌, false};

use bcv_base::{CountNames, MemSink, MemSource, Outside, SetClock};
use bcv_disk::MemDisk;
use bcv_keeprule::{KeepRule, retention_passed};
use bcv_memstore::MemStore;
use bcv_top::{Ended, Replayed, Status, bcv_top, replay_top};
use std::alloc::{AllocError, Global};
use std::test::Fail;

// A container is created, a database of one page made, and its page read; a second page is refused.
const FIRST_READ: &str =
    "world 1 1024 512 100 2\n1 create\n1 step 1\n1 new a aa\n1 step 1\n1 step 1\n1 step 1\n1 begin a\n1 read 1 1\n1 step 1\n1 read 1 2\n";

const FIRST_REPLIES: &str =
    "task 1 working 1\n+1 done 1\ntask 1 working 3\nworking 2\nworking 1\n+2 done 2\ntxn 1\ntask 1 working 1\npage aa\nbad-page\n";

// How a replay ended: its exit status, and the line and place of a bad line, or zeros.
#[derive(Clone, Copy, Debug, PartialEq, Eq)]
pub(crate) struct End {
    code: u8,
    line: u64,
    at: u32,
}

const DONE: End = End {
    code: 0,
    line: 0,
    at: 0,
};

const fn plain(code: u8) -> End {
    End {
        code,
        line: 0,
        at: 0,
    }
}

const fn bad(line: u64, at: u32) -> End {
    End { code: 3, line, at }
}

fn end_of(status: &Status) -> End {
    match status {
        Status::BadScript { line, at } => bad(*line, *at),
        other => plain(other.code()),
    }
}

// How a replay ended, and what it wrote.
#[derive(Drop)]
pub(crate) struct Ran {
    pub end: End,
    pub text: Vec<u8>,
}

// Runs a command over an empty store and disk in memory.
fn run(
    alloc: Global,
    words: &[String],
    input: &mut MemSource,
    output: &mut MemSink,
) -> Ended<MemDisk>
    requires { input.old.ended ≡ false }
{
    let mut outside = Outside {
        store: MemStore::new(alloc),
        clock: SetClock::new(0),
        names: CountNames::new(),
    };
    let rule = KeepRule::new(retention_passed);
    bcv_top(
        alloc,
        words,
        MemDisk::new(alloc),
        &mut outside,
        &rule,
        input,
        output,
    )
}

// Replays a script that comes in pieces, from a source and to a sink that fail at these calls.
pub(crate) fn replayed(
    alloc: Global,
    script: &[u8],
    piece: usize,
    takes: &[u64],
    gives: &[u64],
) -> Result<Ran, AllocError>
    requires { 1 ≤ piece }
{
    let mut words = Vec::new(alloc);
    words.push(format!(in alloc; "replay")?)?;
    let mut bytes = Vec::new(alloc);
    bytes.extend_from_slice(script)?;
    let mut failing_takes = Vec::new(alloc);
    failing_takes.extend_from_slice(takes)?;
    let mut failing_gives = Vec::new(alloc);
    failing_gives.extend_from_slice(gives)?;
    let mut input = MemSource::new(bytes, piece, failing_takes);
    let mut output = MemSink::new(alloc, failing_gives);
    let ran = run(alloc, &words, &mut input, &mut output);
    let mut text = Vec::new(alloc);
    text.extend_from_slice(output.bytes())?;
    Ok(Ran {
        end: end_of(&ran.status),
        text,
    })
}

// How many events the world took that a replay hands back; the sink fails at these calls.
fn applied(alloc: Global, script: &[u8], gives: &[u64]) -> Result<Option<u64>, AllocError> {
    let mut bytes = Vec::new(alloc);
    bytes.extend_from_slice(script)?;
    let mut failing = Vec::new(alloc);
    failing.extend_from_slice(gives)?;
    let mut input = MemSource::new(bytes, 65536, Vec::new(alloc));
    let mut output = MemSink::new(alloc, failing);
    let rule = KeepRule::new(retention_passed);
    let Replayed { status: _, world } = replay_top(alloc, &rule, &mut input, &mut output);
    match world {
        Some(world) => Ok(Some(world.applied())),
        None => Ok(None),
    }
}

#[test]
fn worlds(rt: HostRuntime) -> Result<(), Fail> {
    for (script, gives, count) in [
        ("", [0u64], None),
        ("world 17 1024 512 100 2\n1 create\n", [0], None),
        ("world 2 1024 512 100 2\n1 create\n", [0], Some(1)),
        ("world 1 1024 512 100 2\n", [0], Some(0)),
        ("world 1 1024 512 100 2\n1 create\n1 step 1", [0], Some(2)),
        ("world 1 1024 512 100 2\n1 create\n2 list\n", [0], Some(1)),
        (FIRST_READ, [0], Some(10)),
        (FIRST_READ, [2], Some(2)),
    ] {
        let taken = applied(rt.alloc(), script.as_bytes(), &gives)?;
        assert_eq!(rt; taken, count, "{script}");
    }
    Ok(())
}

#[test]
fn first_read(rt: HostRuntime) -> Result<(), Fail> {
    let script = FIRST_READ.as_bytes();
    for (piece, takes, gives, end, text) in [
        (65536usize, [0u64], [0u64], DONE, FIRST_REPLIES),
        (1, [0], [0], DONE, FIRST_REPLIES),
        (1, [3], [0], plain(4), ""),
        (65536, [0], [1], plain(5), ""),
    ] {
        let ran = replayed(rt.alloc(), script, piece.max(1), &takes, &gives)?;
        assert_eq!(rt; ran.end, end);
        assert_eq!(rt; ran.text.as_slice(), text.as_bytes());
    }
    Ok(())
}

// A container with a database of one page.
const MADE: &str =
    "world 1 1024 512 100 2\n1 create\n1 step 1\n1 new a aa\n1 step 1\n1 step 1\n1 step 1\n";

const MADE_REPLIES: &str =
    "task 1 working 1\n+1 done 1\ntask 1 working 3\nworking 2\nworking 1\n+2 done 2\n";

// Whether a replay of these lines over that container says this of them.
fn says(alloc: Global, lines: &str, text: &str) -> Result<bool, AllocError> {
    let script = format!(in alloc; "{MADE}{lines}")?;
    let replies = format!(in alloc; "{MADE_REPLIES}{text}")?;
    let ran = replayed(alloc, script.as_bytes(), 65536, &[], &[])?;
    Ok(ran.end == DONE && ran.text.as_slice() == replies.as_bytes())
}

// Copies and removals, a name that is taken, a task beside another one, requests that fail, and a pending publication.
const COPIES: &str =
    "1 copy a b\n1 step 1\n1 step 1\n1 copy a b\n1 step 1\n1 drop a\n1 step 1\n1 step 1\n1 begin a\n1 new c cc\n1 drop b\n1 step 1 fail\n1 copy b d\n1 step 1\n1 step 1 fail\n1 drop b\n";

const COPIES_REPLIES: &str =
    "task 1 working 2\nworking 1\n+3 done 3\ntask 1 working 2\nexists\ntask 1 working 2\nworking 1\n+4 done 4\nno-database\ntask 1 working 3\nbusy\nstore-fault\ntask 1 working 2\nworking 1\nunknown 00000000000000000000000000000009\npending\n";

// A database of three blocks of two pages, read page by page: the second page of a block is at hand, so no task is started.
const SIX_PAGES: &str =
    "1 new b 01 02 03 04 05 06\n1 step 1\n1 step 1\n1 step 1\n1 step 1\n1 step 1\n1 begin b\n1 read 1 1\n1 step 1\n1 read 1 2\n1 step 1\n1 read 1 3\n1 step 1\n1 read 1 4\n1 step 1\n1 read 1 5\n1 step 1\n1 read 1 6\n1 step 1\n1 read 1 7\n";

const SIX_PAGES_REPLIES: &str =
    "task 1 working 8\nworking 4\nworking 3\nworking 2\nworking 1\n+3 done 3\ntxn 1\ntask 1 working 1\npage 01\npage 02\nno-task\ntask 1 working 1\npage 03\npage 04\nno-task\ntask 1 working 1\npage 05\npage 06\nno-task\nbad-page\n";

// A copy has the pages of a database that is removed, whose open transaction goes on reading them.
const REMOVED: &str =
    "1 begin a\n1 copy a b\n1 step 1\n1 step 1\n1 drop a\n1 step 1\n1 step 1\n1 begin b\n1 read 1 1\n1 step 1\n1 read 2 1\n1 step 1\n";

const REMOVED_REPLIES: &str =
    "txn 1\ntask 1 working 2\nworking 1\n+3 done 3\ntask 1 working 2\nworking 1\n+4 done 4\ntxn 2\ntask 1 working 1\npage aa\npage aa\nno-task\n";

#[test]
fn publications(rt: HostRuntime) -> Result<(), Fail> {
    for (lines, text) in [
        (COPIES, COPIES_REPLIES),
        (SIX_PAGES, SIX_PAGES_REPLIES),
        (REMOVED, REMOVED_REPLIES),
        (
            "1 create\n1 step 1\n1 step 3\n",
            "task 1 working 1\nexists\nno-task\n",
        ),
        (
            "1 drop b\n1 step 1\n1 copy b c\n1 step 1\n",
            "task 1 working 2\nno-database\ntask 1 working 2\nno-database\n",
        ),
        (
            "1 new b bb\n1 step 1\n1 step 1 fail\n1 begin b\n",
            "task 1 working 3\nworking 2\nstore-fault\nno-database\n",
        ),
    ] {
        assert!(rt; says(rt.alloc(), lines, text)?, "{lines}");
    }
    Ok(())
}

#[test]
fn tasks(rt: HostRuntime) -> Result<(), Fail> {
    let alloc = rt.alloc();
    let mut lines = format!(in alloc; "1 begin a\n")?;
    let mut text = format!(in alloc; "txn 1\n")?;
    for number in 1..17u8 {
        lines.push_str("1 read 1 1\n")?;
        text.push_str(format!(in alloc; "task {number} working 1\n")?.as_str())?;
    }
    lines.push_str(
        "1 read 1 1\n1 create\n1 step 7 fail\n1 step 5\n1 read 1 1\n1 create\n1 step 7\n1 step 5\n",
    )?;
    text.push_str(
        "too-many\ntoo-many\nstore-fault\npage aa\npage aa\ntask 5 working 1\nno-task\nexists\n",
    )?;
    assert!(rt; says(alloc, lines.as_str(), text.as_str())?);
    Ok(())
}

#[test]
fn scripts(rt: HostRuntime) -> Result<(), Fail> {
    for (script, end, text) in [
        ("", bad(1, 0), ""),
        ("world 1 1024 512 100 2\n", DONE, ""),
        ("world 1 1024 512 100 2", DONE, ""),
        ("world 17 1024 512 100 2\n", bad(1, 6), ""),
        (
            "world 1 1024 512 100 2\n1 begin a\n1 new a aa\n1 step 1\n",
            DONE,
            "no-database\ntask 1 working 3\nno-container\n",
        ),
        (
            "world 1 1024 512 100 2\n1 create",
            DONE,
            "task 1 working 1\n",
        ),
        (
            "world 1 1024 512 100 2\n1 create\n1 create\n1 step 1\n1 step 1\n",
            DONE,
            "task 1 working 1\nbusy\n+1 done 1\nno-task\n",
        ),
        (
            "world 1 1024 512 100 2\n1 create\n1 step 1 fail\n1 create\n",
            DONE,
            "task 1 working 1\nunknown 00000000000000000000000000000002\npending\n",
        ),
        (
            "world 1 1024 512 100 2\n1 create\n1 step 1\n1 new a\n1 step 1\n1 step 1\n1 new a\n1 step 1\n",
            DONE,
            "task 1 working 1\n+1 done 1\ntask 1 working 2\nworking 1\n+2 done 2\ntask 1 working 2\nexists\n",
        ),
        (
            "world 1 1024 512 100 2\ntick 1\n1 list\n1 create\n1 step 1 lost\n1 list\n1 crash 0\n1 step 1\n1 up\n",
            DONE,
            "ok\nlist\ntask 1 working 1\n+1 unknown 00000000000000000000000000000002\nlist pending\ncrashed\ndown\nup pending\n",
        ),
        // Two clients, each with what it knows.
        (
            "world 2 1024 512 100 2\n1 create\n1 step 1\n1 new a aa\n1 step 1\n1 step 1\n1 step 1\n2 begin a\n2 poll\n2 step 1\n2 begin a\n2 read 1 1\n2 step 1\n",
            DONE,
            "task 1 working 1\n+1 done 1\ntask 1 working 3\nworking 2\nworking 1\n+2 done 2\nno-database\ntask 1 working 1\npolled 2\ntxn 1\ntask 1 working 1\npage aa\n",
        ),
        // Lines that aren't in the grammar, each with the place of the first word that cannot stand.
        (
            "world 1 1024 512 100 2\n1 create\n1 step 1\n1 commit a 1 0=aa\n",
            bad(4, 13),
            "task 1 working 1\n+1 done 1\n",
        ),
        (
            "world 1 1024 512 100 2\n1 create\n2 list",
            bad(3, 0),
            "task 1 working 1\n",
        ),
        (
            "world 1 1024 512 100 2\n1 create\n1 step\n",
            bad(3, 6),
            "task 1 working 1\n",
        ),
        (
            "world 1 1024 512 100 2\n1 create\n\n",
            bad(3, 0),
            "task 1 working 1\n",
        ),
    ] {
        let ran = replayed(rt.alloc(), script.as_bytes(), 65536, &[], &[])?;
        assert_eq!(rt; ran.end, end, "{script}");
        assert_eq!(rt; ran.text.as_slice(), text.as_bytes(), "{script}");
    }
    Ok(())
}

#[test]
fn long_line(rt: HostRuntime) -> Result<(), Fail> {
    let mut line = Vec::new(rt.alloc());
    line.resize(1048577, b'w')?;
    assert_eq!(rt;
        replayed(rt.alloc(), &line, 65536, &[], &[])?.end,
        plain(13)
    );
    Ok(())
}

#[test]
fn words(rt: HostRuntime) -> Result<(), Fail> {
    let alloc = rt.alloc();
    let mut input = MemSource::new(Vec::new(alloc), 1, Vec::new(alloc));
    let mut output = MemSink::new(alloc, Vec::new(alloc));
    let mut words = Vec::new(alloc);
    assert_eq!(rt;
        run(alloc, &words, &mut input, &mut output).status.code(),
        2
    );
    words.push(format!(in alloc; "replay")?)?;
    words.push(format!(in alloc; "replay")?)?;
    let mut again = MemSource::new(Vec::new(alloc), 1, Vec::new(alloc));
    assert_eq!(rt;
        run(alloc, &words, &mut again, &mut output).status.code(),
        2
    );
    Ok(())
}

// What is written for the script that is made from a number.
fn generated(alloc: Global, number: u8) -> Result<Ran, AllocError> {
    let mut words = Vec::new(alloc);
    words.push(format!(in alloc; "generate")?)?;
    words.push(format!(in alloc; "{number}")?)?;
    let mut input = MemSource::new(Vec::new(alloc), 1, Vec::new(alloc));
    let mut output = MemSink::new(alloc, Vec::new(alloc));
    let ended = run(alloc, &words, &mut input, &mut output);
    let mut text = Vec::new(alloc);
    text.extend_from_slice(output.bytes())?;
    Ok(Ran {
        end: end_of(&ended.status),
        text,
    })
}

// How many lines a text has.
fn line_count(text: &[u8]) -> usize {
    let mut count = 0usize;
    for byte in text {
        if *byte == b'\n' {
            count = count.saturating_add(1);
        }
    }
    count
}

// Five lines for each number, of which the first counts all events, and the same ones again.
#[test]
fn generates(rt: HostRuntime) -> Result<(), Fail> {
    for number in 0..8 {
        let once = generated(rt.alloc(), number)?;
        let again = generated(rt.alloc(), number)?;
        let text = once.text.as_slice();
        assert_eq!(rt; once.end, DONE);
        assert_eq!(rt; line_count(text), 5usize);
        assert!(rt; text.starts_with(b"events 2000\n"));
        assert_eq!(rt; again.text.as_slice(), text);
    }
    Ok(())
}
