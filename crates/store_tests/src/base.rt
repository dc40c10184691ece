use bcv_base::{
    Clock, CountNames, DbName, Draw, Gave, Id16, MemSink, MemSource, Names, Now, ObjName, Outside,
    SetClock, Sink, Source, StdSink, StdSource, Took, page_size_of,
};
use std::io::{self, ErrorKind, Read};
use std::test::Fail;

const ID: Id16 = Id16([0, 1, 2, 3, 4, 5, 6, 7, 8, 9, 10, 11, 0xab, 0xcd, 0xef, 0xff]);

// What the longest name is to a reading.
fn is_longest_read(len: usize) -> bool {
    let text = [b'z'; 65];
    len <= 65 && DbName::read(&text[..len]).is_some()
}

// Whether a text is read as the object of that name, and written so.
fn is_read_as(object: ObjName, text: &[u8]) -> bool {
    let written = object.write();
    let len = usize::from(written.len);
    let is_written = len <= 36 && &written.bytes[..len] == text;
    is_written && ObjName::read(text).is_some_and(|read| read.same_as(&object))
}

#[test]
fn texts(rt: HostRuntime) {
    let hex = b"000102030405060708090a0babcdefff";
    assert!(rt; ID.hex().as_slice() == hex.as_slice());
    assert!(rt; Id16::read_hex(hex) == Some(ID));
    assert!(rt; Id16::read_hex(b"000102030405060708090A0BABCDEFFF").is_none());
    assert!(rt; is_read_as(ObjName::Block(ID), b"000102030405060708090a0babcdefff.bcv"));
    assert!(rt; is_read_as(ObjName::Manifest, b"manifest.bcv"));
    assert!(rt; ObjName::read(b"manifest.bcv ").is_none());
}

#[test]
fn database_names(rt: HostRuntime) -> Result<(), Fail> {
    let first = DbName::read(b"Main-2_copy").ok_or("a name")?;
    let second = DbName::read(b"Main-2_copy.").ok_or("a name")?;
    assert!(rt; first < second);
    assert!(rt; !first.same_as(&second));
    assert!(rt; DbName::read(b"a b").is_none());
    assert!(rt; is_longest_read(64) && !is_longest_read(65) && !is_longest_read(0));
    Ok(())
}

// The page size that a header with this number at 16 says.
fn size_at(high: u8, low: u8) -> Option<u32> {
    let mut front = *b"SQLite format 3\0\0\0";
    front[16] = high;
    front[17] = low;
    page_size_of(&front)
}

#[test]
fn page_sizes(rt: HostRuntime) {
    assert!(rt; size_at(16, 0) == Some(4096) && size_at(2, 0) == Some(512));
    assert!(rt; size_at(0, 1) == Some(65_536) && size_at(128, 0) == Some(32_768));
    assert!(rt; size_at(1, 0).is_none() && size_at(3, 232).is_none());
    assert!(rt; page_size_of(b"SQLite format 4\0\x10\0").is_none());
}

// A reader that is cut short by a signal, then broken, and then at its end.
#[derive(Drop)]
struct Flaky {
    calls: u8,
}

impl Read for Flaky {
    fn read(&mut self, _buf: &mut [u8]) -> io::Result<usize> {
        self.calls = self.calls.saturating_add(1);
        match self.calls {
            1 => Err(ErrorKind::Interrupted.into()),
            2 => Err(ErrorKind::BrokenPipe.into()),
            _ => Ok(0),
        }
    }
}

#[test]
fn planned_source(rt: HostRuntime) -> Result<(), Fail> {
    let bytes = b"abc".to_vec(rt.alloc())?;
    let fails = [3].to_vec(rt.alloc())?;
    let mut source = MemSource::new(bytes, 1, fails);
    let mut read = [0; 4];
    assert_eq!(rt; source.take(&mut read), Took::Some(1));
    assert_eq!(rt; source.take(&mut read[1..]), Took::Some(1));
    assert_eq!(rt; source.take(&mut read[2..]), Took::Failed);
    assert_eq!(rt; source.take(&mut read[2..]), Took::Some(1));
    assert_eq!(rt; source.take(&mut read[3..]), Took::End);
    assert_eq!(rt; &read, b"abc\0");
    Ok(())
}

#[test]
fn readers(rt: HostRuntime) {
    let mut source = StdSource::new(b"xyz".as_slice());
    let mut read = [0; 2];
    assert_eq!(rt; source.take(&mut read), Took::Some(2));
    assert_eq!(rt; &read, b"xy");
    assert_eq!(rt; source.take(&mut read), Took::Some(1));
    assert_eq!(rt; source.take(&mut read), Took::End);
    assert_eq!(rt; source.faults, 0);
}

#[test]
fn broken_readers(rt: HostRuntime) {
    let mut read = [0; 2];
    let mut source = StdSource::new(Flaky { calls: 0 });
    assert_eq!(rt; source.take(&mut read), Took::Failed);
    assert_eq!(rt; source.faults, 1);
    assert_eq!(rt; source.take(&mut read), Took::End);
    assert_eq!(rt; source.faults, 1);
    assert!(rt; source.ended);
}

#[test]
fn planned_sink(rt: HostRuntime) -> Result<(), Fail> {
    let fails = [1].to_vec(rt.alloc())?;
    let mut sink = MemSink::new(rt.alloc(), fails);
    assert_eq!(rt; sink.give(b"lost"), Gave::Failed);
    assert_eq!(rt; sink.give(b"kept "), Gave::Some(5));
    assert_eq!(rt; sink.give(b"too"), Gave::Some(3));
    assert_eq!(rt; sink.bytes(), b"kept too".as_slice());
    Ok(())
}

#[test]
fn writers(rt: HostRuntime) {
    let mut sink = StdSink::new(Vec::new(rt.alloc()));
    assert_eq!(rt; sink.give(b"bytes"), Gave::Some(5));
    assert_eq!(rt; sink.inner.as_slice(), b"bytes".as_slice());
    assert_eq!(rt; sink.faults, 0);

    let mut room = [0; 2];
    let mut sink = StdSink::new(room.as_mut_slice());
    assert_eq!(rt; sink.give(b"abc"), Gave::Some(2));
    assert_eq!(rt; sink.give(b"c"), Gave::Failed);
    assert_eq!(rt; sink.faults, 1);
}

#[test]
fn counted_names(rt: HostRuntime) {
    let mut names = CountNames::new();
    for number in [1, 2, 3] {
        let mut id = Id16([0; 16]);
        id.0[15] = number;
        assert_eq!(rt; names.draw(), Draw::Drawn(id));
    }
}

#[test]
fn set_clocks(rt: HostRuntime) {
    let mut outside = Outside {
        store: (),
        clock: SetClock::new(7),
        names: CountNames::new(),
    };
    assert_eq!(rt; outside.clock.now(), Now::At(7));
    outside.clock.set(9);
    assert_eq!(rt; outside.clock.now(), Now::At(9));
    assert_eq!(rt; outside.names.faults(), 0);
}
