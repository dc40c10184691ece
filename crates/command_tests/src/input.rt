ghost use Rattle.std.specs.Prelude.{◌≤◌};

use bcv_base::MemSource;
use bcv_commands::{FileFault, PairsFault, read_file, read_pairs};
use std::alloc::{AllocError, Global};
use std::test::Fail;

// The page size and the pages of an input that comes in pieces, whose takes of these numbers fail.
fn file(
    alloc: Global,
    bytes: &[u8],
    piece: usize,
    fails: &[u64],
) -> Result<Result<(u32, usize), FileFault>, AllocError>
    requires { 1 ≤ piece }
{
    let mut copied = Vec::new(alloc);
    copied.extend_from_slice(bytes)?;
    let mut failing = Vec::new(alloc);
    failing.extend_from_slice(fails)?;
    let mut input = MemSource::new(copied, piece, failing);
    match read_file(alloc, &mut input) {
        Ok(file) => Ok(Ok((file.page_size, file.pages.items().len()))),
        Err(fault) => Ok(Err(fault)),
    }
}

// The header of a file with pages of 512 bytes, and zeros after it.
fn header(alloc: Global, length: usize) -> Result<Vec<u8>, AllocError> {
    let mut bytes = Vec::new(alloc);
    bytes.extend_from_slice(b"SQLite format 3\0\x02\0")?;
    bytes.resize(length, 0)?;
    Ok(bytes)
}

#[test]
fn files(rt: HostRuntime) -> Result<(), Fail> {
    for (length, piece, fails, want) in [
        (0usize, 1usize, [0u64], Ok((4096, 0))),
        (17, 1, [0], Err(FileFault::BadImage(16))),
        (512, 65536, [0], Ok((512, 1))),
        (1536, 7, [0], Ok((512, 3))),
        (1537, 1, [0], Err(FileFault::BadImage(1537))),
        (1536, 65536, [3], Err(FileFault::ReadFault)),
    ] {
        let bytes = header(rt.alloc(), length)?;
        let found = file(rt.alloc(), &bytes, piece.max(1), &fails)?;
        assert_eq!(rt; found, want, "{length}");
    }
    Ok(())
}

#[test]
fn no_files(rt: HostRuntime) -> Result<(), Fail> {
    for (bytes, want) in [
        (b"hello".as_slice(), FileFault::BadImage(0)),
        (
            b"SQLite format 3\0\x03\0\0\0".as_slice(),
            FileFault::BadImage(16),
        ),
    ] {
        let found = file(rt.alloc(), bytes, 1, &[])?;
        assert_eq!(rt; found, Err(want));
    }
    Ok(())
}

// The numbers of the pages and how many bytes each text writes, of an input whose takes of these numbers fail.
fn pairs(
    alloc: Global,
    text: &str,
    fails: &[u64],
) -> Result<Result<Vec<(u32, usize)>, PairsFault>, AllocError> {
    let mut copied = Vec::new(alloc);
    copied.extend_from_slice(text.as_bytes())?;
    let mut failing = Vec::new(alloc);
    failing.extend_from_slice(fails)?;
    let mut input = MemSource::new(copied, 3, failing);
    match read_pairs(alloc, &mut input) {
        Ok(pairs) => {
            let mut sizes = Vec::new(alloc);
            for (page, bytes) in pairs.items() {
                sizes.push((*page, bytes.items().len()))?;
            }
            Ok(Ok(sizes))
        }
        Err(fault) => Ok(Err(fault)),
    }
}

#[test]
fn commits(rt: HostRuntime) -> Result<(), Fail> {
    let found = pairs(rt.alloc(), "1=aa\n3=-\n4294967295=0a0b", &[])?;
    let want = [(1u32, 1usize), (3, 0), (4294967295, 2)];
    assert!(rt; matches!(&found, Ok(pairs) if pairs.as_slice() == want.as_slice()));
    let none = pairs(rt.alloc(), "", &[])?;
    assert!(rt; matches!(&none, Ok(pairs) if pairs.is_empty()));
    for (text, fails, want) in [
        (
            "2=aa\n2=bb",
            [0u64],
            PairsFault::BadScript { line: 2, at: 0 },
        ),
        ("1=aa\n\n", [0], PairsFault::BadScript { line: 2, at: 0 }),
        ("1=aa ", [0], PairsFault::BadScript { line: 1, at: 5 }),
        ("1=aa\n2=bb\n", [3], PairsFault::ReadFault),
    ] {
        let found = pairs(rt.alloc(), text, &fails)?;
        assert!(rt; matches!(&found, Err(fault) if *fault == want), "{text}");
    }
    Ok(())
}
