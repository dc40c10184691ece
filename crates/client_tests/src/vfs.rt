ghost use Rattle.std.specs.Prelude.{◌≡◌, ◌<◌, length};

use bcv_vfs::{Piece, Span};
use std::process::Abort;

fn span(page_size: u32, pages: u32, off: u64, len: u32) -> Span
    ensures { result.page_size ≡ page_size }
{
    Span {
        page_size,
        pages,
        off,
        len,
    }
}

/// The pieces are given as page, start, length and place.
fn check(rt: &impl Abort, span: Span, short: Option<u32>, pieces: &[(u32, u32, u32, u32)])
    requires sizes { 0 < span.page_size }
    requires few { length pieces.now < 10 }
{
    assert_eq!(rt; span.short(), short, "{span:?}");
    for (i, &(page, start, len, to)) in pieces.iter().enumerate() {
        assert_eq!(rt;
            span.piece(i as u32),
            Some(Piece {
                page,
                start,
                len,
                to
            }),
            "{span:?}"
        );
    }
    assert_eq!(rt; span.piece(pieces.len() as u32), None, "{span:?}");
}

#[test]
fn ranges_at_edges(rt: HostRuntime) {
    // The file's pages, whole and in part.
    check(
        &rt,
        span(512, 3, 0, 1536),
        None,
        &[(1, 0, 512, 0), (2, 0, 512, 512), (3, 0, 512, 1024)],
    );
    check(&rt, span(512, 3, 0, 512), None, &[(1, 0, 512, 0)]);
    check(
        &rt,
        span(512, 3, 0, 513),
        None,
        &[(1, 0, 512, 0), (2, 0, 1, 512)],
    );
    check(
        &rt,
        span(512, 3, 511, 2),
        None,
        &[(1, 511, 1, 0), (2, 0, 1, 1)],
    );
    check(&rt, span(512, 3, 512, 512), None, &[(2, 0, 512, 0)]);
    check(
        &rt,
        span(512, 3, 100, 1000),
        None,
        &[(1, 100, 412, 0), (2, 0, 512, 412), (3, 0, 76, 924)],
    );

    // The file's end, and past it.
    check(
        &rt,
        span(512, 3, 0, 1537),
        Some(1536),
        &[(1, 0, 512, 0), (2, 0, 512, 512), (3, 0, 512, 1024)],
    );
    check(&rt, span(512, 3, 1535, 1), None, &[(3, 511, 1, 0)]);
    check(&rt, span(512, 3, 1535, 2), Some(1), &[(3, 511, 1, 0)]);
    check(&rt, span(512, 3, 1536, 1), Some(0), &[]);
    check(&rt, span(512, 3, u64::MAX, u32::MAX), Some(0), &[]);

    // Nothing asked for, and no pages.
    check(&rt, span(512, 3, 700, 0), None, &[]);
    check(&rt, span(512, 3, 1536, 0), None, &[]);
    check(&rt, span(512, 3, 1537, 0), Some(0), &[]);
    check(&rt, span(1024, 0, 0, 0), None, &[]);
    check(&rt, span(1024, 0, 0, 1), Some(0), &[]);
    check(&rt, span(1024, 0, 1, 0), Some(0), &[]);

    // The longest file.
    let last = span(65536, u32::MAX, 281_474_976_645_119, 10);
    check(&rt, last, Some(1), &[(u32::MAX, 65535, 1, 0)]);
    assert_eq!(rt; last.bytes(), 281_474_976_645_120);
    let long = span(65536, u32::MAX, 281_470_681_677_825, u32::MAX);
    assert_eq!(rt; long.short(), None);
    assert_eq!(rt;
        long.piece(0),
        Some(Piece {
            page: 4_294_901_760,
            start: 1,
            len: 65535,
            to: 0
        })
    );
    assert_eq!(rt;
        long.piece(65535),
        Some(Piece {
            page: u32::MAX,
            start: 0,
            len: 65536,
            to: 4_294_901_759
        })
    );
    assert_eq!(rt; long.piece(65536), None);
    long.pieces_are_the_range();
}
