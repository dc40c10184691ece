//! Byte ranges of a database file, as SQLite asks for them of its file system.
//!
//! A file is a list of pages of one size, and what stands above reads whole pages. So a range of bytes
//! is taken apart into pieces, one for each page that it touches, and the crate says how much of the
//! range is there at all. It promises that the pieces, from the left, are that part of the range: each
//! byte once, each at its place in the reader's buffer, for every offset, length and page count. It
//! takes no memory, reads nothing and stands on std alone.
#![tactic(auto)]

ghost use Rattle.std.specs.Prelude.{◌≡◌, ◌+◌, ◌/◌, ◌^◌, ◌<◌, ◌≤◌, ◌↔◌, List, ℕ, IsSome, IfSome, SomeIff, length, slice_get, take};
ghost use Rattle.std.specs.List.{sum_by, flat_map};
ghost use Rattle.bcv_vfs.specs.Pieces.{Cover, IsWithin, bytes_there, file_len, pieces_of};
ghost use Rattle.bcv_vfs.specs.Reading.{IsFileOf, bytes_at, range_of};

/// A range of bytes of a file of `pages` pages of `page_size` bytes each.
#[derive(Clone, Copy, Debug, PartialEq, Eq)]
pub struct Span {
    /// The bytes of a page.
    pub page_size: u32,
    /// The pages of the file.
    pub pages: u32,
    /// Where the range begins, in bytes from the file's start; past the file's end, too.
    pub off: u64,
    /// How many bytes are asked for.
    pub len: u32,
}

/// The part of a range that lies in one page.
#[derive(Clone, Copy, Debug, PartialEq, Eq)]
pub struct Piece {
    /// The page's number, from 1.
    pub page: u32,
    /// The first byte of the piece, from the page's start.
    pub start: u32,
    /// The bytes of the piece, at least one.
    pub len: u32,
    /// Where the piece lands, from the start of the reader's buffer.
    pub to: u32,
}

impl Span {
    /// The length of the file.
    pub fn bytes(&self) -> u64
        ensures exact { result ≡ file_len self.now }
        ensures below { self.now.page_size ≤ 65536 → result < 2 ^ 48 }
    {
        u64::from(self.pages) * u64::from(self.page_size)
    }

    /// How many bytes of the range are there, where the file ends before the range does.
    pub fn short(&self) -> Option<u32>
        ensures { SomeIff result (file_len self.now < self.now.off + self.now.len)
            (bytes_there self.now) }
    {
        match self.bytes().checked_sub(self.off) {
            None => Some(0),
            Some(there) if there < u64::from(self.len) => Some(there as u32),
            Some(_) => None,
        }
    }

    /// The piece with `i` pieces to its left, so the first is piece 0.
    pub fn piece(&self, i: u32) -> Option<Piece>
        requires { 0 < self.now.page_size }
        ensures exact { result ≡ slice_get (pieces_of self.now) i }
        ensures found { IsSome result ↔ (i < length (pieces_of self.now)) }
        ensures within { IfSome result (IsWithin self.now) }
        ensures lands { IfSome result (λ piece. piece.to
            ≡ sum_by (λ left. left.len) (take i (pieces_of self.now))) }
    {
        let page_size = u64::from(self.page_size);
        let before = (self.off / page_size).saturating_add(u64::from(i));
        if before >= u64::from(self.pages) {
            return None;
        }
        let page_begin = before * page_size;
        let begin = page_begin.max(self.off);
        let end = (page_begin + page_size).min(self.off + u64::from(self.len));
        if end <= begin {
            return None;
        }
        Some(Piece {
            page: before as u32 + 1,
            start: (begin - page_begin) as u32,
            len: (end - begin) as u32,
            to: (begin - self.off) as u32,
        })
    }

    /// That the pieces are the range. It does nothing: a proof that needs the law makes the call.
    pub fn pieces_are_the_range(&self)
        requires { 0 < self.now.page_size }
        ensures covers { Cover self.now (self.now.off / self.now.page_size + 1) self.now.off 0
            (self.now.off + bytes_there self.now) (pieces_of self.now) }
        ensures few { length (pieces_of self.now) ≤ self.now.pages }
        ensures whole { sum_by (λ piece. piece.len) (pieces_of self.now) ≡ bytes_there self.now }
        ensures reads { (image : List (List ℕ)) → IsFileOf self.now image
            → flat_map (bytes_at image) (pieces_of self.now) ≡ range_of self.now image }
    {}
}
