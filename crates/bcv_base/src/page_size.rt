ghost use Rattle.std.specs.Prelude.{◌≡◌, ◌≤◌, ◌&&◌, nat_le, IsTrue, length, take};
ghost use Rattle.std.specs.Str.{bytes_eq};
ghost use Rattle.bcv_base.specs.DatabaseHeader.{header_page_size, header_text, said_page_size};

const HEADER: &[u8; 16] = b"SQLite format 3\0";

/// The page size in bytes that the header of a database file says, given the file's first bytes; `None` where they are
/// fewer than 18, where they begin with other bytes than `SQLite format 3` and a zero byte, or where the number at 16
/// is no page size.
///
/// The header is described at sqlite.org/fileformat2.html, and the page size in its section 1.3.2.
pub fn page_size_of(front: &[u8]) -> Option<u32>
    ensures { result ≡ header_page_size front.now }
{
    if !begins_a_database(front) {
        return None;
    }
    size_of_number(u16::from_be_bytes([front[16], front[17]]))
}

// Whether these bytes are the header of a database file, as far as its page size.
fn begins_a_database(front: &[u8]) -> bool
    ensures header { result ≡ (nat_le 18 (length front.now)
        && bytes_eq (take 16 front.now) header_text) }
    ensures long { IsTrue result → 18 ≤ length front.now }
{
    if front.len() < 18 {
        return false;
    }
    &front[..16] == HEADER.as_slice()
}

// The page size that the header's number says.
fn size_of_number(number: u16) -> Option<u32>
    ensures { result ≡ said_page_size number }
{
    match number {
        1 => Some(65_536),
        512..=32_768 if number.is_power_of_two() => Some(u32::from(number)),
        _ => None,
    }
}
