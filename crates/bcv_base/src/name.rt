ghost use Rattle.std.specs.Prelude.{◌≡◌, ℕ, ◌-◌, ◌≤◌, true, IsTrue, refl, length, take, drop, replicate, Some, None, if◌then◌else◌};
ghost use Rattle.std.specs.List.{list_all};
ghost use Rattle.std.specs.Cmp.{partial_equiv_from_equiv};
ghost use Rattle.std.specs.Cmp.Lexicographic.{slice_cmp, nat_list_eq_equiv, nat_list_cmp_total, texts_po, texts_ties};
ghost use Rattle.std.specs.Ordering.{nat_cmp};
ghost use Rattle.std.specs.Str.{bytes_eq};
ghost use Rattle.bcv_base.specs.Names.{is_name, is_name_byte};

use std::cmp::Ordering;
use std::fmt;
use std::marker::Model;

const MOST: usize = 64;

/// A database's name: 1 to 64 bytes, each a letter, a digit, `.`, `_` or `-`, kept in place.
///
/// Contracts see it as the list of its bytes. Two names are compared by their bytes; a name that begins another one
/// stands before it.
#[derive(Clone, Copy)]
pub struct DbName {
    len: u8,
    bytes: [u8; 64],
}

impl Model for DbName {
    ghost use Rattle.std.specs.Prelude.{◌≡◌, ℕ, ◌-◌, List, length, take, drop, replicate, true};
    ghost use Rattle.std.specs.Coded.{coded_list, coded_ℕ};
    ghost use Rattle.bcv_base.specs.Names.{is_name};
    ghost use Rattle.bcv_base.specs.Padded.{padded, take-append-replicate};

    ghost Value = { List ℕ };

    ghost coded = { coded_list coded_ℕ };

    ghost view = { λ n. take n.len n.bytes };

    ghost invariant = { λ n. (is_name (take n.len n.bytes) ≡ true) × (drop n.len n.bytes ≡ replicate (64 - n.len) 0) × (length (take n.len n.bytes) ≡ n.len) };

    ghost inverse = { λ bytes. record { len = length bytes; bytes = padded 64 bytes } };

    ghost inverse_ok = { λ n h i. record { len = h.2 i; bytes = take-append-replicate n.len n.bytes h.1 h.2 i } };
}

impl DbName {
    /// The name that a text is, or `None` where it is none.
    pub fn read(text: &[u8]) -> Option<DbName>
        ensures { result ≡ (if is_name text.now then Some text.now else None) }
    {
        if !spells_name(text) {
            return None;
        }
        Some(DbName {
            len: text.len() as u8,
            bytes: padded(text),
        })
    }

    /// The name's bytes.
    pub fn text(&self) -> &[u8]
        ensures bytes { result.now ≡ self.now }
        ensures name { is_name self.now ≡ true }
    {
        &self.bytes[..self.len as usize]
    }

    /// Whether two names are the same.
    pub fn same_as(&self, other: &DbName) -> bool
        ensures { result ≡ bytes_eq self.now other.now }
    {
        self.text() == other.text()
    }

    /// Which of two names stands first, by their bytes.
    pub fn cmp_bytes(&self, other: &DbName) -> Ordering
        ensures { result ≡ slice_cmp nat_cmp self.now other.now }
    {
        self.text().cmp(other.text())
    }
}

impl PartialEq for DbName {
    ghost eq = { bytes_eq };

    ghost laws = { partial_equiv_from_equiv nat_list_eq_equiv };

    fn eq(&self, other: &DbName) -> bool {
        self.same_as(other)
    }
}

impl Eq for DbName {
    ghost laws = { nat_list_eq_equiv };
}

impl PartialOrd for DbName {
    ghost partial_cmp = { λ a b. Some (slice_cmp nat_cmp a b) };

    ghost laws = { texts_po };

    fn partial_cmp(&self, other: &DbName) -> Option<Ordering> {
        Some(self.cmp(other))
    }
}

impl Ord for DbName {
    ghost cmp = { slice_cmp nat_cmp };

    ghost total = { nat_list_cmp_total };

    ghost matches_partial_cmp = { λ a b. refl };

    ghost matches_eq = { texts_ties };

    fn cmp(&self, other: &DbName) -> Ordering {
        self.cmp_bytes(other)
    }
}

impl fmt::Debug for DbName {
    fn fmt<W: fmt::Write>(&self, f: &mut fmt::Formatter<W>) -> fmt::Result {
        for byte in self.text() {
            write!(f, "{}", char::from(*byte))?;
        }
        Ok(())
    }
}

// Whether a byte may stand in a name.
fn stands_in_names(byte: u8) -> bool
    ensures { result ≡ is_name_byte byte }
{
    matches!(byte, b'A'..=b'Z' | b'a'..=b'z' | b'0'..=b'9' | b'.' | b'_' | b'-')
}

// Whether each byte of a text may stand in a name.
fn all_stand_in_names(text: &[u8]) -> bool
    ensures { result ≡ list_all is_name_byte text.now }
{
    text.iter().all(|byte| stands_in_names(*byte))
}

// Whether a text is a name.
fn spells_name(text: &[u8]) -> bool
    ensures name { result ≡ is_name text.now }
    ensures fits { IsTrue result → length text.now ≤ 64 }
{
    if text.is_empty() || text.len() > MOST {
        return false;
    }
    all_stand_in_names(text)
}

// A text and then zeros.
fn padded(text: &[u8]) -> [u8; MOST]
    requires { length text.now ≤ 64 }
    ensures front { take (length text.now) result ≡ text.now }
    ensures back { drop (length text.now) result ≡ replicate (64 - length text.now) 0 }
{
    let mut bytes = [0; MOST];
    bytes[..text.len()].copy_from_slice(text);
    bytes
}
