ghost use Rattle.std.specs.Prelude.{◌≡◌, IsSorted, MatchOption, IfSome, Some, length, true};
ghost use Rattle.std.specs.Cmp.Lexicographic.{slice_cmp};
ghost use Rattle.std.specs.Ordering.{nat_cmp};
ghost use Rattle.bcv_base.specs.Ids.{id_eq, has_id, are_bytes, IsId};
ghost use Rattle.bcv_base.specs.Names.{hex_of};
ghost use Rattle.bcv_base.specs.declared.id.Id16.{Id16};

use hex::FromHex;

/// A name of 16 bytes: of a block, a publication or a client.
#[derive(Clone, Copy, Debug, PartialEq, Eq, PartialOrd, Ord, Hash)]
pub struct Id16(pub [u8; 16]);

impl Id16 {
    /// The sixteen bytes. A caller that has to show that an id is one finds it here.
    pub fn bytes(&self) -> &[u8]
        ensures bytes { result.now ≡ self.now.0 }
        ensures id { IsId self.now }
    {
        as_bytes(&self.0)
    }

    /// Whether two ids are the same.
    pub fn same_as(&self, other: &Id16) -> bool
        ensures { result ≡ id_eq self.now other.now }
    {
        self.0 == other.0
    }

    /// The id in text: 32 hex digits in lower case.
    pub fn hex(&self) -> [u8; 32]
        ensures { result ≡ hex_of self.now.0 }
    {
        hex_text(&self.0)
    }

    /// The id that a text of 32 hex digits in lower case names, or `None` where it names none.
    pub fn read_hex(text: &[u8]) -> Option<Id16>
        ensures { MatchOption result ((i : Id16) → IsId i → text.now ≡ hex_of i.0
            → ⊥) (λ i. IsId i × (text.now ≡ hex_of i.0)) }
    {
        // Upper case is read too, and told apart by the text of what was read.
        let id = decoded(text)?;
        if text == id.hex().as_slice() {
            Some(id)
        } else {
            None
        }
    }
}

/// Whether the id is one of these, which ascend.
pub fn is_one_of(ids: &[Id16], id: &Id16) -> bool
    requires { IsSorted (λ a b. slice_cmp nat_cmp a.0 b.0) ids.now }
    ensures { result ≡ has_id id.now ids.now }
{
    ids.binary_search(id).is_ok()
}

// A slice of bytes, of which each is below 256.
fn as_bytes(bytes: &[u8]) -> &[u8]
    ensures same { result.now ≡ bytes.now }
    ensures below { are_bytes bytes.now ≡ true }
{
    bytes
}

// Sixteen bytes as hex digits in lower case.
fn hex_text(bytes: &[u8]) -> [u8; 32]
    requires { length bytes.now ≡ 16 }
    ensures { result ≡ hex_of bytes.now }
{
    let mut text = [0; 32];
    hex::encode_to_slice(bytes, &mut text).unwrap();
    text
}

// The id of 32 hex digits in either case.
fn decoded(text: &[u8]) -> Option<Id16>
    ensures reads { (i : Id16) → IsId i → text.now ≡ hex_of i.0 → result ≡ Some i }
    ensures id { IfSome result IsId }
{
    match <[u8; 16]>::from_hex(text) {
        Ok(bytes) => Some(Id16(bytes)),
        Err(_) => None,
    }
}
