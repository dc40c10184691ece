ghost use Rattle.std.specs.Prelude.{◌≡◌, ℕ, List, ◌++◌, ◌≤◌, length, take, codes, MatchOption};
ghost use Rattle.bcv_base.specs.Log.{name_eq};
ghost use Rattle.bcv_base.specs.Objects.{object_text, IsObject};
ghost use Rattle.bcv_base.specs.declared.object.ObjName.{ObjName};

use crate::id::Id16;

const ENDING: &[u8; 4] = b".bcv";

/// An object of a container: the one manifest, or a block.
#[derive(Clone, Copy, Debug, PartialEq, Eq, PartialOrd, Ord)]
pub enum ObjName {
    Manifest,
    Block(Id16),
}

/// An object's name in text: the first `len` of the bytes.
#[derive(Clone, Copy, Debug)]
pub struct NameText {
    pub len: u8,
    pub bytes: [u8; 36],
}

impl ObjName {
    /// Whether two names are those of one object.
    pub fn same_as(&self, other: &ObjName) -> bool
        ensures { result ≡ name_eq self.now other.now }
    {
        match (self, other) {
            (ObjName::Manifest, ObjName::Manifest) => true,
            (ObjName::Block(id), ObjName::Block(other_id)) => id.same_as(other_id),
            (ObjName::Manifest, ObjName::Block(_)) | (ObjName::Block(_), ObjName::Manifest) =>
                false,
        }
    }

    /// The name in text: `manifest.bcv`, or the block's id in hex and `.bcv`.
    pub fn write(&self) -> NameText
        ensures text { take result.len result.bytes ≡ object_text self.now }
        ensures len { result.len ≡ length (object_text self.now) }
    {
        match self {
            ObjName::Manifest => ended(b"manifest"),
            ObjName::Block(id) => ended(&id.hex()),
        }
    }

    /// The object that a text names, or `None` where it names none.
    pub fn read(text: &[u8]) -> Option<ObjName>
        ensures { MatchOption result ((object : ObjName) → IsObject object
            → text.now ≡ object_text object → ⊥) (λ object. IsObject object
            × (text.now ≡ object_text object)) }
    {
        let stem = stem_of(text)?;
        if stem == b"manifest".as_slice() {
            return Some(ObjName::Manifest);
        }
        Some(ObjName::Block(Id16::read_hex(stem)?))
    }
}

// A text and the ending of every object's name.
fn ended(stem: &[u8]) -> NameText
    requires { length stem.now ≤ 32 }
    ensures text { take result.len result.bytes ≡ stem.now ++ codes ".bcv" }
    ensures len { result.len ≡ length (stem.now ++ codes ".bcv") }
{
    let mut bytes = [0; 36];
    let len = stem.len() + ENDING.len();
    bytes[..stem.len()].copy_from_slice(stem);
    bytes[stem.len()..len].copy_from_slice(ENDING);
    NameText {
        len: len as u8,
        bytes,
    }
}

// A text without the ending of every object's name, or `None` where it ends otherwise.
fn stem_of(text: &[u8]) -> Option<&[u8]>
    ensures { MatchOption result ((stem : List ℕ) → text.now ≡ stem ++ codes ".bcv"
        → ⊥) (λ stem. text.now ≡ stem.now ++ codes ".bcv") }
{
    text.strip_suffix(ENDING)
}
