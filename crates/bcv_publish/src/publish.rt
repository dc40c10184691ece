ghost use Rattle.std.specs.Prelude.{◌≡◌, IsSome, MatchOption};
ghost use Rattle.std.specs.Option.{option_map, option_copied};
ghost use Rattle.bcv_publish.specs.State.{new_publish};

use crate::refused::Refused;
use bcv_base::{Id16, Latest, Manifest};
use std::marker::Model;

/// The publication of an edit: its manifest is read, the edit applied to it, and the result put in its place.
///
/// A `get` that answers `More` keeps the manifest that it read, and so does a `put` that answers `Published` with the one
/// that it put. A refused `put` keeps none: the next call is a `get` again. After eight refused ones there is no further
/// `put`.
#[derive(Drop)]
pub struct Publish {
    pub(crate) writer: Id16,
    pub(crate) id: Id16,
    pub(crate) latest: Option<Latest>,
    pub(crate) refused: Refused,
    pub(crate) block: Option<u32>,
}

impl Model for Publish {
    ghost use Rattle.bcv_publish.specs.State.{State, RisesTo};

    ghost Value = { State };

    ghost view = { λ p. record { writer = p.writer; id = p.id; latest = p.latest; refused = p.refused; block = p.block } };

    ghost invariant = { λ p. RisesTo p.refused p.latest };
}

impl Publish {
    /// A publication by a writer under a drawn id, of which nothing was read yet.
    pub fn new(writer: Id16, id: Id16) -> Publish
        ensures { result ≡ new_publish writer id }
    {
        Publish {
            writer,
            id,
            latest: None,
            refused: Refused::new(),
            block: None,
        }
    }

    /// The manifest that is kept.
    pub fn manifest(&self) -> Option<&Manifest>
        ensures { option_copied result ≡ option_map (λ l. l.manifest) self.now.latest }
    {
        match self.latest() {
            Some(latest) => Some(&latest.manifest),
            None => None,
        }
    }

    /// The etag of the manifest that is kept.
    pub fn etag(&self) -> u64
        requires { IsSome self.now.latest }
        ensures { MatchOption self.now.latest ⊥ (λ l. result ≡ l.etag) }
    {
        match &self.latest {
            Some(latest) => latest.etag,
            None => unreachable!(),
        }
    }

    /// The manifest that is kept, with its etag.
    pub fn latest(&self) -> Option<&Latest>
        ensures { option_copied result ≡ self.now.latest }
    {
        self.latest.as_ref()
    }

    /// The manifest that was read last, or the one that was put, with its etag; the publication ends.
    pub fn into_latest(self) -> Option<Latest>
        ensures { result ≡ self.latest }
    {
        self.latest
    }
}
