ghost use Rattle.std.specs.Prelude.{◌≡◌, ◌≢◌, ℕ, ◌<◌, true, List, [], ◌∷◌, ◌++◌, length, Option, if◌then◌else◌, is_ok, Some, None};
ghost use Rattle.std.specs.Option.{MatchOption, option_copied};
ghost use Rattle.std.specs.Vec.{vec_len, vec_capacity};
ghost use Rattle.bcv_base.specs.declared.log.Entry.TheVariants as entry;
ghost use Rattle.bcv_base.specs.declared.outcome.Outcome.TheVariants as outcome;
ghost use Rattle.bcv_base.specs.declared.object.ObjName.TheVariants as object;
ghost use Rattle.bcv_base.specs.Log.{object_of, name_eq, put_count};
ghost use Rattle.bcv_store.specs.Asked.{holds, GetAnswers, ListAnswers};
ghost use Rattle.bcv_store.specs.Within.{IsGotWithin, IsListedWithin};

use crate::places::Places;
use bcv_base::{Entry, Id16, ObjName, Seq};
use bcv_store::{Cond, Got, Listed};
use std::alloc::{AllocError, Global};
use std::marker::Model;

/// A log, with an index of its objects and a count of the manifest's puts beside it, so that nothing walks the log.
/// Contracts see the list of its entries alone.
#[derive(Drop)]
pub struct History {
    entries: Vec<Entry>,
    places: Places,
    manifests: u64,
}

impl Model for History {
    ghost use Rattle.std.specs.Prelude.{◌≡◌, List};
    ghost use Rattle.bcv_base.specs.declared.log.Entry.{Entry};
    ghost use Rattle.bcv_base.specs.declared.object.ObjName.TheVariants as object;
    ghost use Rattle.bcv_base.specs.Log.{put_count};
    ghost use Rattle.bcv_memstore.specs.Index.{IsIndex};

    ghost Value = { List Entry };

    ghost view = { λ h. h.entries.items };

    ghost invariant = { λ h. IsIndex h.places h.entries.items × (h.manifests ≡ put_count object.Manifest h.entries.items) };
}

impl History {
    /// A history of no entry.
    pub fn new(alloc: Global) -> History
        ensures { result ≡ [] }
    {
        History {
            entries: Vec::new(alloc),
            places: Places::new(alloc),
            manifests: 0,
        }
    }

    /// How many entries it has.
    pub fn len(&self) -> usize
        ensures { result ≡ length self.now }
    {
        self.entries.len()
    }

    /// The bytes and the etag of the object of a name, where there is one.
    pub fn object(&self, name: &ObjName) -> Option<(&[u8], u64)>
        ensures { MatchOption result (object_of name.now self.now ≡ None)
            (λ found. object_of name.now self.now
            ≡ Some (record { bytes = found.0.now; etag = found.1 })) }
    {
        match self.entries.get(self.places.get(name)?)? {
            Entry::Put { bytes, etag, .. } => Some((bytes.items(), *etag)),
            Entry::Deleted { .. } => None,
        }
    }

    /// Adds an own put.
    pub fn add_put(&mut self, name: &ObjName, bytes: Seq<u8>, etag: u64) -> Result<(), AllocError>
        ensures { self.new ≡ (if is_ok result then self.old
            ++ entry.Put true name.now bytes etag ∷ [] else self.old) }
    {
        self.entries.reserve(1)?;
        self.places.set(name, self.entries.len())?;
        self.manifests += u64::from(is_manifest(name));
        add(
            &mut self.entries,
            Entry::Put {
                own: true,
                name: *name,
                bytes,
                etag,
            },
        );
        Ok(())
    }

    /// Adds an own deletion.
    pub fn add_deletion(&mut self, name: &ObjName, at: u64) -> Result<(), AllocError>
        ensures { self.new ≡ (if is_ok result then self.old ++ entry.Deleted true name.now at ∷ []
            else self.old) }
    {
        self.entries.reserve(1)?;
        self.places.remove(name);
        add(
            &mut self.entries,
            Entry::Deleted {
                own: true,
                name: *name,
                at,
            },
        );
        Ok(())
    }

    /// How often a manifest was put.
    pub fn manifests(&self) -> u64
        ensures { result ≡ put_count object.Manifest self.now }
    {
        self.manifests
    }

    /// Whether the condition of a put holds.
    pub fn holds(&self, name: &ObjName, cond: Cond) -> bool
        ensures { result ≡ holds cond (object_of name.now self.now) }
    {
        match (cond, self.object(name)) {
            (Cond::Absent, found) => found.is_none(),
            (Cond::Match(wanted), Some((_, etag))) => etag == wanted,
            (Cond::Match(_), None) => false,
        }
    }

    /// Answers a get. `into` is empty.
    pub fn read(&self, name: &ObjName, unless: Option<u64>, into: &mut Vec<u8>, most: usize) -> Got
        requires { into.old.items ≡ [] }
        ensures told { GetAnswers outcome.Ok (object_of name.now self.now) unless most
            into.new.items result }
        ensures within { IsGotWithin unless most into.new.items result }
        ensures answered { result ≢ Got.Failed }
    {
        let (bytes, etag) = match self.object(name) {
            Some(found) => found,
            None => return Got::Missing,
        };
        if unless == Some(etag) {
            return Got::Same;
        }
        if bytes.len() > most {
            return Got::TooLong(bytes.len() as u64);
        }
        match into.extend_from_slice(bytes) {
            Ok(()) => Got::Found(etag),
            Err(_) => Got::NoMemory,
        }
    }

    /// Answers a list. `into` is empty.
    pub fn list(&self, after: Option<&Id16>, into: &mut Vec<Id16>) -> Listed
        requires { into.old.items ≡ [] }
        ensures told { ListAnswers outcome.Ok self.now
            (option_copied after.entry) into.new.items result }
        ensures within { IsListedWithin (option_copied after.entry) into.new.items result }
        ensures answered { result ≢ Listed.Failed }
    {
        match self.places.ids_above(after, into) {
            Ok(true) => Listed::More,
            Ok(false) => Listed::End,
            Err(_) => {
                into.clear();
                Listed::NoMemory
            }
        }
    }
}

// Whether the name is the manifest's.
fn is_manifest(name: &ObjName) -> bool
    ensures { result ≡ name_eq name.now object.Manifest }
{
    match name {
        ObjName::Manifest => true,
        ObjName::Block(_) => false,
    }
}

// Adds an entry for which there is room.
fn add(entries: &mut Vec<Entry>, entry: Entry)
    requires { vec_len entries.old < vec_capacity entries.old }
    ensures { entries.new.items ≡ entries.old.items ++ entry ∷ [] }
{
    match entries.push(entry) {
        Ok(()) => {}
        Err(_) => unreachable!(),
    }
}
