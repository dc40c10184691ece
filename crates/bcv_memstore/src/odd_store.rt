ghost use Rattle.std.specs.Prelude.{◌≡◌, ◌∷◌, [], None, if◌then◌else◌, is_ok, true, false};
ghost use Rattle.std.specs.Option.{option_copied};
ghost use Rattle.bcv_store.specs.Requests.{StoreGets, StorePuts, StoreDeletes, StoreLists};
ghost use Rattle.bcv_store.specs.Within.{IsGotWithin};
ghost use Rattle.bcv_memstore.specs.declared.odd_store.Oddity.TheVariants as odd;
ghost use Rattle.bcv_memstore.specs.Odd.{oddity_in, GivesOdd, GivesSwapped, is_new_block};

use crate::mem_store::MemStore;
use bcv_base::{Id16, ObjName};
use bcv_store::{Cond, Del, Got, Listed, Put, Store};
use std::alloc::{AllocError, Global};

/// What is odd about an object: other bytes stand in its place, or it is hidden.
#[derive(Drop)]
pub enum Oddity {
    Swapped(Vec<u8>),
    Hidden,
}

// An odd object.
#[derive(Drop)]
struct OddObject {
    name: ObjName,
    oddity: Oddity,
}

/// A store in memory that does not keep what was put: some objects are swapped or hidden, and it may refuse new blocks.
/// It tells nothing, as a store that was damaged or meddled with. What is not odd is asked of the store within.
#[derive(Drop)]
pub struct OddStore {
    inner: MemStore,
    odd: Vec<OddObject>,
    refuses_blocks: bool,
}

impl OddStore {
    /// Takes a store in which nothing is odd.
    pub fn new(alloc: Global, inner: MemStore) -> OddStore
        ensures inner { result.inner ≡ inner }
        ensures plain { result.odd.items ≡ [] }
        ensures open { result.refuses_blocks ≡ false }
    {
        OddStore {
            inner,
            odd: Vec::new(alloc),
            refuses_blocks: false,
        }
    }

    /// Lets each get of the object give these bytes, with the etag 0, which no object of the store within has.
    pub fn swap(&mut self, name: ObjName, bytes: Vec<u8>) -> Result<(), AllocError>
        ensures inner { self.new.inner ≡ self.old.inner }
        ensures odd { self.new.odd.items ≡ (if is_ok result
            then record { name = name; oddity = odd.Swapped bytes } ∷ self.old.odd.items
            else self.old.odd.items) }
        ensures open { self.new.refuses_blocks ≡ self.old.refuses_blocks }
    {
        self.add(name, Oddity::Swapped(bytes))
    }

    /// Lets each get of the object find none.
    pub fn hide(&mut self, name: ObjName) -> Result<(), AllocError>
        ensures inner { self.new.inner ≡ self.old.inner }
        ensures odd { self.new.odd.items ≡ (if is_ok result
            then record { name = name; oddity = odd.Hidden } ∷ self.old.odd.items
            else self.old.odd.items) }
        ensures open { self.new.refuses_blocks ≡ self.old.refuses_blocks }
    {
        self.add(name, Oddity::Hidden)
    }

    /// Lets each put of a new block be refused.
    pub fn refuse_blocks(&mut self)
        ensures inner { self.new.inner ≡ self.old.inner }
        ensures odd { self.new.odd.items ≡ self.old.odd.items }
        ensures refuses { self.new.refuses_blocks ≡ true }
    {
        self.refuses_blocks = true;
    }

    // The newest oddity of a name stands first.
    fn add(&mut self, name: ObjName, oddity: Oddity) -> Result<(), AllocError>
        ensures inner { self.new.inner ≡ self.old.inner }
        ensures odd { self.new.odd.items ≡ (if is_ok result
            then record { name = name; oddity = oddity } ∷ self.old.odd.items
            else self.old.odd.items) }
        ensures open { self.new.refuses_blocks ≡ self.old.refuses_blocks }
    {
        self.odd.insert(0, OddObject { name, oddity })?;
        Ok(())
    }

    // What is odd about the object of a name.
    fn oddity(&self, name: &ObjName) -> Option<&Oddity>
        ensures { option_copied result ≡ oddity_in self.now.odd.items name.now }
    {
        let found = self.odd.iter().find(|object| object.name == *name)?;
        Some(&found.oddity)
    }
}

impl Store for OddStore {
    ghost use Rattle.std.specs.Prelude.{◌≡◌, ◌≤◌, [], Some, None};
    ghost use Rattle.std.proofs.Common.{arith};
    ghost use Rattle.bcv_base.specs.Faults.{Rose};
    ghost use Rattle.bcv_store.specs.StoreShown.{StoreShown};
    ghost use Rattle.bcv_store.specs.declared.store.Put.TheVariants as put;
    ghost use Rattle.bcv_memstore.specs.Told.{told_here, shown_by, faults_of};

    ghost told = { record { tells = ⊥; alone = ⊥; plans = ⊥ } };

    ghost shown = { λ store. record { log = []; plan = []; faults = faults_of store.inner } };

    ghost reaches = { λ old new. faults_of old.inner ≤ faults_of new.inner };

    fn get(
        &mut self,
        alloc: Global,
        name: &ObjName,
        unless: Option<u64>,
        into: &mut Vec<u8>,
        most: usize,
    ) -> Got
        ensures odd { (x : _) → oddity_in self.old.odd.items name.now ≡ Some x
            → GivesOdd x most into.new.items result }
        ensures within { IsGotWithin unless most into.new.items result }
        ensures later { faults_of self.old.inner ≤ faults_of self.new.inner }
        ensures failed { result ≡ Got.Failed
            → Rose (faults_of self.old.inner) (faults_of self.new.inner) }
        ensures plain { oddity_in self.old.odd.items name.now ≡ None
            → StoreGets told_here (shown_by self.old.inner)
            (shown_by self.new.inner) name.now unless most into.new.items result }
    {
        into.clear();
        match self.oddity(name) {
            None => self.inner.get(alloc, name, unless, into, most),
            Some(Oddity::Hidden) => Got::Missing,
            Some(Oddity::Swapped(bytes)) => swapped(bytes, into, most),
        }
    }

    fn put(&mut self, alloc: Global, name: &ObjName, cond: Cond, bytes: &[u8]) -> Put
        ensures later { faults_of self.old.inner ≤ faults_of self.new.inner }
        ensures failed { result ≡ Put.Failed
            → Rose (faults_of self.old.inner) (faults_of self.new.inner) }
        ensures refused { self.old.refuses_blocks ≡ true → is_new_block name.now cond ≡ true
            → result ≡ put.Refused }
        ensures open { self.old.refuses_blocks ≡ false
            → StorePuts told_here (shown_by self.old.inner)
            (shown_by self.new.inner) name.now cond bytes.now result }
    {
        match (name, cond) {
            (ObjName::Block(_), Cond::Absent) if self.refuses_blocks => Put::Refused,
            _ => self.inner.put(alloc, name, cond, bytes),
        }
    }

    fn delete(&mut self, alloc: Global, name: &ObjName, at: u64) -> Del
        ensures inner { StoreDeletes told_here (shown_by self.old.inner)
            (shown_by self.new.inner) name.now at result }
    {
        self.inner.delete(alloc, name, at)
    }

    fn list(&mut self, alloc: Global, after: Option<&Id16>, into: &mut Vec<Id16>) -> Listed
        ensures inner { StoreLists told_here (shown_by self.old.inner) (shown_by self.new.inner)
            (option_copied after.entry) into.new.items result }
    {
        self.inner.list(alloc, after, into)
    }

    ghost rising = { λ store told. absurd told };

    ghost same = { λ store. omega arith };

    ghost through = { λ first second third earlier later. omega (arith, earlier, later) };

    ghost counted = { λ old new reached. reached };
}

// Gives bytes in place of an object's own. `into` is empty.
fn swapped(bytes: &[u8], into: &mut Vec<u8>, most: usize) -> Got
    requires { into.old.items ≡ [] }
    ensures given { GivesSwapped bytes.now most into.new.items result }
    ensures within { (unless : _) → IsGotWithin unless most into.new.items result }
{
    if bytes.len() > most {
        return Got::TooLong(bytes.len() as u64);
    }
    match into.extend_from_slice(bytes) {
        Ok(()) => Got::Found(0),
        Err(_) => Got::NoMemory,
    }
}
