ghost use Rattle.std.specs.Prelude.{true};
ghost use Rattle.std.specs.Option.{option_copied};
ghost use Rattle.bcv_store.specs.Requests.{StoreGets, StorePuts, StoreDeletes, StoreLists};

use bcv_base::{Id16, ObjName};
use std::alloc::Global;

/// The condition of a put: that there is no object of the name, or that the object has this etag.
#[derive(Clone, Copy, Debug, PartialEq, Eq)]
pub enum Cond {
    Absent,
    Match(u64),
}

/// What a get answers: the object's etag, that the etag is the one that was known, that there is no object, that it has
/// this many bytes, which are too many, that the request failed, or want of memory.
#[derive(Clone, Copy, Debug, PartialEq, Eq)]
pub enum Got {
    Found(u64),
    Same,
    Missing,
    TooLong(u64),
    Failed,
    NoMemory,
}

/// What a put answers: the etag of the new object, that its condition does not hold, that the request failed, or want of
/// memory. After a failed put it is open whether the object was put.
#[derive(Clone, Copy, Debug, PartialEq, Eq)]
pub enum Put {
    Stored(u64),
    Refused,
    Failed,
    NoMemory,
}

/// What a delete answers: that the name has no object now, that the request failed, or want of memory. After a failed
/// delete it is open whether the object was deleted.
#[derive(Clone, Copy, Debug, PartialEq, Eq)]
pub enum Del {
    Done,
    Failed,
    NoMemory,
}

/// What a list answers: that there are further ids, that there are none, that the request failed, or want of memory.
#[derive(Clone, Copy, Debug, PartialEq, Eq)]
pub enum Listed {
    More,
    End,
    Failed,
    NoMemory,
}

/// A store of objects. Each call is one request, which is whole or without effect.
///
/// Where the store tells a plan, each request takes the first outcome away, whatever it answers.
pub trait Store {
    ghost use Rattle.std.specs.Prelude.{◌≡◌, ◌≤◌};
    ghost use Rattle.bcv_base.specs.Log.{are_rising};
    ghost use Rattle.bcv_store.specs.StoreShown.{StoreTold, StoreShown};

    /// What all stores of this type tell: their log, that no one else appends to it, and the plan of their requests.
    ghost told: { StoreTold };

    /// What the store shows: its log, the outcomes of its next requests, and how many requests have failed.
    ghost shown: { Self → StoreShown };

    /// The second store is the first one after some of its calls.
    ghost reaches: { Self → Self → Type 0 };

    /// Answers with the object of a name, unless it has the etag `unless`. An object of at most `most` bytes is left in
    /// `into`, which is empty after every answer but `Found`.
    fn get(
        &mut self,
        alloc: Global,
        name: &ObjName,
        unless: Option<u64>,
        into: &mut Vec<u8>,
        most: usize,
    ) -> Got
        ensures gets { StoreGets told (shown self.old)
            (shown self.new) name.now unless most into.new.items result }
        ensures reached { reaches self.old self.new };

    /// Puts an object under a name where the condition holds.
    fn put(&mut self, alloc: Global, name: &ObjName, cond: Cond, bytes: &[u8]) -> Put
        ensures puts { StorePuts told (shown self.old)
            (shown self.new) name.now cond bytes.now result }
        ensures reached { reaches self.old self.new };

    /// Deletes the object of a name, where there is one. `at` is the moment by which the caller decided, in seconds.
    fn delete(&mut self, alloc: Global, name: &ObjName, at: u64) -> Del
        ensures deletes { StoreDeletes told (shown self.old) (shown self.new) name.now at result }
        ensures reached { reaches self.old self.new };

    /// Lists the ids of the blocks that are there, above `after`, the first 1,024 of them, left in `into`, which is empty
    /// after `Failed` and `NoMemory`.
    fn list(&mut self, alloc: Global, after: Option<&Id16>, into: &mut Vec<Id16>) -> Listed
        ensures lists { StoreLists told (shown self.old) (shown self.new)
            (option_copied after.entry) into.new.items result }
        ensures reached { reaches self.old self.new };

    /// Under each name the etags rise.
    ghost rising: { (store : Self) → told.tells → are_rising (shown store).log ≡ true };

    /// A store is itself after no call.
    ghost same: { (store : Self) → reaches store store };

    /// Calls after calls are calls.
    ghost through: { (first second third : Self) → reaches first second → reaches second third → reaches first third };

    /// No call lowers the count of faults.
    ghost counted: { (old new : Self) → reaches old new → (shown old).faults ≤ (shown new).faults };
}
