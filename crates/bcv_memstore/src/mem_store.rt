ghost use Rattle.std.specs.Prelude.{◌≡◌, ◌≢◌, ℕ, ◌+◌, ◌≤◌, List, [], ◌∷◌, length, true, IfOk, OnErr, if◌then◌else◌, is_ok};
ghost use Rattle.std.specs.Option.{option_copied};
ghost use Rattle.bcv_base.specs.Log.{object_of, put_count};
ghost use Rattle.bcv_base.specs.Plan.{one_more};
ghost use Rattle.bcv_base.specs.declared.object.ObjName.TheVariants as object;
ghost use Rattle.bcv_base.specs.declared.outcome.Outcome.TheVariants as outcome;
ghost use Rattle.bcv_store.specs.Plans.{next_of, rest_of};
ghost use Rattle.bcv_store.specs.Asked.{holds, PutAnswers, DeleteAnswers, Adds};
ghost use Rattle.bcv_store.specs.Requests.{StoreGets, StorePuts, StoreDeletes, StoreLists};
ghost use Rattle.bcv_memstore.specs.Etags.{are_numbered};
ghost use Rattle.bcv_memstore.specs.Planned.{planned_at};

use crate::history::History;
use crate::plan::Plan;
use bcv_base::{Id16, ObjName, Outcome, Seq};
use bcv_store::{Cond, Del, Got, Listed, Put, Store};
use std::alloc::{AllocError, Global};

/// A store in memory.
///
/// The etag of a put is the number of the log's entries up to it. The entries stand in one vector, so their number, and
/// with it each etag, is below 2^64.
#[derive(Drop)]
pub struct MemStore {
    history: History,
    plan: Plan,
    faults: u64,

    ghost numbered: { are_numbered 0 history ≡ true },
}

impl MemStore {
    ghost use Rattle.bcv_memstore.specs.Told.{log_of, plan_of, faults_of, CountsFault, IsNumbered};

    /// Makes a store of no object, with nothing planned.
    pub fn new(alloc: Global) -> MemStore
        ensures log { log_of result ≡ [] }
        ensures plan { plan_of result ≡ [] }
        ensures faults { faults_of result ≡ 0 }
    {
        MemStore {
            history: History::new(alloc),
            plan: Plan::new(alloc),
            faults: 0,
        }
    }

    /// Sets the outcome of the next request.
    pub fn plan(&mut self, outcome: Outcome)
        ensures log { log_of self.new ≡ log_of self.old }
        ensures plan { plan_of self.new ≡ outcome ∷ rest_of (plan_of self.old) }
        ensures faults { faults_of self.new ≡ faults_of self.old }
    {
        self.plan.set_next(outcome);
    }

    /// Sets the outcome of the request after `calls` further ones. Without memory nothing is planned.
    pub fn plan_at(&mut self, calls: u32, outcome: Outcome) -> Result<(), AllocError>
        ensures log { log_of self.new ≡ log_of self.old }
        ensures plan { plan_of self.new ≡ (if is_ok result
            then planned_at calls outcome (plan_of self.old) else plan_of self.old) }
        ensures faults { faults_of self.new ≡ faults_of self.old }
    {
        self.plan.set(calls, outcome)
    }

    /// How many entries the log has.
    pub fn log_len(&self) -> usize
        ensures { result ≡ length (log_of self.now) }
    {
        self.history.len()
    }

    /// How often a manifest was put.
    pub fn version_count(&self) -> u64
        ensures { result ≡ put_count object.Manifest (log_of self.now) }
    {
        self.history.manifests()
    }

    // Counts a request that fails.
    fn count_fault(&mut self)
        ensures log { log_of self.new ≡ log_of self.old }
        ensures plan { plan_of self.new ≡ plan_of self.old }
        ensures faults { faults_of self.new ≡ one_more (faults_of self.old) }
        ensures later { faults_of self.old ≤ faults_of self.new }
    {
        self.faults = self.faults.saturating_add(1);
    }

    // Puts an object without regard to the plan.
    fn write(&mut self, alloc: Global, name: &ObjName, cond: Cond, bytes: &[u8]) -> Put
        ensures told { PutAnswers outcome.Ok (holds cond (object_of name.now (log_of self.old)))
            (log_of self.old) (log_of self.new) name.now bytes.now result }
        ensures numbered { IsNumbered (log_of self.new) result }
        ensures answered { result ≢ Put.Failed }
        ensures plan { plan_of self.new ≡ plan_of self.old }
        ensures faults { faults_of self.new ≡ faults_of self.old }
    {
        if !self.history.holds(name, cond) {
            return Put::Refused;
        }
        match self.append(alloc, name, bytes) {
            Ok(etag) => Put::Stored(etag),
            Err(_) => Put::NoMemory,
        }
    }

    // Appends a deletion without regard to the plan.
    fn erase(&mut self, name: &ObjName, at: u64) -> Del
        ensures told { DeleteAnswers outcome.Ok (log_of self.old)
            (log_of self.new) name.now at result }
        ensures answered { result ≢ Del.Failed }
        ensures plan { plan_of self.new ≡ plan_of self.old }
        ensures faults { faults_of self.new ≡ faults_of self.old }
    {
        match self.history.add_deletion(name, at) {
            Ok(()) => Del::Done,
            Err(_) => Del::NoMemory,
        }
    }

    // Puts an object and loses the answer, but for want of memory, which is told.
    fn lose_put(&mut self, alloc: Global, name: &ObjName, cond: Cond, bytes: &[u8]) -> Put
        ensures told { PutAnswers outcome.Lost (holds cond (object_of name.now (log_of self.old)))
            (log_of self.old) (log_of self.new) name.now bytes.now result }
        ensures numbered { IsNumbered (log_of self.new) result }
        ensures plan { plan_of self.new ≡ plan_of self.old }
        ensures later { faults_of self.old ≤ faults_of self.new }
        ensures counts { CountsFault (result ≡ Put.Failed) (faults_of self.old)
            (faults_of self.new) }
    {
        match self.write(alloc, name, cond, bytes) {
            Put::NoMemory => Put::NoMemory,
            Put::Stored(_) | Put::Refused | Put::Failed => {
                self.count_fault();
                Put::Failed
            }
        }
    }

    // Appends a deletion and loses the answer, but for want of memory, which is told.
    fn lose_deletion(&mut self, name: &ObjName, at: u64) -> Del
        ensures told { DeleteAnswers outcome.Lost (log_of self.old)
            (log_of self.new) name.now at result }
        ensures plan { plan_of self.new ≡ plan_of self.old }
        ensures later { faults_of self.old ≤ faults_of self.new }
        ensures counts { CountsFault (result ≡ Del.Failed) (faults_of self.old)
            (faults_of self.new) }
    {
        match self.erase(name, at) {
            Del::NoMemory => Del::NoMemory,
            Del::Done | Del::Failed => {
                self.count_fault();
                Del::Failed
            }
        }
    }

    // Appends a put, whose etag is the number of the entries with it.
    fn append(&mut self, alloc: Global, name: &ObjName, bytes: &[u8]) -> Result<u64, AllocError>
        ensures added { IfOk result (λ etag. Adds (log_of self.old)
            (log_of self.new) name.now bytes.now etag) }
        ensures numbered { IfOk result (λ etag. etag ≡ length (log_of self.new)) }
        ensures kept { OnErr result (log_of self.new ≡ log_of self.old) }
        ensures plan { plan_of self.new ≡ plan_of self.old }
        ensures faults { faults_of self.new ≡ faults_of self.old }
    {
        let etag = number_after(self.history.len())?;
        let bytes = Vec::from_slice(alloc, bytes)?;
        self.history.add_put(name, Seq::of(bytes), etag)?;
        Ok(etag)
    }
}

impl Store for MemStore {
    ghost use Rattle.std.specs.Prelude.{◌≤◌};
    ghost use Rattle.std.proofs.Common.{arith};
    ghost use Rattle.bcv_memstore.specs.EtagLaws.{rising_numbered};
    ghost use Rattle.bcv_memstore.specs.Told.{told_here, shown_by, log_of, faults_of, CountsFault, IsNumbered};

    ghost told = { told_here };

    ghost shown = { shown_by };

    ghost reaches = { λ old new. faults_of old ≤ faults_of new };

    fn get(
        &mut self,
        alloc: Global,
        name: &ObjName,
        unless: Option<u64>,
        into: &mut Vec<u8>,
        most: usize,
    ) -> Got
        ensures gets { StoreGets told_here (shown_by self.old)
            (shown_by self.new) name.now unless most into.new.items result }
        ensures reached { faults_of self.old ≤ faults_of self.new }
        ensures counts { CountsFault (result ≡ Got.Failed) (faults_of self.old)
            (faults_of self.new) }
    {
        let _ = alloc;
        into.clear();
        match self.plan.take() {
            Outcome::Ok => self.history.read(name, unless, into, most),
            Outcome::Fail | Outcome::Lost => {
                self.count_fault();
                Got::Failed
            }
        }
    }

    fn put(&mut self, alloc: Global, name: &ObjName, cond: Cond, bytes: &[u8]) -> Put
        ensures puts { StorePuts told_here (shown_by self.old)
            (shown_by self.new) name.now cond bytes.now result }
        ensures reached { faults_of self.old ≤ faults_of self.new }
        ensures counts { CountsFault (result ≡ Put.Failed) (faults_of self.old)
            (faults_of self.new) }
        ensures numbered { IsNumbered (log_of self.new) result }
    {
        match self.plan.take() {
            Outcome::Ok => self.write(alloc, name, cond, bytes),
            Outcome::Fail => {
                self.count_fault();
                Put::Failed
            }
            Outcome::Lost => self.lose_put(alloc, name, cond, bytes),
        }
    }

    fn delete(&mut self, alloc: Global, name: &ObjName, at: u64) -> Del
        ensures deletes { StoreDeletes told_here (shown_by self.old)
            (shown_by self.new) name.now at result }
        ensures reached { faults_of self.old ≤ faults_of self.new }
        ensures counts { CountsFault (result ≡ Del.Failed) (faults_of self.old)
            (faults_of self.new) }
    {
        let _ = alloc;
        match self.plan.take() {
            Outcome::Ok => self.erase(name, at),
            Outcome::Fail => {
                self.count_fault();
                Del::Failed
            }
            Outcome::Lost => self.lose_deletion(name, at),
        }
    }

    fn list(&mut self, alloc: Global, after: Option<&Id16>, into: &mut Vec<Id16>) -> Listed
        ensures lists { StoreLists told_here (shown_by self.old) (shown_by self.new)
            (option_copied after.entry) into.new.items result }
        ensures reached { faults_of self.old ≤ faults_of self.new }
        ensures counts { CountsFault (result ≡ Listed.Failed) (faults_of self.old)
            (faults_of self.new) }
    {
        let _ = alloc;
        into.clear();
        match self.plan.take() {
            Outcome::Ok => self.history.list(after, into),
            Outcome::Fail | Outcome::Lost => {
                self.count_fault();
                Listed::Failed
            }
        }
    }

    ghost rising = { λ store told. rising_numbered 0 store.history store.numbered };

    ghost same = { λ store. omega arith };

    ghost through = { λ first second third earlier later. omega (arith, earlier, later) };

    ghost counted = { λ old new reached. reached };
}

// The number of the entry after so many; a vector could not hold more than the last one.
fn number_after(entries: usize) -> Result<u64, AllocError>
    ensures { IfOk result (λ number. number ≡ entries + 1) }
{
    if entries == usize::MAX {
        return Err(AllocError);
    }
    Ok(entries as u64 + 1)
}
