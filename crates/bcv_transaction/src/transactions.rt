//! The open transactions with their cache, and the calls.
ghost use Rattle.std.specs.Prelude.{◌≡◌, ℕ, ◌≤◌, [], List, None, Some, IfSome, false, length, nat_le, true};
ghost use Rattle.std.specs.Option.{option_copied};
ghost use Rattle.bcv_base.specs.History.{Item};
ghost use Rattle.bcv_base.specs.ManifestRules.{MeetsEntryRules, is_block_size};
ghost use Rattle.bcv_cache.specs.Cache.{has_room, slot_of};
ghost use Rattle.bcv_machine.specs.State.{Side, ToHold, ToRead, Up};
ghost use Rattle.bcv_pages.specs.Held.{CanView, Held};
ghost use Rattle.bcv_publish.specs.Request.{OverSoundLog};
ghost use Rattle.bcv_snapshot.specs.BlockFetch.{BlockFetches};
ghost use Rattle.bcv_transaction.specs.OpenCalls.{Begins, CallsIn, OpensCache};
ghost use Rattle.bcv_transaction.specs.ListCalls.{EndsIn, FreesIn, HoldsIn, LooksIn, ReadsIn};
ghost use Rattle.bcv_transaction.specs.FitLaws.{LeavesFit};
ghost use Rattle.bcv_transaction.specs.MachineCalls.{
  AreFit,
  BeginsAs,
  Comes,
  EndsAs,
  FreesAs,
  IsKnownBase,
  IsSetOf,
  LooksAs,
  StandsFor,
  side_with,
};
ghost use Rattle.bcv_transaction.specs.Open.{AreOpen, CanRead, base_in, oldest_in, set_in, txn_at};
ghost use Rattle.bcv_transaction.specs.UploadCalls.{Uploads};
ghost use Rattle.bcv_upload.specs.State.{HoldsView, IsRunning, is_ready, view_in};

use crate::answers::{Begun, Came, Freed};
use crate::numbers::{MOST_TXNS, least_free};
use crate::open_txn::OpenTxn;
use crate::txn_list::{
    base_of, end_every, end_in, fetch_in, free_in, hold_in, look_in, oldest_of, push_txn, read_in,
    set_of, upload_in,
};
use bcv_base::{Id16, Names, Seen, TxnBase};
use bcv_cache::BlockCache;
use bcv_pages::PageSet;
use bcv_publish::Work;
use bcv_snapshot::{Fetched, Look, Txn};
use bcv_store::Store;
use bcv_upload::Upload;
use std::alloc::{AllocError, Global};
use std::marker::Model;

/// The transactions that one client has open, with the cache of blocks that they share.
pub struct Transactions {
    slots: u16,
    cache: Option<BlockCache>,
    txns: Vec<OpenTxn>,
}

impl Model for Transactions {
    ghost use Rattle.bcv_transaction.specs.Open.{AreOpen, Open};

    ghost Value = { Open };

    ghost view = { λ t. record { slots = t.slots; cache = t.cache; txns = t.txns.items } };

    ghost invariant = { λ t. AreOpen (record { slots = t.slots; cache = t.cache; txns = t.txns.items }) };
}

impl Transactions {
    /// No transaction, for a cache of as many as `slots` blocks and at most 2^30 bytes of them. The cache is made once the
    /// size of a block is known.
    pub fn new(alloc: Global, slots: u16) -> Transactions
        ensures { result ≡ record { slots = slots; cache = None; txns = [] } }
    {
        Transactions {
            slots,
            cache: None,
            txns: Vec::new(alloc),
        }
    }

    /// Makes the cache for blocks of `block` bytes, unless it is there.
    pub fn open_cache(&mut self, alloc: Global, block: u32) -> Result<(), AllocError>
        requires { 1 ≤ block }
        ensures made { OpensCache self.old block result self.new }
        ensures are_open { AreOpen self.new }
    {
        if self.cache.is_some() {
            return Ok(());
        }
        self.cache = Some(BlockCache::new(alloc, self.slots, block)?);
        Ok(())
    }

    /// Whether 64 transactions are open, so that none can begin.
    pub fn is_full(&self) -> bool
        ensures full { result ≡ nat_le 64 (length self.now.txns) }
        ensures are_open { AreOpen self.now }
    {
        self.txns.len() >= MOST_TXNS
    }

    /// What a transaction reads from, or `None` where it is not open.
    pub fn opened(&self, number: u8) -> Option<&TxnBase>
        ensures { option_copied result ≡ base_in number self.now.txns }
    {
        base_of(&self.txns, number)
    }

    /// The number of the set that a transaction reads, or `None` where it is not open.
    pub fn set_of(&self, number: u8) -> Option<usize>
        ensures { result ≡ set_in number self.now.txns }
    {
        set_of(&self.txns, number)
    }

    /// The least number after which the commits of a transaction over a set begin, or `None` where none is over the set.
    pub fn oldest(&self, set: usize) -> Option<u64>
        ensures { result ≡ oldest_in set self.now.txns }
    {
        oldest_of(&self.txns, set)
    }

    /// Begins a transaction over a base whose commits are in `pages`, the set of the number `set`. It holds no block.
    pub fn begin(&mut self, alloc: Global, base: TxnBase, set: usize, pages: &PageSet) -> Begun
        requires view { CanView pages.now base.from base.to }
        requires entry { MeetsEntryRules base.block base.entry }
        requires block { is_block_size base.block ≡ true }
        requires page_size { pages.now.page_size ≡ base.entry.page_size }
        requires same_block { IfSome self.old.cache (λ c. c.block ≡ base.block) }
        ensures begins { Begins self.old base set pages.now result self.new }
        ensures are_open { AreOpen self.new }
        ensures machine { (past : List Item) (sets : ℕ → Held) (s : Side) (u : Up)
            → StandsFor past sets self.old s u → sets set ≡ pages.now
            → IsKnownBase past s u base pages.now
            → BeginsAs s u base.entry.name result (side_with past sets s u self.new.txns) }
    {
        if self.txns.len() >= MOST_TXNS {
            return Begun::TooMany;
        }
        if self.open_cache(alloc, base.block).is_err() {
            return Begun::NoMemory;
        }
        if self.txns.reserve(1).is_err() {
            return Begun::NoMemory;
        }
        let number = least_free(&self.txns);
        let txn = Txn::begin(alloc, base, pages);
        push_txn(&mut self.txns, OpenTxn { number, set, txn });
        Begun::Number(number)
    }

    /// Reads a page of a transaction, whose set of pages is handed in. A cached block that it lies in becomes the most
    /// recent one.
    pub fn read(&mut self, alloc: Global, number: u8, page: u32, pages: &PageSet) -> Came
        requires { IfSome (txn_at number self.old.txns) (CanRead pages.now) }
        ensures reads { CallsIn self.old self.new (result ≡ Came.NoTxn)
            (λ c d. ReadsIn pages.now c self.old.txns number page result d) }
        ensures same { self.new.txns ≡ self.old.txns }
        ensures are_open { AreOpen self.new }
        ensures machine { (past : List Item) (sets : ℕ → Held) (s : Side) (u : Up)
            → StandsFor past sets self.old s u → IsSetOf pages.now sets number self.old.txns
            → Comes ToRead s u number page result (side_with past sets s u self.new.txns) }
    {
        match &mut self.cache {
            Some(cache) => read_in(alloc, &self.txns, cache, number, page, pages),
            None => Came::NoTxn,
        }
    }

    /// Holds the block of a page of a transaction in the cache, until it is freed or the transaction ends; of a local page
    /// nothing is held. A cached block that it lies in becomes the most recent one.
    pub fn hold(&mut self, number: u8, page: u32, pages: &PageSet) -> Came
        requires { IfSome (txn_at number self.old.txns) (CanRead pages.now) }
        ensures holds { CallsIn self.old self.new (result ≡ Came.NoTxn)
            (λ c d. HoldsIn pages.now c self.old.txns number page result self.new.txns d) }
        ensures are_open { AreOpen self.new }
        ensures machine { (past : List Item) (sets : ℕ → Held) (s : Side) (u : Up)
            → StandsFor past sets self.old s u → IsSetOf pages.now sets number self.old.txns
            → Comes ToHold s u number page result (side_with past sets s u self.new.txns) }
    {
        match &mut self.cache {
            Some(cache) => hold_in(&mut self.txns, cache, number, page, pages),
            None => Came::NoTxn,
        }
    }

    /// Brings a block of `block` bytes into the cache, whose id a read or a hold answered, by one get. A block that came in
    /// meanwhile is found without a request. Before the cache is made none can come in.
    pub fn fetch<S: Store>(&mut self, alloc: Global, store: &mut S, id: Id16, block: u32) -> Fetched
        requires block { IfSome self.old.cache (λ c. c.block ≡ block) }
        ensures fetches { CallsIn self.old self.new (result ≡ Fetched.CacheFull)
            (λ c d. BlockFetches (slot_of id c.entries) (has_room c) S.told
            (S.shown store.old) (S.shown store.new) id c result d) }
        ensures same { self.new.txns ≡ self.old.txns }
        ensures are_open { AreOpen self.new }
        ensures fit { OverSoundLog S.told (S.shown store.old) (S.shown store.new)
            (λ mine. LeavesFit (S.shown store.old) (S.shown store.new) self.old self.new) }
        ensures reached { S.reaches store.old store.new }
    {
        match &mut self.cache {
            Some(cache) => fetch_in(alloc, store, &self.txns, cache, id, block),
            None => Fetched::CacheFull,
        }
    }

    /// Makes the next request of an upload, which is not ready, over the cache, which is made where it is not there. See
    /// [`Upload::work`].
    pub fn upload<S: Store, N: Names>(
        &mut self,
        alloc: Global,
        store: &mut S,
        names: &mut N,
        task: &mut Upload,
        seen: &Seen,
        pages: &PageSet,
    ) -> Work
        requires running { IsRunning task.old }
        requires not_ready { is_ready task.old ≡ false }
        requires view { HoldsView pages.now task.old }
        requires seen { seen.now.block ≡ Some task.old.base.block }
        requires same_block { IfSome self.old.cache (λ c. c.block ≡ task.old.base.block) }
        ensures uploads { Uploads S.told seen.now (view_in pages.now task.old.base) self.old
            (record { store = S.shown store.old; names = N.shown names.old; upload = task.old })
            result self.new
            (record { store = S.shown store.new; names = N.shown names.new; upload = task.new }) }
        ensures are_open { AreOpen self.new }
        ensures fit { (past : List Item) (sets : ℕ → Held)
            → AreFit past sets self.old → AreFit past sets self.new }
        ensures running { IsRunning task.new }
        ensures reached { S.reaches store.old store.new }
    {
        let block = match seen.block {
            Some(block) => block,
            None => unreachable!(),
        };
        if self.open_cache(alloc, block).is_err() {
            return Work::NoMemory;
        }
        match &mut self.cache {
            Some(cache) => upload_in(alloc, store, names, task, seen, pages, &self.txns, cache),
            None => unreachable!(),
        }
    }

    /// The bytes of a page of a transaction that is local or in a block that it holds. Nothing is copied.
    pub fn look<'a>(&'a self, number: u8, page: u32, pages: &'a PageSet) -> Look<'a>
        requires { IfSome (txn_at number self.now.txns) (CanRead pages.now) }
        ensures looks { CallsIn self.now self.now (result ≡ Look.NoTxn)
            (λ c d. LooksIn pages.now c self.now.txns number page result) }
        ensures machine { (past : List Item) (sets : ℕ → Held) (s : Side) (u : Up)
            → StandsFor past sets self.now s u → IsSetOf pages.now sets number self.now.txns
            → LooksAs s u number page result (side_with past sets s u self.now.txns) }
    {
        match &self.cache {
            Some(cache) => look_in(&self.txns, cache, number, page, pages),
            None => Look::NoTxn,
        }
    }

    /// Lets the block of a page of a transaction go. It goes by the block: the page may be local.
    pub fn free(&mut self, number: u8, page: u32) -> Freed
        ensures frees { CallsIn self.old self.new (result ≡ Freed.NoTxn)
            (λ c d. FreesIn c self.old.txns number page result self.new.txns d) }
        ensures are_open { AreOpen self.new }
        ensures machine { (past : List Item) (sets : ℕ → Held) (s : Side) (u : Up)
            → StandsFor past sets self.old s u
            → FreesAs s u number page result (side_with past sets s u self.new.txns) }
    {
        match &mut self.cache {
            Some(cache) => free_in(&mut self.txns, cache, number, page),
            None => Freed::NoTxn,
        }
    }

    /// Ends a transaction, whose blocks are let go, and answers whether it was open.
    pub fn end(&mut self, number: u8) -> bool
        ensures ends { CallsIn self.old self.new (result ≡ false)
            (λ c d. EndsIn c self.old.txns number result self.new.txns d) }
        ensures are_open { AreOpen self.new }
        ensures machine { (past : List Item) (sets : ℕ → Held) (s : Side) (u : Up)
            → StandsFor past sets self.old s u → EndsAs past sets s u number result self.new.txns }
    {
        match &mut self.cache {
            Some(cache) => end_in(&mut self.txns, cache, number),
            None => false,
        }
    }
}

impl Drop for Transactions {
    fn drop(self) {
        let Transactions {
            slots: _,
            cache,
            txns,
        } = self;
        match cache {
            Some(mut cache) => end_every(txns, &mut cache),
            None => txns.destroy_empty(),
        }
    }
}
