ghost use Rattle.std.specs.Prelude.{◌≡◌, ◌<◌, ◌≤◌, ◌^◌, ◌+◌, ℕ, true, false, [], Some, None, IfOk, IfSome, IsSome, OnErr, OnOk, length, option_and_then, is_some};
ghost use Rattle.std.specs.Option.{option_map};
ghost use Rattle.bcv_base.specs.declared.id.Id16.{Id16};
ghost use Rattle.bcv_base.specs.Keyed.{keyed, with_keyed};
ghost use Rattle.bcv_base.specs.ManifestRules.{Ascends};
ghost use Rattle.bcv_base.specs.Views.{is_commit};
ghost use Rattle.bcv_model.specs.declared.note.Note.TheVariants.{Done, Intent, Void};
ghost use Rattle.bcv_model.specs.Commits.{writes_of};
ghost use Rattle.bcv_model.specs.Notes.{after_note, kept_name, with_uploaded};
ghost use Rattle.bcv_pages.specs.Held.{KeepsView};
ghost use Rattle.bcv_databases.specs.Catalog.{commits_of, found_at, known_name, set_at, shown_view, use_name};
ghost use Rattle.bcv_databases.specs.Changes.{Adds, HasMemory, base_of, known_left, left_known, Ends, IsFirstReady, IsLaterReady, IsReady, KeepsFrom, Polls, Resolves, Reverts, Trims, needed_from, use_of};
ghost use Rattle.bcv_databases.specs.Slots.{OpensSet, uses_after};
ghost use Rattle.bcv_databases.specs.Sound.{AreDatabases, AreLoaded, CanUpload, IsSame, KeepsViews};
ghost use Rattle.bcv_databases.specs.Table.{table_of};

use crate::copies::copy_commit;
use crate::database_view::{CommitsAt, DatabaseView};
use crate::known::Known;
use crate::loading::{sets_of, uses_of};
use crate::locals::{add_first, add_later, take_local};
use crate::named::{Named, by_name, put, take};
use crate::ready::{FirstReady, ReadyCommit};
use crate::rows::table;
use crate::set_slots::{add_in, drop_in, forget_in, free_place, reserve, reserve_in};
use crate::set_use::SetUse;
use crate::uploaded::{end_upload, move_from};
use bcv_base::{DbName, Seq};
use bcv_model::{Commit, Kept, Local, PendingPub, Row, Uploading};
use bcv_pages::PageSet;
use std::alloc::{AllocError, Global};
use std::marker::Model;

/// The databases that a client knows.
///
/// A change that a note of the client's log stands for is made in two calls: one takes all memory and is made before the
/// note, the other cannot fail. Each set of pages stays at its place until [`trim`](Self::trim) drops it.
#[derive(Drop)]
pub struct Databases {
    kept: Kept,
    known: Vec<Known>,
    uses: Vec<SetUse>,
    sets: Vec<Option<PageSet>>,
    // Empty, with memory for the commits of one database.
    spare: Vec<Commit>,
}

impl Model for Databases {
    ghost use Rattle.std.specs.Prelude.{◌≡◌, []};
    ghost use Rattle.bcv_databases.specs.Catalog.{Catalog, catalog_of};

    ghost Value = { Catalog };

    ghost use Rattle.bcv_databases.specs.Sound.{AreDatabases};

    ghost view = { λ d. catalog_of d.kept d.known d.uses d.sets d.spare };

    ghost invariant = { λ d. AreDatabases (catalog_of d.kept d.known d.uses d.sets d.spare) × (d.spare.items ≡ []) };
}

impl Databases {
    /// The databases of what a client's log came to. None without commits is known yet.
    pub fn new(alloc: Global, kept: Kept) -> Result<Databases, AllocError>
        requires { AreLoaded kept }
        ensures kept { IfOk result (λ d. d.kept ≡ kept) }
        ensures known { IfOk result (λ d. d.known ≡ []) }
    {
        let sets = sets_of(alloc, kept.locals.items())?;
        let uses = uses_of(alloc, kept.locals.items())?;
        Ok(Databases {
            kept,
            known: Vec::new(alloc),
            uses,
            sets,
            spare: Vec::new(alloc),
        })
    }

    /// What the client keeps through a crash.
    pub fn kept(&self) -> &Kept
        ensures kept { result.now ≡ self.now.kept }
        ensures sound { AreDatabases self.now }
    {
        &self.kept
    }

    /// The known databases without commits, ascending by name.
    pub fn known(&self) -> &[Known]
        ensures { result.now ≡ self.now.known }
    {
        &self.known
    }

    /// The database of a name, or `None` where it is not known.
    pub fn find(&self, db: &DbName) -> Option<DatabaseView<'_>>
        ensures { option_map shown_view result ≡ found_at self.now db.now }
    {
        if let Some(local) = by_name(self.kept.locals.items(), db) {
            return Some(DatabaseView {
                entry: &local.entry,
                number: local.number,
                block: local.block,
                commits: commits_at(&self.uses, &self.sets, &local.entry.name),
            });
        }
        match by_name(&self.known, db) {
            Some(known) => Some(DatabaseView {
                entry: &known.entry,
                number: known.number,
                block: known.block,
                commits: None,
            }),
            None => None,
        }
    }

    /// The set of pages at a place, or `None` where there is none.
    pub fn pages(&self, set: usize) -> Option<&PageSet>
        ensures { option_map (λ h. h.now) result ≡ set_at self.now.sets set }
    {
        if set >= self.sets.len() {
            return None;
        }
        self.sets[set].as_ref()
    }

    /// The table of all databases, ascending by name.
    pub fn rows(&self, alloc: Global) -> Result<Vec<Row>, AllocError>
        ensures { IfOk result (λ rows. rows.items ≡ table_of self.now) }
    {
        table(alloc, self.kept.locals.items(), &self.known)
    }

    /// Takes all memory for one more commit of a known database, whose pages have the database's page size.
    pub fn ready(
        &mut self,
        alloc: Global,
        db: &DbName,
        commit: &Commit,
    ) -> Result<ReadyCommit, AllocError>
        requires known { IsSome (found_at self.old db.now) }
        requires fits { IfSome (found_at self.old db.now)
            (λ v. is_commit v.entry.page_size (writes_of commit.now) ≡ true) }
        ensures same { IsSame self.old self.new }
        ensures ready { IfOk result (IsReady self.new db.now commit.now) }
    {
        match by_name(self.kept.locals.items(), db) {
            Some(local) => {
                let count = local.commits.items().len();
                self.ready_later(alloc, db, count, commit)
            }
            None => self.ready_first(alloc, db, commit),
        }
    }

    /// Adds the commit for which memory was taken, in its database. Its note stands by then.
    pub fn add(&mut self, db: &DbName, ready: ReadyCommit, commit: Commit)
        requires { IsReady self.old db.now commit ready }
        ensures { Adds self.old self.new db.now commit }
    {
        match ready {
            ReadyCommit::Later(copy) => self.add_later(db, copy, commit),
            ReadyCommit::First(first) => self.add_first(db, first, commit),
        }
    }

    /// Takes the memory that one further known database takes, for `revert` or `resolved`.
    pub fn reserve(&mut self) -> Result<(), AllocError>
        ensures same { IsSame self.old self.new }
        ensures room { OnOk result (length self.new.known < self.new.rooms.known) }
    {
        self.known.reserve(1)
    }

    /// Gives up the commits of a database, whose base is known again. Its note stands by then.
    pub fn revert(&mut self, db: &DbName)
        requires local { IsSome (keyed kept_name db.now self.old.kept.locals) }
        requires free { self.old.kept.pending ≡ None }
        requires room { length self.old.known < self.old.rooms.known }
        ensures { Reverts self.old self.new db.now }
    {
        let alloc = *self.known.allocator();
        let _ = take(&mut self.uses, db);
        let Some(local) = take_local(alloc, &mut self.kept.locals, db) else {
            unreachable!()
        };
        put(&mut self.known, base_of(local));
    }

    /// Keeps a publication as pending. Its note stands by then.
    pub fn intend(&mut self, pending: PendingPub)
        requires { IfSome pending.upload (CanUpload self.old.kept.locals) }
        ensures { Ends self.old self.new (Intent pending) }
    {
        self.kept.pending = Some(pending);
    }

    /// Ends the pending publication, which was not made. Its note stands by then.
    pub fn voided(&mut self)
        ensures { (id : Id16) → Ends self.old self.new (Void id) }
    {
        self.kept.pending = None;
    }

    /// Ends the pending publication, which was made as the version of a number. Its note stands by then.
    pub fn finished(&mut self, number: u64)
        ensures { (id : Id16) → Ends self.old self.new (Done id number) }
    {
        let _ = self.end_pending(number);
    }

    /// Ends the pending publication as `finished` does. An uploaded database that has no commits left is known as it was
    /// published.
    pub fn resolved(&mut self, number: u64)
        requires { length self.old.known < self.old.rooms.known }
        ensures { Resolves self.old self.new number }
    {
        if let Some(known) = self.end_pending(number) {
            put(&mut self.known, known);
        }
    }

    /// Knows the databases of a manifest that have no commits here, and no others without commits. `found` are all
    /// databases of the manifest.
    pub fn polled(&mut self, found: Vec<Known>)
        requires { Ascends known_name found.items }
        ensures { Polls self.old self.new found.items }
    {
        let mut found = found;
        let locals = self.kept.locals.items();
        found.retain(|known| !has_commits(locals, &known.entry.name));
        self.known = found;
    }

    /// Forgets the commits of a set that neither its database nor a transaction needs, and drops a set that nobody uses.
    /// `oldest` is the least number after which a transaction's commits begin in it, or `None` where no transaction uses
    /// the set.
    pub fn trim(&mut self, set: usize, oldest: Option<u64>)
        ensures trims { Trims self.old self.new set oldest }
        ensures views { (from to : ℕ)
            → IfSome oldest (λ o. o ≤ from → KeepsFrom self.old.sets self.new.sets set from to) }
    {
        if set >= self.sets.len() {
            return;
        }
        match least_needed(&self.uses, set, oldest) {
            Some(upto) => forget_in(&mut self.sets, set, upto),
            None => drop_in(&mut self.sets, set),
        }
    }

    /// Opens a set without commits at a free place, for a transaction over a database that has none. `trim` drops it once no
    /// transaction uses it.
    pub fn open_set(&mut self, alloc: Global, page_size: u32) -> Result<usize, AllocError>
        ensures same { IsSame self.old self.new }
        ensures uses { self.new.uses ≡ self.old.uses }
        ensures set { IfOk result (OpensSet self.old self.new page_size) }
        ensures none { OnErr result ((p : ℕ) → set_at self.new.sets p ≡ set_at self.old.sets p) }
    {
        let place = free_place(&mut self.sets)?;
        self.sets[place] = Some(PageSet::new(alloc, page_size));
        Ok(place)
    }

    // Takes the memory for one more commit of a database with so many commits.
    fn ready_later(
        &mut self,
        alloc: Global,
        db: &DbName,
        count: usize,
        commit: &Commit,
    ) -> Result<ReadyCommit, AllocError>
        requires local { IfSome (keyed kept_name db.now self.old.kept.locals)
            (λ l. (length l.commits ≡ count) × (is_commit l.entry.page_size (writes_of commit.now) ≡ true)) }
        requires there { IsSome (keyed kept_name db.now self.old.kept.locals) }
        requires few { count < 2 ^ 63 }
        ensures same { IsSame self.old self.new }
        ensures ready { IfOk result (IsReady self.new db.now commit.now) }
    {
        let Some(used) = by_name(&self.uses, db) else {
            unreachable!()
        };
        let place = used.set;
        self.spare.reserve(count + 1)?;
        let copy = copy_commit(alloc, commit)?;
        reserve_in(&mut self.sets, place, commit)?;
        Ok(ReadyCommit::Later(copy))
    }

    // Takes the memory for the first commit of a known database.
    fn ready_first(
        &mut self,
        alloc: Global,
        db: &DbName,
        commit: &Commit,
    ) -> Result<ReadyCommit, AllocError>
        requires none { keyed kept_name db.now self.old.kept.locals ≡ None }
        requires there { IsSome (keyed known_name db.now self.old.known) }
        requires fits { IfSome (keyed known_name db.now self.old.known)
            (λ k. is_commit k.entry.page_size (writes_of commit.now) ≡ true) }
        ensures same { IsSame self.old self.new }
        ensures ready { IfOk result (IsReady self.new db.now commit.now) }
    {
        let Some(known) = by_name(&self.known, db) else {
            unreachable!()
        };
        let page_size = known.entry.page_size;
        self.uses.reserve(1)?;
        let place = free_place(&mut self.sets)?;
        let count = self.kept.locals.items().len();
        let first = first_ready(alloc, page_size, place, count, commit)?;
        Ok(ReadyCommit::First(first))
    }

    // Adds one more commit of a database with commits.
    fn add_later(&mut self, db: &DbName, copy: Commit, commit: Commit)
        requires { IsLaterReady self.old db.now copy commit }
        ensures { Adds self.old self.new db.now commit }
    {
        let alloc = *self.known.allocator();
        let Some(used) = by_name(&self.uses, db) else {
            unreachable!()
        };
        let place = used.set;
        add_later(alloc, &mut self.kept.locals, &mut self.spare, db, copy);
        add_in(&mut self.sets, place, commit);
    }

    // Adds the first commit of a known database.
    fn add_first(&mut self, db: &DbName, first: FirstReady, commit: Commit)
        requires { IsFirstReady self.old db.now first commit }
        ensures { Adds self.old self.new db.now commit }
    {
        let alloc = *self.known.allocator();
        let FirstReady {
            commits,
            mut set,
            place,
            locals,
        } = first;
        let Some(known) = take(&mut self.known, db) else {
            unreachable!()
        };
        set.add(commit);
        self.sets[place] = Some(set);
        put(
            &mut self.uses,
            SetUse {
                name: known.name(),
                set: place,
                from: 0,
            },
        );
        let local = local_over(known, commits);
        add_first(alloc, &mut self.kept.locals, locals, local);
    }

    // Ends the pending publication, and answers the database of an upload that has no commits left.
    fn end_pending(&mut self, number: u64) -> Option<Known>
        ensures kept { (id : Id16) → self.new.kept ≡ after_note self.old.kept (Done id number) }
        ensures known { self.new.known ≡ self.old.known }
        ensures views { KeepsViews self.old.sets self.new.sets }
        ensures rooms { self.new.rooms.known ≡ self.old.rooms.known }
        ensures left { result ≡ known_left number self.new.kept.locals self.old.kept.pending }
    {
        let Some(pending) = self.kept.pending.take() else {
            return None;
        };
        let PendingPub { id: _, upload } = pending;
        let Some(upload) = upload else {
            return None;
        };
        self.end_upload(number, upload)
    }

    // Lets the commits go that an upload took, and answers its database where none are left.
    fn end_upload(&mut self, number: u64, upload: Uploading) -> Option<Known>
        requires free { self.old.kept.pending ≡ None }
        requires there { CanUpload self.old.kept.locals upload }
        ensures kept { self.new.kept ≡ record self.old.kept { locals = with_uploaded number upload self.old.kept.locals } }
        ensures known { self.new.known ≡ self.old.known }
        ensures views { KeepsViews self.old.sets self.new.sets }
        ensures rooms { self.new.rooms.known ≡ self.old.rooms.known }
        ensures left { result ≡ left_known number self.new.kept.locals upload }
    {
        let alloc = *self.known.allocator();
        let db = upload_name(&upload);
        let count = upload.count;
        let Some(at) = commits_at(&self.uses, &self.sets, &db) else {
            unreachable!()
        };
        let left = end_upload(alloc, &mut self.kept.locals, number, upload);
        end_use(&mut self.uses, &db, count, at.to, left.is_some());
        left
    }
}

// Whether a database has commits.
fn has_commits(locals: &[Local], db: &DbName) -> bool
    requires { Ascends kept_name locals.now }
    ensures { result ≡ is_some (keyed kept_name db.now locals.now) }
{
    by_name(locals, db).is_some()
}

// The name of an upload's database.
fn upload_name(upload: &Uploading) -> DbName
    ensures { result ≡ upload.now.entry.name }
{
    upload.entry.name
}

// Ends the use of a set by a database, or moves the number after which its commits begin.
fn end_use(uses: &mut Vec<SetUse>, db: &DbName, count: u64, last: u64, ends: bool)
    requires order { Ascends use_name uses.old.items }
    requires small { ends ≡ false → IfSome (keyed use_name db.now uses.old.items)
        (λ u. u.from + count ≤ last) }
    ensures { uses.new.items ≡ uses_after ends db.now count uses.old.items }
{
    if ends {
        let _ = take(uses, db);
        return;
    }
    move_from(uses, db, count, last);
}

// The base of a database, without its commits.
fn base_of(local: Local) -> Known
    ensures { result ≡ base_of local }
{
    let Local {
        entry,
        number,
        block,
        commits: _,
    } = local;
    Known {
        entry,
        number,
        block,
    }
}

// A known database with these commits.
fn local_over(known: Known, commits: Seq<Commit>) -> Local
    ensures { result ≡ record {
      entry = known.entry;
      number = known.number;
      block = known.block;
      commits = commits;
    } }
{
    let Known {
        entry,
        number,
        block,
    } = known;
    Local {
        entry,
        number,
        block,
        commits,
    }
}

// Where the commits of a database are, or `None` where it has none.
fn commits_at(uses: &[SetUse], sets: &[Option<PageSet>], db: &DbName) -> Option<CommitsAt>
    requires { Ascends use_name uses.now }
    ensures { result ≡ option_and_then (commits_of sets.now) (keyed use_name db.now uses.now) }
{
    let used = by_name(uses, db)?;
    let set = sets.get(used.set)?.as_ref()?;
    Some(CommitsAt {
        set: used.set,
        from: used.from,
        to: set.last(),
    })
}

// The least number after which a database's or a transaction's commits begin in a set.
fn least_needed(uses: &[SetUse], set: usize, oldest: Option<u64>) -> Option<u64>
    ensures { result ≡ needed_from uses.now set oldest }
{
    match used_from(uses, set) {
        Some(from) => match oldest {
            Some(oldest) => Some(from.min(oldest)),
            None => Some(from),
        },
        None => oldest,
    }
}

// The number after which the commits of the database begin that uses a set, or `None` where none uses it.
fn used_from(uses: &[SetUse], set: usize) -> Option<u64>
    ensures { result ≡ option_map (λ u. u.from) (use_of set uses.now) }
{
    for used in uses {
        if used.set == set {
            return Some(used.from);
        }
    }
    None
}

// The memory for the first commit of a database, where so many have commits.
fn first_ready(
    alloc: Global,
    page_size: u32,
    place: usize,
    count: usize,
    commit: &Commit,
) -> Result<FirstReady, AllocError>
    requires fits { is_commit page_size (writes_of commit.now) ≡ true }
    requires few { count < 2 ^ 63 }
    ensures { IfOk result (λ f. HasMemory f page_size place count commit.now) }
{
    let mut set = PageSet::new(alloc, page_size);
    reserve(&mut set, commit)?;
    let mut commits = Vec::with_capacity(alloc, 1)?;
    commits.push(copy_commit(alloc, commit)?)?;
    Ok(FirstReady {
        commits: Seq::of(commits),
        set,
        place,
        locals: Vec::with_capacity(alloc, count + 1)?,
    })
}
