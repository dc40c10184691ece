//! The manifest's get of a cleanup.
ghost use Rattle.std.specs.Prelude.{◌≡◌, ◌≤◌, false, [], Some, None, length, vec_capacity};
ghost use Rattle.std.specs.Option.{option_copied};
ghost use Rattle.bcv_base.specs.ManifestRules.{MeetsRules};
ghost use Rattle.bcv_dbmap.specs.Applied.{swept_ids};
ghost use Rattle.bcv_dbmap.specs.Deletions.{most_cleaned};
ghost use Rattle.bcv_keeprule.specs.Retention.{IsKeepRule};
ghost use Rattle.bcv_cleanup.specs.CleanupWork.{GetsAt, MoreOf, TakenWork};
ghost use Rattle.bcv_cleanup.specs.Released.{FindsDead};
ghost use Rattle.bcv_cleanup.specs.State.{IsTask, taken_ids};

use crate::cleanup::Cleanup;
use crate::released::{MOST_CLEANED, releases_more, take_released};
use bcv_base::{Id16, Latest, Manifest, Seen, Seq};
use bcv_dbmap::EditPlan;
use bcv_keeprule::KeepRule;
use bcv_publish::Work;
use bcv_store::Store;
use std::alloc::Global;

impl Cleanup {
    // The manifest's get at the cleanup's moment; the first one takes entries of what it reads.
    pub(crate) fn read<S: Store, F: Fn(u64, u64, u64) -> bool>(
        &mut self,
        alloc: Global,
        store: &mut S,
        seen: &Seen,
        rule: &KeepRule<F>,
        moment: u64,
    ) -> Work
        requires rule { IsKeepRule (F.pre rule.now.rule) (F.post rule.now.rule) }
        requires task { IsTask self.old }
        requires none { self.old.publish.latest ≡ None }
        requires moment { self.old.moment ≡ Some moment }
        ensures gets { GetsAt (F.post rule.now.rule) S.told (S.shown store.old) (S.shown store.new)
            moment seen.now self.old result self.new }
        ensures reached { S.reaches store.old store.new }
        ensures task { IsTask self.new }
    {
        if self.taken().is_empty() {
            self.read_first(alloc, store, seen, rule, moment)
        } else {
            self.read_again(alloc, store, seen, rule, moment)
        }
    }

    // The first get, which takes entries of what it reads.
    fn read_first<S: Store, F: Fn(u64, u64, u64) -> bool>(
        &mut self,
        alloc: Global,
        store: &mut S,
        seen: &Seen,
        rule: &KeepRule<F>,
        moment: u64,
    ) -> Work
        requires rule { IsKeepRule (F.pre rule.now.rule) (F.post rule.now.rule) }
        requires task { IsTask self.old }
        requires none { self.old.publish.latest ≡ None }
        requires moment { self.old.moment ≡ Some moment }
        requires first { taken_ids self.old ≡ [] }
        ensures gets { GetsAt (F.post rule.now.rule) S.told (S.shown store.old) (S.shown store.new)
            moment seen.now self.old result self.new }
        ensures reached { S.reaches store.old store.new }
        ensures task { IsTask self.new }
    {
        let mut ids = match Vec::with_capacity(alloc, MOST_CLEANED) {
            Ok(ids) => ids,
            Err(_) => return Work::NoMemory,
        };
        let work = self.publish.get(alloc, store, seen, &self.edit);
        let Some(latest) = self.publish.latest() else {
            return work;
        };
        self.more = take_of(&latest.manifest, moment, rule, &mut ids);
        let work = taken_work(&ids);
        self.edit = EditPlan::Sweep { ids: Seq::of(ids) };
        work
    }

    // A get after a refused put: nothing further is taken.
    fn read_again<S: Store, F: Fn(u64, u64, u64) -> bool>(
        &mut self,
        alloc: Global,
        store: &mut S,
        seen: &Seen,
        rule: &KeepRule<F>,
        moment: u64,
    ) -> Work
        requires rule { IsKeepRule (F.pre rule.now.rule) (F.post rule.now.rule) }
        requires task { IsTask self.old }
        requires none { self.old.publish.latest ≡ None }
        requires moment { self.old.moment ≡ Some moment }
        requires again { 1 ≤ length (taken_ids self.old) }
        ensures gets { GetsAt (F.post rule.now.rule) S.told (S.shown store.old) (S.shown store.new)
            moment seen.now self.old result self.new }
        ensures reached { S.reaches store.old store.new }
        ensures task { IsTask self.new }
    {
        let work = self.publish.get(alloc, store, seen, &self.edit);
        self.more = more_of(
            self.publish.latest(),
            moment,
            rule,
            swept(&self.edit),
            self.more,
        );
        work
    }
}

// The ids that a sweep takes off the delete list.
fn swept(edit: &EditPlan) -> &[Id16]
    requires { edit.now ≡ EditPlan.Sweep (swept_ids edit.now) }
    ensures { result.now ≡ swept_ids edit.now }
{
    let EditPlan::Sweep { ids } = edit else {
        unreachable!()
    };
    ids.items()
}

// What a first get answers where it took these ids.
fn taken_work(ids: &[Id16]) -> Work
    ensures { TakenWork ids.now result }
{
    if ids.is_empty() {
        Work::Nothing
    } else {
        Work::More
    }
}

// Takes the first entries of a manifest that the rule releases, and answers whether it has more.
fn take_of<F: Fn(u64, u64, u64) -> bool>(
    manifest: &Manifest,
    moment: u64,
    rule: &KeepRule<F>,
    ids: &mut Vec<Id16>,
) -> bool
    requires rule { IsKeepRule (F.pre rule.now.rule) (F.post rule.now.rule) }
    requires rules { MeetsRules manifest.now }
    requires empty { ids.old.items ≡ [] }
    requires room { most_cleaned ≤ vec_capacity ids.old }
    ensures finds { FindsDead (F.post rule.now.rule) moment manifest.now [] ids.new.items result }
    ensures few { length ids.new.items ≤ most_cleaned }
    ensures none { ids.new.items ≡ [] → result ≡ false }
{
    let dead = manifest.dead.items();
    let place = take_released(dead, manifest.retention, moment, rule, ids);
    releases_more(&dead[place..], manifest.retention, moment, rule, ids)
}

// Whether the manifest that was read, where one was, has a further entry that the rule releases.
fn more_of<F: Fn(u64, u64, u64) -> bool>(
    latest: Option<&Latest>,
    moment: u64,
    rule: &KeepRule<F>,
    ids: &[Id16],
    before: bool,
) -> bool
    requires rule { IsKeepRule (F.pre rule.now.rule) (F.post rule.now.rule) }
    ensures { MoreOf (F.post rule.now.rule) (option_copied latest.entry) moment ids.now
        before result }
{
    match latest {
        Some(latest) => {
            let manifest = &latest.manifest;
            releases_more(manifest.dead.items(), manifest.retention, moment, rule, ids)
        }
        None => before,
    }
}
