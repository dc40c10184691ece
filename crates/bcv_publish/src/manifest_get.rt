//! The manifest's get.
ghost use Rattle.bcv_base.specs.declared.seen.Seen.{Seen};
ghost use Rattle.bcv_dbmap.specs.Checked.{checked};
ghost use Rattle.bcv_publish.specs.ManifestGet.{GetLeaves, Keeps, ManifestGets};
ghost use Rattle.bcv_publish.specs.ManifestRead.{IsTaken};

use crate::publish::Publish;
use crate::work::Work;
use bcv_base::{Latest, Seen};
use bcv_dbmap::{EditPlan, check};
use bcv_store::Store;
use std::alloc::Global;

impl Publish {
    /// Gets the manifest, compares it with what was seen of the container, and asks whether the edit may be published
    /// over it. This is one request to the store, whatever the answer. At `More` the manifest is kept; every other answer
    /// leaves the publication as it was.
    pub fn get<S: Store>(
        &mut self,
        alloc: Global,
        store: &mut S,
        seen: &Seen,
        plan: &EditPlan,
    ) -> Work
        ensures leaves { GetLeaves seen.now plan.now self.old result self.new }
        ensures gets { ManifestGets S.told (S.shown store.old) (S.shown store.new)
            seen.now plan.now self.old result self.new }
        ensures reached { S.reaches store.old store.new }
    {
        match self.read(alloc, store, seen) {
            Ok(latest) => self.keep(latest, plan),
            Err(unread) => unread.work(),
        }
    }

    // Keeps a manifest where the edit may be published over it.
    fn keep(&mut self, latest: Latest, plan: &EditPlan) -> Work
        requires follows { (seen : Seen) × IsTaken self.old seen latest }
        ensures { Keeps (checked latest.manifest plan.now self.old.writer) latest self.old
            result self.new }
    {
        if let Err(fault) = check(&latest.manifest, plan, &self.writer) {
            return Work::Fault(fault);
        }
        self.latest = Some(latest);
        Work::More
    }
}
