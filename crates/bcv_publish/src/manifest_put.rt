//! The manifest's put.
ghost use Rattle.std.specs.Prelude.{◌≡◌, ◌<◌, ◌+◌, length, IsSome, IfOk, MatchOption};
ghost use Rattle.bcv_base.specs.Ids.{IsId};
ghost use Rattle.bcv_publish.specs.ManifestPut.{
  Ended,
  IsMadeOf,
  IsReady,
  ManifestPuts,
  PutLeaves,
  Refuses,
};

use crate::manifest_append::append_manifest;
use crate::publish::Publish;
use crate::work::PutEnd;
use bcv_base::{Latest, Manifest};
use bcv_dbmap::{EditPlan, apply};
use bcv_store::{Cond, Put, Store};
use std::alloc::{AllocError, Global};

const MOST_PUTS: usize = 8;

impl Publish {
    /// Applies the edit to the manifest that is kept, and puts the result in its place, where it is still the one that
    /// was read. This is one request to the store, or none where memory runs out before it. `Unknown` leaves the
    /// publication as it was; the put must not be tried again before it is known what became of it.
    pub fn put<S: Store>(
        &mut self,
        alloc: Global,
        store: &mut S,
        plan: &EditPlan,
        moment: u64,
    ) -> PutEnd
        requires ready { MatchOption self.old.latest ⊥
            (λ read. IsReady read.manifest plan.now self.old.writer) }
        requires few { length self.old.refused < 8 }
        ensures leaves { MatchOption self.old.latest ⊥ (λ read.
            PutLeaves plan.now moment self.old read result self.new) }
        ensures puts { MatchOption self.old.latest ⊥ (λ read.
            ManifestPuts S.told (S.shown store.old) (S.shown store.new)
            self.old read plan.now moment result self.new) }
        ensures reached { S.reaches store.old store.new }
    {
        let manifest = match self.made(alloc, plan, moment) {
            Ok(manifest) => manifest,
            Err(_) => return PutEnd::NoMemory,
        };
        let condition = Cond::Match(self.etag());
        let answer = append_manifest(alloc, store, condition, &manifest);
        self.end(answer, manifest)
    }

    // The manifest that the put brings.
    fn made(&self, alloc: Global, plan: &EditPlan, moment: u64) -> Result<Manifest, AllocError>
        requires { MatchOption self.now.latest ⊥ (λ read.
            IsReady read.manifest plan.now self.now.writer) }
        ensures made { IfOk result (λ m. MatchOption self.now.latest ⊥
            (λ read. IsMadeOf self.now read plan.now moment m)) }
        ensures id { IsId self.now.id }
        ensures writer { IsId self.now.writer }
    {
        let _id = self.id.bytes();
        let _writer = self.writer.bytes();
        let Some(read) = &self.latest else {
            unreachable!()
        };
        apply(alloc, &read.manifest, plan, self.id, self.writer, moment)
    }

    // How the put of a manifest ends for the publication.
    fn end(&mut self, answer: Put, manifest: Manifest) -> PutEnd
        requires few { length self.old.refused < 8 }
        requires next { MatchOption self.old.latest ⊥
            (λ read. manifest.number ≡ read.manifest.number + 1) }
        ensures { MatchOption self.old.latest ⊥ (λ read.
            Ended answer manifest self.old read result self.new) }
    {
        match answer {
            Put::Stored(etag) => {
                let number = manifest.number;
                self.latest = Some(Latest { manifest, etag });
                PutEnd::Published(number)
            }
            Put::Refused => self.refuse(),
            Put::Failed => PutEnd::Unknown,
            Put::NoMemory => PutEnd::NoMemory,
        }
    }

    // Drops the manifest that is kept, but for its number and block size.
    fn refuse(&mut self) -> PutEnd
        requires kept { IsSome self.old.latest }
        requires few { length self.old.refused < 8 }
        ensures { MatchOption self.old.latest ⊥ (λ read. Refuses self.old read result self.new) }
    {
        let Some(read) = self.latest.take() else {
            unreachable!()
        };
        self.refused.push(read.manifest.number);
        self.block = Some(read.manifest.block);
        if self.refused.len() < MOST_PUTS {
            PutEnd::Refused
        } else {
            PutEnd::Contended(self.refused.all())
        }
    }
}
