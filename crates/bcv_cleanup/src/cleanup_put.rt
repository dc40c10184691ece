//! The manifest's put of a cleanup.
ghost use Rattle.std.specs.Prelude.{◌≡◌, true, MatchOption};
ghost use Rattle.bcv_publish.specs.ManifestPut.{ManifestPutSound, ManifestPuts};
ghost use Rattle.bcv_publish.specs.Request.{OverSoundLog};
ghost use Rattle.bcv_cleanup.specs.CleanupDescent.{IsBelow};
ghost use Rattle.bcv_cleanup.specs.CleanupPut.{CleansAll, MayPut, PutLeaves, is_published};
ghost use Rattle.bcv_cleanup.specs.State.{IsRunning, is_ready, left_of};

use crate::cleanup::Cleanup;
use bcv_publish::PutEnd;
use bcv_store::Store;
use std::alloc::Global;

impl Cleanup {
    /// Publishes the sweep over the manifest that is kept, where it is still the one that was read. This is one request
    /// to the store, or none where memory runs out before it. After `Refused` the manifest is read again, and nothing
    /// is deleted again; after `Published` and `Contended` the task has ended. `Unknown` leaves the task as it was; the
    /// put must not be tried again before it is known what became of it.
    pub fn put<S: Store>(&mut self, alloc: Global, store: &mut S, moment: u64) -> PutEnd
        requires running { IsRunning self.old }
        requires ready { is_ready self.old ≡ true }
        ensures leaves { MatchOption self.old.publish.latest ⊥ (λ read.
            PutLeaves moment self.old read result self.new) }
        ensures puts { MatchOption self.old.publish.latest ⊥ (λ read.
            ManifestPuts S.told (S.shown store.old) (S.shown store.new)
            self.old.publish read self.old.edit moment result self.new.publish) }
        ensures sound { OverSoundLog S.told (S.shown store.old) (S.shown store.new) (λ mine.
            MatchOption self.old.publish.latest ⊥ (λ read.
            MayPut mine (S.shown store.old).log self.old read →
            ManifestPutSound S.told mine (S.shown store.old) (S.shown store.new)
            self.old.publish read self.old.edit moment result self.new.publish)) }
        ensures complete { MatchOption self.old.publish.latest ⊥
            (λ read. CleansAll self.old read result self.new) }
        ensures reached { S.reaches store.old store.new }
        ensures falls { result ≡ PutEnd.Refused → IsBelow self.new self.old }
        ensures left { result ≡ PutEnd.Refused → left_of self.new ≡ 2 }
        ensures running { result ≡ PutEnd.Refused → IsRunning self.new }
    {
        let end = self.publish.put(alloc, store, &self.edit, moment);
        self.published = is_published(end);
        end
    }
}

// Whether a put published.
fn is_published(end: PutEnd) -> bool
    ensures { result ≡ is_published end }
{
    matches!(end, PutEnd::Published(_))
}
