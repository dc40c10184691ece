//! A step of a cleanup before the manifest's put.
ghost use Rattle.std.specs.Prelude.{◌≡◌, false};
ghost use Rattle.bcv_keeprule.specs.Retention.{IsKeepRule};
ghost use Rattle.bcv_cleanup.specs.CleanupDescent.{IsBelow};
ghost use Rattle.bcv_cleanup.specs.CleanupWork.{ReadsClock, TaskWorks, WorkLeaves};
ghost use Rattle.bcv_cleanup.specs.State.{IsRunning, is_ready};

use crate::cleanup::Cleanup;
use bcv_base::{Clock, Now, Seen};
use bcv_keeprule::KeepRule;
use bcv_publish::Work;
use bcv_store::Store;
use std::alloc::Global;

impl Cleanup {
    /// Gets the manifest, where none is kept, or else deletes the next block that was taken. The clock is asked for the
    /// cleanup's moment before the first get, and never again. This is one request to the store, or none where no
    /// moment or no memory was had for it. `Nothing` comes where the first manifest has no entry that the rule releases
    /// at that moment. Every answer but `More` ends the task; what was deleted stays on the delete list for a later
    /// cleanup, which deletes it again.
    pub fn work<S: Store, C: Clock, F: Fn(u64, u64, u64) -> bool>(
        &mut self,
        alloc: Global,
        store: &mut S,
        clock: &mut C,
        seen: &Seen,
        rule: &KeepRule<F>,
    ) -> Work
        requires running { IsRunning self.old }
        requires not_ready { is_ready self.old ≡ false }
        requires rule { IsKeepRule (F.pre rule.now.rule) (F.post rule.now.rule) }
        ensures leaves { WorkLeaves (F.post rule.now.rule) self.old.publish.latest seen.now self.old
            result self.new }
        ensures works { TaskWorks S.told (S.shown store.old) (S.shown store.new) (C.shown clock.old)
            (C.shown clock.new)
            seen.now self.old result self.new }
        ensures reached { S.reaches store.old store.new }
        ensures falls { result ≡ Work.More → IsBelow self.new self.old }
        ensures running { result ≡ Work.More → IsRunning self.new }
    {
        if self.publish.latest().is_some() {
            return self.delete_block(alloc, store);
        }
        let Some(moment) = read_clock(clock, &mut self.moment) else {
            return Work::ClockFault;
        };
        self.read(alloc, store, seen, rule, moment)
    }
}

// The moment that is known, or else the clock's, which is known from then on.
fn read_clock<C: Clock>(clock: &mut C, moment: &mut Option<u64>) -> Option<u64>
    ensures { ReadsClock moment.old (C.shown clock.old) (C.shown clock.new) result moment.new }
{
    if let Some(known) = *moment {
        return Some(known);
    }
    let Now::At(read) = clock.now() else {
        return None;
    };
    *moment = Some(read);
    Some(read)
}
