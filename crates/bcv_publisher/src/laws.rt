//! Laws of publications. Each function does nothing: its clauses are the law, for proofs to cite.
ghost use Rattle.bcv_publisher.specs.ReadsBefore.{NewHasReadNone, RefusedHasRead};
ghost use Rattle.bcv_publisher.specs.WorkStep.{RequestIsStep};

use bcv_disk::Disk;
use bcv_keeprule::KeepRule;
use bcv_ledger::Ledger;
use bcv_store::Store;

/// Shows that what a publication has read before refused puts lies in the log, as a step before its put wants to know.
pub fn refused_reads_are_seen()
    ensures new { NewHasReadNone }
    ensures refused { RefusedHasRead }
{}

/// Shows that a request before a put is the step of its publication, once `end_work` has noted what it came to.
pub fn requests_are_steps<D: Disk, S: Store, F: Fn(u64, u64, u64) -> bool>(
    old: &Ledger<D>,
    new: &Ledger<D>,
    store: &S,
    rule: &KeepRule<F>,
)
    ensures { RequestIsStep D.told D.shown (F.post rule.now.rule) S.told old.now new.now }
{}
