//! Laws of publishing tasks. Each function does nothing: its clause is the law, for proofs to cite.
ghost use Rattle.bcv_tasks.specs.KindsWork.{CleanupWorksAsTask, CopyWorksAsTask, UploadWorksAsTask};
ghost use Rattle.bcv_tasks.specs.TaskPut.{OwnedStays, PutsKeepNames};

use bcv_keeprule::KeepRule;
use bcv_store::Store;

/// Shows that what a task has put stays its own while others append lawful entries.
pub fn owned_stays()
    ensures { OwnedStays }
{}

/// Shows that a put leaves a task the names that it had.
pub fn puts_keep_names()
    ensures { PutsKeepNames }
{}

/// Shows that the step of a task of each kind, by what it says of itself, is a task's step.
pub fn kinds_work_as_tasks<S: Store, F: Fn(u64, u64, u64) -> bool>(store: &S, rule: &KeepRule<F>)
    ensures copy { CopyWorksAsTask (F.post rule.now.rule) S.told }
    ensures upload { UploadWorksAsTask (F.post rule.now.rule) S.told }
    ensures cleanup { CleanupWorksAsTask (F.post rule.now.rule) S.told }
{}
