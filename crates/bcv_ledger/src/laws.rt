//! Laws of a ledger. Each function does nothing: its clause is the law, for proofs to cite.
ghost use Rattle.bcv_ledger.specs.FitsLedger.{CommitKeepsFit, IntentKeepsFit, MadeKeepsFit, PollKeepsFit, ResolvedKeepsFit, RevertKeepsFit, VoidKeepsFit};
ghost use Rattle.bcv_ledger.specs.LocalLaws.{CommitMayStand, RevertMayStand};
ghost use Rattle.bcv_ledger.specs.ResolveLaws.{MadeIsResolved, MadeMeetsFault, VoidedIsResolved, VoidedMeetsFault};
ghost use Rattle.bcv_ledger.specs.TableLaws.{FoundIsView, ListsAreTheMachines};

/// Shows that the note of a commit and of a revert may stand where the call is not refused, for a client over a sound log.
pub fn local_notes_may_stand()
    ensures commit { CommitMayStand }
    ensures revert { RevertMayStand }
{}

/// Shows that what ties a client's ledger to a log stays where a note is kept, and after a poll.
pub fn ends_keep_fits()
    ensures commit { CommitKeepsFit }
    ensures revert { RevertKeepsFit }
    ensures intent { IntentKeepsFit }
    ensures void { VoidKeepsFit }
    ensures made { MadeKeepsFit }
    ensures resolved { ResolvedKeepsFit }
    ensures poll { PollKeepsFit }
{}

/// Shows that what is found of a name is the machine's view of the database.
pub fn found_is_view()
    ensures { FoundIsView }
{}

/// Shows that the rows of a client's databases are those that the machine lists.
pub fn lists_are_the_machines()
    ensures { ListsAreTheMachines }
{}

/// Shows that a resolve's note is the machine's, whether the publication was made or not, and where the disk fails at it.
pub fn resolves_are_the_machines()
    ensures made { MadeIsResolved }
    ensures made_fault { MadeMeetsFault }
    ensures voided { VoidedIsResolved }
    ensures voided_fault { VoidedMeetsFault }
{}
