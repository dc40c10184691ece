ghost use Rattle.bcv_machine.specs.CommitLaw.{CommitsLeaveOnly, CommitsLeaveOnlyInRuns};
ghost use Rattle.bcv_machine.specs.OneStateLaw.{OneStateFollows};
ghost use Rattle.bcv_machine.specs.SingleLaw.{StaysSingle, AlwaysSingle};
ghost use Rattle.bcv_machine.specs.TxnLaw.{ImagesStay, ImagesStayInRuns};
ghost use Rattle.bcv_machine.specs.VersionLaw.{VersionsGrow, VersionsStay};

/// What is said of an event, with the drawn id and the note that failed, decides the state after it, but at a client's
/// coming up, where the reply tells which of two states a crash left.
pub fn one_state_follows()
    ensures { OneStateFollows }
{}

/// Versions only grow: an event that tells of a published number appends one version of that number, which is the first
/// one or an edit of the one before; every other event leaves the versions. No run takes one away or changes it.
pub fn versions_only_grow()
    ensures grow { VersionsGrow }
    ensures stay { VersionsStay }
{}

/// Acknowledged commits leave only where their client is told of it: at a Done, at a Resolved and at a Revert. After a crash
/// they leave only where such a note was in flight. Everything else lets them stay, in order, whoever does it.
pub fn commits_leave_only_told()
    ensures step { CommitsLeaveOnly }
    ensures run { CommitsLeaveOnlyInRuns }
{}

/// A transaction's image never changes after its begin, whatever its own client or another one does: while it is open,
/// nothing of it changes but which blocks it holds.
pub fn images_stay()
    ensures step { ImagesStay }
    ensures run { ImagesStayInRuns }
{}

/// A client never has two publications at a time, running or pending: the pending one is the one that runs, once its
/// intent is noted, and a resolve runs only for one that is pending. Every event keeps this, and so every run has it.
pub fn publications_are_single()
    ensures stays { StaysSingle }
    ensures always { AlwaysSingle }
{}
