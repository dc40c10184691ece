//! Laws of cleanups. Each function does nothing: its clause is the law, for proofs to cite.
ghost use Rattle.bcv_cleanup.specs.CleanupPut.{NewHasTaken, NothingIsComplete, SweepIsTheEdit, TakenStays};

/// A cleanup publishes the machine's sweep. A client says by it which edit its put is.
pub fn sweep_is_the_edit()
    ensures { SweepIsTheEdit }
{}

/// What a cleanup has taken may still be deleted, and what it has deleted is so, whatever is appended. A client keeps
/// by it what it knows of its cleanup.
pub fn taken_stays()
    ensures new { NewHasTaken }
    ensures stays { TakenStays }
{}

/// A cleanup that answers `Nothing` is complete: there was nothing to take, and there is no more.
pub fn nothing_is_complete()
    ensures { NothingIsComplete }
{}
