//! A law, as the clause of a function that does nothing, for proofs to cite.
ghost use Rattle.bcv_databases.specs.LoadedLaw.{FoldsAreLoaded};

/// Shows that what the notes of a client's log come to may be loaded.
pub fn folds_are_loaded()
    ensures { FoldsAreLoaded }
{}
