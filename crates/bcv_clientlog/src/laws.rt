//! A law, as the clause of a function that does nothing, for proofs to cite.
ghost use Rattle.bcv_clientlog.specs.LogParts.{LoadsOnce};

/// Shows that the bytes of a log load as one thing.
pub fn loads_once()
    ensures { LoadsOnce }
{}
