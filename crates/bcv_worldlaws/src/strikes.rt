//! Laws on what strikes a client's disk. Each function does nothing: its clauses are the law.
ghost use Rattle.bcv_worldlaws.specs.Strikes.{ActStrikes, CrashStrikes, PlacesFall, StruckActs};

/// Shows that what a failure of the disk ends is, where a fuse burns in place of it, what a crash ends.
pub fn crashes_strike_as_failures()
    ensures strikes { CrashStrikes }
    ensures acts { ActStrikes }
    ensures places { PlacesFall }
    ensures struck { StruckActs }
{}
