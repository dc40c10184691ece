//! Laws on a client that is down. The function does nothing: its clauses are the laws, for proofs to cite.
ghost use Rattle.bcv_risen.specs.DownLaws.{CrashLeavesDown, FlightLeavesDown, GrowthLeavesDown};

use bcv_clientlog::ClientLog;
use bcv_disk::Disk;

/// Shows that a client whose log crashed and left a disk is down, and stays so while others append to the store's log.
pub fn crashes_leave_clients_down<D: Disk>(log: &ClientLog<D>, disk: &D)
    ensures crash { CrashLeavesDown D.shown log.now disk.now }
    ensures flight { FlightLeavesDown D.shown disk.now }
    ensures growth { GrowthLeavesDown D.shown disk.now }
{}
