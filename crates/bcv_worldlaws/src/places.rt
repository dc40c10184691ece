//! Laws on places. Each function does nothing: its clauses are the law.
ghost use Rattle.bcv_worldlaws.specs.WorldLaws.{DownCrashes, DownStays, FirstState, FirstWorldFits, NewPlace, OthersStay, PlaceFalls, PlaceMoves, PlaceRises, SeenStays, TickIsNext};

use bcv_disk::Disk;

/// Shows that a place still fits the log, and is seen as it was, after others have appended to it.
pub fn others_stay()
    ensures stays { OthersStay }
    ensures seen { SeenStays }
{}

/// Shows that the place of a client that goes down, or comes up again, fits the log and has no new names.
pub fn places_rise_and_fall()
    ensures falls { PlaceFalls }
    ensures rises { PlaceRises }
    ensures moves { PlaceMoves }
{}

/// Shows that a client which is down stays so while others append to the log, and over what a crash leaves.
pub fn down_clients_stay<D: Disk>(was: &D, disk: &D)
    ensures stays { DownStays D.shown disk.now }
    ensures crash { DownCrashes D.shown was.now disk.now }
{}

/// Shows that new clients are the machine's first state, and that time which goes on is its tick.
pub fn worlds_begin_and_go_on()
    ensures new { NewPlace }
    ensures first { FirstState }
    ensures fits { FirstWorldFits }
    ensures tick { TickIsNext }
{}
