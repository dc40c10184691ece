//! The law of what a note comes to for a client. The function does nothing: its clauses are the law, for proofs to cite.
ghost use Rattle.bcv_clientstate.specs.Journaled.{CompactGoesOn, NoteGoesOn};

use bcv_clientlog::ClientLog;
use bcv_disk::Disk;

/// Shows what a note that was tried of one log, and left the other, comes to for the client: what it keeps then, what is in
/// flight, and that every image which a crash may leave holds one of both.
pub fn notes_are_journaled<D: Disk>(old: &ClientLog<D>, new: &ClientLog<D>)
    ensures note { NoteGoesOn D.told D.shown old.now new.now }
    ensures compact { CompactGoesOn D.told D.shown old.now new.now }
{}
