//! Laws of the notes' bytes, for the crates above.

ghost use Rattle.bcv_model.specs.NoteRules.{SizesAgree, TextsDiffer};
ghost use Rattle.bcv_notes.specs.KeptBy.{FoldsOnce};
ghost use Rattle.bcv_notes.specs.KeptNotes.{KeptAgain, SizeGrows, SizesAdd};

/// Shows that a note which may stand has as many bytes as its size says.
pub fn sizes_agree()
    ensures { SizesAgree }
{}

/// Shows that no two notes which may stand at one place have the same bytes.
pub fn texts_differ()
    ensures { TextsDiffer }
{}

/// Shows that the items of a log come to one thing.
pub fn folds_once()
    ensures { FoldsOnce }
{}

/// Shows that what a log comes to, its fewest notes come to again.
pub fn kept_again()
    ensures { KeptAgain }
{}

/// Shows how many bytes the notes of a log take.
pub fn sizes_add()
    ensures { SizesAdd }
{}

/// Shows that a note which stays makes the fewest notes longer by itself at least.
pub fn size_grows()
    ensures { SizeGrows }
{}
