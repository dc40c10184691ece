//! Laws on the lines of a script.
ghost use Rattle.bcv_world.specs.LineLaws.{LineKeeps, WorldLineKeeps};

/// Shows that what the grammar gives of a script's lines may be given to a world: a first line's spec, and another line's event.
pub fn lines_keep()
    ensures world { WorldLineKeeps }
    ensures event { LineKeeps }
{}
