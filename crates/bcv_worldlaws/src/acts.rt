//! Laws on the act of one client among others. Each function does nothing: its clauses are the law.
ghost use Rattle.bcv_worldlaws.specs.QuietActs.{QuietActGoesOn, QuietActs, QuietActsFit};
ghost use Rattle.bcv_worldlaws.specs.WorldLaws.{ActGoesOn, ActIsNext, ActsInPlace, DrawnAreApart, JobNamesAreMine, NewNamesAreAway, NothingGrows, NumbersAreNew, PlaceIsClient, StayApart, WorldGoesOn};

/// Shows that the act of one client is a step of the machine, and leaves the other places fitting the log.
pub fn acts_are_steps()
    ensures client { PlaceIsClient }
    ensures acts { ActsInPlace }
    ensures next { ActIsNext }
    ensures still { NothingGrows }
    ensures on { WorldGoesOn }
    ensures goes { ActGoesOn }
{}

/// Shows that places stay apart, and that a name which no place has is none of the machine's.
pub fn places_stay_apart()
    ensures apart { StayApart }
    ensures drawn { DrawnAreApart }
    ensures job { JobNamesAreMine }
    ensures new { NumbersAreNew }
    ensures away { NewNamesAreAway }
{}

/// Shows that what happens to a client without a request and without a note is the machine's, and leaves its place fitting the log.
pub fn quiet_acts_are_the_machines()
    ensures acts { QuietActs }
    ensures fit { QuietActsFit }
    ensures goes { QuietActGoesOn }
{}
