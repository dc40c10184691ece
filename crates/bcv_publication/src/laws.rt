//! Laws of the put with its notes. Each function does nothing: its clause is the law, for proofs to cite.
ghost use Rattle.bcv_publication.specs.PutExits.{IntentMeetsFull, IntentMeetsFault, PutIsDone, DoneMeetsFault};
ghost use Rattle.bcv_publication.specs.PutExits.{PutIsRefused, PutIsVoid, VoidMeetsFault};
ghost use Rattle.bcv_publication.specs.PutExits.{PutFailed, PutIsLost, RefusalIsLost};
ghost use Rattle.bcv_publication.specs.TaskSides.{TaskIsTried, TaskIsAppended, StillIsNext, PassedIsRefused};
ghost use Rattle.bcv_publication.specs.TaskSides.{DoneIsKnown, DoneIsAnswered, RefusalIsAnswered, RefusedIsTriedAgain};

/// Shows that each end of a put with its notes is a step of the machine, from the client's side before it to that after it.
pub fn puts_are_the_machines()
    ensures intent_full { IntentMeetsFull }
    ensures intent_fault { IntentMeetsFault }
    ensures done { PutIsDone }
    ensures done_fault { DoneMeetsFault }
    ensures refused { PutIsRefused }
    ensures void { PutIsVoid }
    ensures void_fault { VoidMeetsFault }
    ensures failed { PutFailed }
    ensures lost { PutIsLost }
    ensures refusal_lost { RefusalIsLost }
{}

/// Shows that a publishing task of each kind is a publication of the machine: that its put may be tried, which version and
/// which number it makes, when it is refused, what it answers, and how it goes on.
pub fn tasks_are_publications()
    ensures tried { TaskIsTried }
    ensures appended { TaskIsAppended }
    ensures next { StillIsNext }
    ensures passed { PassedIsRefused }
    ensures known { DoneIsKnown }
    ensures done { DoneIsAnswered }
    ensures refused { RefusalIsAnswered }
    ensures again { RefusedIsTriedAgain }
{}
