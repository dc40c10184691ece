//! Laws of a client's tasks, and of one part that is replaced. Each function does nothing: its clauses are the law.
ghost use Rattle.bcv_clientlaws.specs.Different.{DifferAsBefore, DifferWithEnded, DifferWithNew, DifferWithTxn, DifferWithoutTask, DifferWithoutTxn, OneWith, OneWithEnded, OneWithOther, OneWithout, OthersAreNone};
ghost use Rattle.bcv_clientlaws.specs.OtherParts.{EntriesFit, FitsWithEndedTxn, FitsWithoutTask, FoundTaskFits, KeptFits, KeptFitsQuietly, LatestFits, NamesSuffice, NotesKeepTaken, OthersLeaveFits, RisenFits, ShutFits, TaskFitsLast, TasksFit, TxnsFit};
ghost use Rattle.bcv_clientlaws.specs.TaskLists.{FreeIsFree, JobIsBusy, TaskComes, TaskGoes, TaskGoesOn, TaskIsFound, TaskNumbersAre, TxnEnds, TxnNumbersAre};

/// Shows that a task which is taken out of the list, or put last, is the machine's.
pub fn tasks_come_and_go()
    ensures goes { TaskGoes }
    ensures comes { TaskComes }
    ensures ends { TxnEnds }
    ensures goes_on { TaskGoesOn }
{}

/// Shows that a look-up of a task by its number, and the least free number, are the machine's.
pub fn tasks_are_the_machines()
    ensures found { TaskIsFound }
    ensures busy { JobIsBusy }
    ensures numbers { TaskNumbersAre }
    ensures txn_numbers { TxnNumbersAre }
    ensures free { FreeIsFree }
{}

/// Shows that the numbers of tasks and of transactions stay different, and that no more than one task publishes.
pub fn numbers_stay_different()
    ensures without { DifferWithoutTask }
    ensures with { DifferWithNew }
    ensures as_before { DifferAsBefore }
    ensures ended { DifferWithEnded }
    ensures without_txn { DifferWithoutTxn }
    ensures with_txn { DifferWithTxn }
    ensures others { OthersAreNone }
    ensures one_without { OneWithout }
    ensures one_ended { OneWithEnded }
    ensures one_with { OneWith }
    ensures one_with_other { OneWithOther }
{}

/// Shows that a client fits its log after others have appended to it, and with one part replaced by another that fits.
pub fn other_parts_fit()
    ensures others { OthersLeaveFits }
    ensures names { NamesSuffice }
    ensures tasks { TasksFit }
    ensures task { TaskFitsLast }
    ensures without { FitsWithoutTask }
    ensures found { FoundTaskFits }
    ensures txns { TxnsFit }
    ensures ended { FitsWithEndedTxn }
    ensures entries { EntriesFit }
    ensures latest { LatestFits }
    ensures kept { KeptFits }
    ensures quietly { KeptFitsQuietly }
    ensures taken { NotesKeepTaken }
    ensures risen { RisenFits }
    ensures shut { ShutFits }
{}
