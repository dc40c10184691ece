//! Laws of the steps of tasks, and of what ends a publication. Each function does nothing: its clauses are the law.
ghost use Rattle.bcv_clientlaws.specs.FaultEnds.{ReadFailsVoided, ReadFindsFaultVoided, ReadFindsNoneVoided, RequestFailsVoided, RequestFindsGoneVoided};
ghost use Rattle.bcv_clientlaws.specs.TaskSteps.{ClosedEndsTask, NoTaskSteps, StepIsOfTask, StepsSeeNoTasks};
ghost use Rattle.bcv_clientlaws.specs.Resolves.{ResolveMeetsFault, ResolvedIsNotNoted, ResolvesAt, ResolvesVoid, VoidIsNotNoted};

/// Shows that the step of a resolve is the machine's, whether it found the version, or none, or the store or the disk failed.
pub fn resolves_are_the_machines()
    ensures at { ResolvesAt }
    ensures not_noted { ResolvedIsNotNoted }
    ensures void { ResolvesVoid }
    ensures void_not_noted { VoidIsNotNoted }
    ensures fault { ResolveMeetsFault }
{}

/// Shows that a fault of the store, of the edit or of a block ends a publication as in the machine, where its intent is noted:
/// void is noted first.
pub fn faults_end_as_the_machines()
    ensures read { ReadFailsVoided }
    ensures edit { ReadFindsFaultVoided }
    ensures none { ReadFindsNoneVoided }
    ensures request { RequestFailsVoided }
    ensures gone { RequestFindsGoneVoided }
{}

/// Shows that the step of a task's job, over the client without the task, is the machine's step of its number.
pub fn steps_are_of_their_tasks()
    ensures alone { StepsSeeNoTasks }
    ensures step { StepIsOfTask }
    ensures closed { ClosedEndsTask }
    ensures none { NoTaskSteps }
{}
