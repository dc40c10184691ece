//! Laws of asks that start a task. Each function does nothing: its clauses are the law.
ghost use Rattle.bcv_clientlaws.specs.Starts.{CleanupIsNew, CleanupStarts, CopyHasLeft, CopyIsNew, CopyStarts, CreateIsNew, CreateStarts, FetchStarts, NewCleanupFits, NewCopyFits, NewCreateFits, NewUploadFits, PollStarts, QuietTaskFits, RefusesFetch, RefusesPoll, RefusesResolve, RefusesStart, RefusesUpload, ResolveStarts, StartsAsAsked, StartsWithoutPending, UploadHasLeft, UploadIsNew, UploadStarts};

/// Shows that an ask which starts a task, or is refused, is the machine's.
pub fn starts_are_as_asked()
    ensures starts { StartsAsAsked }
    ensures refused { RefusesStart }
    ensures free { StartsWithoutPending }
    ensures create { CreateStarts }
    ensures copy { CopyStarts }
    ensures upload { UploadStarts }
    ensures no_upload { RefusesUpload }
    ensures cleanup { CleanupStarts }
    ensures poll { PollStarts }
    ensures no_poll { RefusesPoll }
    ensures resolve { ResolveStarts }
    ensures no_resolve { RefusesResolve }
    ensures fetch { FetchStarts }
    ensures no_fetch { RefusesFetch }
{}

/// Shows that a task that has just begun is the machine's, with as many requests left.
pub fn new_tasks_are_the_machines()
    ensures create { CreateIsNew }
    ensures copy { CopyIsNew }
    ensures upload { UploadIsNew }
    ensures cleanup { CleanupIsNew }
    ensures copy_left { CopyHasLeft }
    ensures upload_left { UploadHasLeft }
{}

/// Shows that a client with a task that has just begun fits its log, where no version has the id that was drawn.
pub fn new_tasks_fit()
    ensures quiet { QuietTaskFits }
    ensures create { NewCreateFits }
    ensures copy { NewCopyFits }
    ensures upload { NewUploadFits }
    ensures cleanup { NewCleanupFits }
{}
