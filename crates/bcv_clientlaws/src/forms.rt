//! Laws on the databases that a client knows. The function does nothing: its clauses are the law.
ghost use Rattle.bcv_clientlaws.specs.Forms.{BasesAreInForm, CommitsKeepForm, EndsKeepForm, FitsAreInForm, FoldsAreInForm, FormIsContainers, FoundInForm, FoundKnownInForm, NotesKeepForm, ReadsKeepForm, ResolvesKeepForm, RevertsKeepForm};

/// Shows that the databases which a client knows have one block size, the container's, for which their entries meet the rules.
pub fn databases_stay_in_form()
    ensures found { FoundInForm }
    ensures found_known { FoundKnownInForm }
    ensures notes { NotesKeepForm }
    ensures reads { ReadsKeepForm }
    ensures commits { CommitsKeepForm }
    ensures reverts { RevertsKeepForm }
    ensures ends { EndsKeepForm }
    ensures resolves { ResolvesKeepForm }
    ensures folds { FoldsAreInForm }
    ensures bases { BasesAreInForm }
    ensures fits { FitsAreInForm }
    ensures container { FormIsContainers }
{}
