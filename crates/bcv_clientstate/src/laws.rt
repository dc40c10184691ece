//! Laws of what a client stands on. Each function does nothing: its clause is the law, for proofs to cite.
ghost use Rattle.bcv_clientstate.specs.BaseLaws.{BaseHasBlock, BaseIsDatabase, BaseStays, NotesHaveSizes};
ghost use Rattle.bcv_clientstate.specs.CheckLaws.{FaultIsFound, NoneIsFound, PassesIsFree};
ghost use Rattle.bcv_clientstate.specs.GoneLaws.{OutlivedMayBeGone};
ghost use Rattle.bcv_clientstate.specs.GrowthLaws.{GrowthFits, GrowthLeavesClient};
ghost use Rattle.bcv_clientstate.specs.KnownLaws.{KnownFits, KnownIsKnown};
ghost use Rattle.bcv_clientstate.specs.KeptLaws.{NotesAreSteps, NotesKeepOrder};
ghost use Rattle.bcv_clientstate.specs.LocalSides.{CommitsAsAsked, RefusesCommit, RefusesRevert, RevertsAsAsked};
ghost use Rattle.bcv_clientstate.specs.NoteSides.{StandsAsNoted, FailsAsNoted, FullAsNoted};
ghost use Rattle.bcv_clientstate.specs.ResolveSides.{AtIsFound, FreshIsNotFound, LastIsFound, VoidedIsNotFound};
ghost use Rattle.bcv_clientstate.specs.StageLaws.{DeletionStaysSwept, NewIsStaged, ReadingIsSwept, RefusedIsStaged, RefusedIsSwept, UploadStaysStaged};
ghost use Rattle.bcv_clientstate.specs.StampLaws.{StampsAreMoments};
ghost use Rattle.bcv_clientstate.specs.StartRefusals.{PollIsRefused, ResolveIsRefused, StartIsRefused, UploadIsOver};
ghost use Rattle.bcv_clientstate.specs.UpSides.{LoadsWhatIsLeft, RisesAsMachine};
ghost use Rattle.bcv_clientstate.specs.WorkSides.{CleanupGoesOn, CleanupReads, CopyGoesOn, CopyReads, UploadGoesOn, UploadReads, ReadFails, ReadFindsFault, ReadFindsNone, RequestFails, RequestFindsGone};
ghost use Rattle.bcv_clientstate.specs.PartRefusals.{BeginIsRefused, BusyIsBusy, CommitIsRefused, RevertIsRefused, ViewHasBase, ViewIsView};
ghost use Rattle.bcv_clientstate.specs.PollSides.{FaultIsPolled, NoneIsPolled, ReadIsPolled};
ghost use Rattle.bcv_clientstate.specs.PutLaws.{CreateIsFirst, LastIsLastVersion, NoneIsNoVersion, PutIsTheEdit};

/// Shows that a publication is the machine's: the log with its manifest stands for the container with one version more.
pub fn puts_are_edits()
    ensures last { LastIsLastVersion }
    ensures none { NoneIsNoVersion }
    ensures put { PutIsTheEdit }
    ensures create { CreateIsFirst }
{}

/// Shows that a note of the log does to what is kept what the machine's note does.
pub fn notes_are_steps()
    ensures { NotesAreSteps }
{}

/// Shows that a note which may stand leaves the databases with commits in order.
pub fn notes_keep_order()
    ensures { NotesKeepOrder }
{}

/// Shows that a note of the log has as many bytes as the machine counts.
pub fn notes_have_sizes()
    ensures { NotesHaveSizes }
{}

/// Shows that a base is the machine's database of its version, and that its manifest has the container's block size.
pub fn base_is_database()
    ensures database { BaseIsDatabase }
    ensures block { BaseHasBlock }
{}

/// Shows that a base stays, whatever is appended to the log.
pub fn base_stays()
    ensures { BaseStays }
{}

/// Shows that a client still fits a log to which others have appended lawful entries, and is seen as it was.
pub fn growth_is_harmless()
    ensures fits { GrowthFits }
    ensures client { GrowthLeavesClient }
{}

/// Shows that what a client's log makes of a note is what the machine says of it.
pub fn notes_are_the_machines()
    ensures stands { StandsAsNoted }
    ensures fails { FailsAsNoted }
    ensures full { FullAsNoted }
{}

/// Shows that the stamp of a dead block is the moment of a published manifest.
pub fn stamps_are_moments()
    ensures { StampsAreMoments }
{}

/// Shows that a block of a base which is gone may be gone by the machine's rule.
pub fn outlived_may_be_gone()
    ensures { OutlivedMayBeGone }
{}

/// Shows that the databases which a manifest makes known are the machine's, and that they fit the log.
pub fn known_is_known()
    ensures known { KnownIsKnown }
    ensures fits { KnownFits }
{}

/// Shows that what a poll comes to is the machine's poll.
pub fn polls_are_the_machines()
    ensures read { ReadIsPolled }
    ensures none { NoneIsPolled }
    ensures fault { FaultIsPolled }
{}

/// Shows that a client refuses a begin, a commit and a revert exactly where the machine does, by what it has in memory.
pub fn refusals_are_the_machines()
    ensures view { ViewIsView }
    ensures base { ViewHasBase }
    ensures busy { BusyIsBusy }
    ensures begin { BeginIsRefused }
    ensures commit { CommitIsRefused }
    ensures revert { RevertIsRefused }
{}

/// Shows that what a publication's get finds is what the machine finds.
pub fn checks_are_the_machines()
    ensures passes { PassesIsFree }
    ensures fault { FaultIsFound }
    ensures none { NoneIsFound }
{}

/// Shows that what a publication does before its put is the machine's step.
pub fn works_are_the_machines()
    ensures copy_reads { CopyReads }
    ensures copy_goes_on { CopyGoesOn }
    ensures upload_reads { UploadReads }
    ensures upload_goes_on { UploadGoesOn }
    ensures cleanup_reads { CleanupReads }
    ensures cleanup_goes_on { CleanupGoesOn }
{}

/// Shows that an upload and a cleanup which keep no manifest have begun nothing yet, or have only the manifest's requests left.
pub fn stages_stay()
    ensures new { NewIsStaged }
    ensures upload { UploadStaysStaged }
    ensures reading { ReadingIsSwept }
    ensures deletion { DeletionStaysSwept }
    ensures refused_upload { RefusedIsStaged }
    ensures refused_cleanup { RefusedIsSwept }
{}

/// Shows that a client refuses to start a task exactly where the machine does, by what it has in memory, and what an upload that
/// starts is over.
pub fn starts_are_the_machines()
    ensures start { StartIsRefused }
    ensures poll { PollIsRefused }
    ensures resolve { ResolveIsRefused }
    ensures over { UploadIsOver }
{}

/// Shows that a commit and a revert are the machine's, whether they are refused, or their note stands or fails.
pub fn local_calls_are_the_machines()
    ensures commits { CommitsAsAsked }
    ensures no_commit { RefusesCommit }
    ensures reverts { RevertsAsAsked }
    ensures no_revert { RefusesRevert }
{}

/// Shows that a resolve finds the version that the pending publication was made as, or that there is none, where the machine does.
pub fn resolves_find_the_version()
    ensures last { LastIsFound }
    ensures fresh { FreshIsNotFound }
    ensures at { AtIsFound }
    ensures voided { VoidedIsNotFound }
{}

/// Shows that what the journal of a crashed client gives is what the machine says may be left, and that the client that comes up
/// with it is the machine's.
pub fn crashes_leave_what_is_kept()
    ensures left { LoadsWhatIsLeft }
    ensures rises { RisesAsMachine }
{}

/// Shows that a fault of the store, of the edit or of a block ends a publication as in the machine, while its intent is not noted.
pub fn faults_end_publications()
    ensures read { ReadFails }
    ensures edit { ReadFindsFault }
    ensures none { ReadFindsNone }
    ensures request { RequestFails }
    ensures gone { RequestFindsGone }
{}
