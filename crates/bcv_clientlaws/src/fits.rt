//! Laws on what ties a client to a log. Each function does nothing: its clauses are the law.
ghost use Rattle.bcv_clientlaws.specs.ManifestsRead.{ReadFits, ReadIsSeen, SeenIsSeenIn};
ghost use Rattle.bcv_clientlaws.specs.PublishTasks.{PutFits, RefusedFits};
ghost use Rattle.bcv_clientlaws.specs.OwnEntries.{BlocksLeaveFits, CleanupAppends, CleanupDeletes, CleanupFits, CleanupIsRefused, CleanupReadsOn, CopyAppends, CopyFits, CopyIsRefused, CopyWorks, CreateFits, PublicationFits, TaskGoesOnFits, UploadAppends, UploadFits, UploadIsRefused, UploadWorks};

/// Shows that a client fits its log with what it appended itself: a block, a deletion of its cleanup, or a publication.
pub fn own_entries_fit()
    ensures blocks { BlocksLeaveFits }
    ensures goes_on { TaskGoesOnFits }
    ensures publication { PublicationFits }
    ensures create { CreateFits }
    ensures copy { CopyFits }
    ensures upload { UploadFits }
    ensures cleanup { CleanupFits }
    ensures copy_works { CopyWorks }
    ensures upload_works { UploadWorks }
    ensures cleanup_reads { CleanupReadsOn }
    ensures cleanup_deletes { CleanupDeletes }
    ensures copy_appends { CopyAppends }
    ensures upload_appends { UploadAppends }
    ensures cleanup_appends { CleanupAppends }
    ensures refused_copy { CopyIsRefused }
    ensures refused_upload { UploadIsRefused }
    ensures refused_cleanup { CleanupIsRefused }
{}

/// Shows that a client which has read a manifest of the log fits it, with what it keeps, saw and knows then.
pub fn manifests_fit()
    ensures seen { ReadIsSeen }
    ensures read { ReadFits }
    ensures within { SeenIsSeenIn }
{}

/// Shows that a client fits its log after the put of a publishing task, whatever the task publishes.
pub fn publishing_tasks_fit()
    ensures put { PutFits }
    ensures refused { RefusedFits }
{}
