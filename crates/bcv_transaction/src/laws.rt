//! The laws of the open transactions. Each function does nothing: its clause is the law, for proofs to cite.
ghost use Rattle.bcv_transaction.specs.FitLaws.{CachedAreFirst, CallsLeaveFit, GrowthLeavesFit, OldestIsLeast, PartsAreSeen, ViewsLeaveFit};

/// Shows that what ties the transactions and the cached entries to a log stays: under each call, under
/// whatever is appended, and where the sets keep the transactions' views; and that an upload may rely on the cache.
pub fn calls_keep_fits()
    ensures calls { CallsLeaveFit }
    ensures growth { GrowthLeavesFit }
    ensures views { ViewsLeaveFit }
    ensures first { CachedAreFirst }
{}

/// Shows that the open transactions are parts of a client: seen as the machine's, and fit where the client's are.
pub fn transactions_are_parts()
    ensures { PartsAreSeen }
{}

/// Shows that what a trim by the oldest number forgets is before the commits of each transaction over the set.
pub fn oldest_is_least()
    ensures { OldestIsLeast }
{}
