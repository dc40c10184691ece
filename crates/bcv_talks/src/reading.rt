//! Laws on reads of a client. Each function does nothing: its clauses are the law.
ghost use Rattle.bcv_talks.specs.ReadRequests.{FetchesWhatIsFar};

use bcv_client::Client;
use bcv_disk::Disk;

/// Shows that a read or a hold starts a task, or is refused for want of one or of a slot, only where the page's block is not cached:
/// a page in a cached block is answered without a request.
pub fn reads_fetch_what_is_far<D: Disk>(client: &Client<D>)
    ensures fetches { FetchesWhatIsFar client.now }
{}
