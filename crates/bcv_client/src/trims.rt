//! What is forgotten of page sets once commits in them are gone.
ghost use Rattle.std.specs.Prelude.{◌≡◌};
ghost use Rattle.std.specs.Option.{option_map};
ghost use Rattle.bcv_databases.specs.Catalog.{shown_view};
ghost use Rattle.bcv_client.specs.LocalWrites.{TrimsSets, TrimsWhere, set_in_view};

use crate::job::Job;
use crate::reading::needed;
use bcv_databases::DatabaseView;
use bcv_disk::Disk;
use bcv_ledger::Ledger;
use bcv_slots::Slot;
use bcv_transaction::Transactions;

/// Forgets what nobody needs any more of a set, where commits in it were published or given up.
pub(crate) fn trim_where<D: Disk>(
    ledger: &mut Ledger<D>,
    txns: &Transactions,
    tasks: &[Slot<Job>],
    set: Option<usize>,
    gone: bool,
)
    ensures trims { TrimsWhere gone set ledger.old ledger.new txns.now tasks.now }
    ensures views { TrimsSets ledger.old ledger.new txns.now }
{
    if !gone {
        return;
    }
    if let Some(set) = set {
        ledger.trim(set, needed(txns, tasks, set));
    }
}

/// The set that a database's commits are in.
pub(crate) fn set_of(view: Option<DatabaseView<'_>>) -> Option<usize>
    ensures { result ≡ set_in_view (option_map shown_view view.entry) }
{
    let view = view?;
    let commits = view.commits?;
    Some(commits.set)
}
