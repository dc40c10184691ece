//! Changes of the databases, where their note stands. None of them takes memory.
ghost use Rattle.std.specs.Prelude.{◌≡◌, ◌<◌, IfSome, length};
ghost use Rattle.bcv_base.specs.declared.id.Id16.{Id16};
ghost use Rattle.bcv_base.specs.ManifestRules.{Ascends};
ghost use Rattle.bcv_databases.specs.Catalog.{known_name};
ghost use Rattle.bcv_databases.specs.Sound.{CanUpload};
ghost use Rattle.bcv_model.specs.declared.note.Note.TheVariants.{Done, Intent, Void};
ghost use Rattle.bcv_ledger.specs.LedgerNotes.{EndsWhere, PollsWhere, ResolvesWhere, stands};

use bcv_databases::{Databases, Known};
use bcv_journal::Noted;
use bcv_model::PendingPub;

/// Whether a note stands.
pub(crate) fn stands(noted: Noted) -> bool
    ensures { result ≡ stands noted }
{
    matches!(noted, Noted::Done)
}

/// The publication is pending, where its intent stands.
pub(crate) fn intend_where(databases: &mut Databases, pending: PendingPub, stands: bool)
    requires { IfSome pending.upload (CanUpload databases.old.kept.locals) }
    ensures { EndsWhere stands databases.old databases.new (Intent pending) }
{
    if stands {
        databases.intend(pending);
    }
}

/// The pending publication was made as the version of a number, where the note of it stands.
pub(crate) fn finish_where(databases: &mut Databases, number: u64, stands: bool)
    ensures { (id : Id16) → EndsWhere stands databases.old databases.new (Done id number) }
{
    if stands {
        databases.finished(number);
    }
}

/// The pending publication was not made, where the note of it stands.
pub(crate) fn void_where(databases: &mut Databases, stands: bool)
    ensures { (id : Id16) → EndsWhere stands databases.old databases.new (Void id) }
{
    if stands {
        databases.voided();
    }
}

/// The databases of a manifest are known, where the note of its publication stands.
pub(crate) fn poll_where(databases: &mut Databases, found: Vec<Known>, stands: bool)
    requires { Ascends known_name found.items }
    ensures { PollsWhere stands databases.old databases.new found.items }
{
    if stands {
        databases.polled(found);
    }
}

/// The pending publication was made as the version of a number, where the note of it stands, and its database is known as it
/// was published where no commits are left.
pub(crate) fn resolve_where(databases: &mut Databases, number: u64, stands: bool)
    requires { length databases.old.known < databases.old.rooms.known }
    ensures { ResolvesWhere stands databases.old databases.new number }
{
    if stands {
        databases.resolved(number);
    }
}
