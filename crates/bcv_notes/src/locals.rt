//! The databases with commits.

ghost use Rattle.std.specs.Prelude.{◌≡◌, ◌<◌, ◌++◌, ℕ, List, length, take, drop, Some, slice_get, MatchOption};
ghost use Rattle.std.specs.Option.{option_map};
ghost use Rattle.bcv_base.specs.Keyed.{keyed};
ghost use Rattle.bcv_model.specs.Notes.{kept_name};

use bcv_base::DbName;
use bcv_model::Local;

/// The database of a name, or `None` where it has no commits.
pub(crate) fn local_of<'a>(locals: &'a [Local], db: &DbName) -> Option<&'a Local>
    ensures { option_map (λ l. l.now) result ≡ keyed kept_name db.now locals.now }
{
    for local in locals {
        if local.entry.name.same_as(db) {
            return Some(local);
        }
    }
    None
}
