//! Lists that ascend by name.
ghost use Rattle.std.specs.Prelude.{◌≡◌, ◌<◌, ℕ, List, None, Some, length, vec_len, vec_capacity, IfOk, IfErr};
ghost use Rattle.std.specs.Option.{option_map};
ghost use Rattle.bcv_base.specs.Keyed.{keyed, with_keyed, without_keyed};
ghost use Rattle.bcv_base.specs.ManifestRules.{Ascends};
ghost use Rattle.bcv_databases.specs.NamedLists.{IsThere, IsFree};

use crate::known::Known;
use crate::set_use::SetUse;
use bcv_base::DbName;
use bcv_model::Local;

/// What has a name.
pub(crate) trait Named {
    ghost use Rattle.std.specs.Prelude.{ℕ, List};

    ghost key: { Self → List ℕ };

    fn name(&self) -> DbName
        ensures { result ≡ key self.now };
}

impl Named for Local {
    ghost use Rattle.bcv_model.specs.Notes.{kept_name};

    ghost key = { kept_name };

    fn name(&self) -> DbName {
        self.entry.name
    }
}

impl Named for Known {
    ghost use Rattle.bcv_databases.specs.Catalog.{known_name};

    ghost key = { known_name };

    fn name(&self) -> DbName {
        self.entry.name
    }
}

impl Named for SetUse {
    ghost use Rattle.bcv_databases.specs.Catalog.{use_name};

    ghost key = { use_name };

    fn name(&self) -> DbName {
        self.name
    }
}

/// Where a name stands, or where it would stand.
pub(crate) fn place_of<T: Named>(items: &[T], name: &DbName) -> Result<usize, usize>
    ensures there { IfOk result (IsThere T.key name.now items.now) }
    ensures free { IfErr result (IsFree T.key name.now items.now) }
{
    for place in 0..items.len() {
        let order = items[place].name().cmp_bytes(name);
        if order.is_eq() {
            return Ok(place);
        }
        if order.is_gt() {
            return Err(place);
        }
    }
    Err(items.len())
}

/// What has a name, or `None` where nothing has it.
pub(crate) fn by_name<'a, T: Named>(items: &'a [T], name: &DbName) -> Option<&'a T>
    requires { Ascends T.key items.now }
    ensures { option_map (λ x. x.now) result ≡ keyed T.key name.now items.now }
{
    match place_of(items, name) {
        Ok(place) => Some(&items[place]),
        Err(_) => None,
    }
}

/// Puts an item at its place, over the one of its name. Where none has its name there is to be room.
pub(crate) fn put<T: Named + Drop>(items: &mut Vec<T>, item: T)
    requires { vec_len items.old < vec_capacity items.old }
    ensures { items.new.items ≡ with_keyed T.key item items.old.items }
{
    let name = item.name();
    match place_of(items, &name) {
        Ok(place) => {
            items[place] = item;
        }
        Err(place) => match items.insert(place, item) {
            Ok(()) => (),
            Err(_) => unreachable!(),
        },
    }
}

/// Takes out what has a name.
pub(crate) fn take<T: Named>(items: &mut Vec<T>, name: &DbName) -> Option<T>
    requires { Ascends T.key items.old.items }
    ensures found { result ≡ keyed T.key name.now items.old.items }
    ensures others { items.new.items ≡ without_keyed T.key name.now items.old.items }
{
    match place_of(items, name) {
        Ok(place) => Some(items.remove(place)),
        Err(_) => None,
    }
}
