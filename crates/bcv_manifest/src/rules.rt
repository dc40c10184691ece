//! Whether a key stands after the one before it.

ghost use Rattle.std.specs.Prelude.{◌≡◌};
ghost use Rattle.std.specs.Option.{option_map};
ghost use Rattle.bcv_base.specs.ManifestGrammar.{is_above};

use bcv_base::{DbName, Id16};

pub(crate) fn is_id_above(before: Option<Id16>, id: &Id16) -> bool
    ensures { result ≡ is_above (option_map (λ i. i.0) before) id.now.0 }
{
    match before {
        None => true,
        Some(before) => before.0.as_slice().cmp(id.0.as_slice()).is_lt(),
    }
}

pub(crate) fn is_name_above(before: Option<DbName>, name: &DbName) -> bool
    ensures { result ≡ is_above before name.now }
{
    match before {
        None => true,
        Some(before) => before.text().cmp(name.text()).is_lt(),
    }
}
