//! Whether a manifest lists a block.

ghost use Rattle.std.specs.Prelude.{◌≡◌};
ghost use Rattle.bcv_base.specs.Ids.{has_id};
ghost use Rattle.bcv_base.specs.ManifestRules.{lists};

use bcv_base::{Id16, Manifest};

// Whether an id is one of these, which need not ascend.
fn is_among(ids: &[Id16], id: &Id16) -> bool
    ensures { result ≡ has_id id.now ids.now }
{
    ids.iter().any(|other| other.same_as(id))
}

/// Whether some database of the manifest lists the block. It walks over all listed blocks: for many questions to one
/// manifest sort the ids first.
pub fn listed(manifest: &Manifest, id: &Id16) -> bool
    ensures { result ≡ lists manifest.now.dbs id.now }
{
    manifest
        .dbs
        .items()
        .iter()
        .any(|db| is_among(db.blocks.items(), id))
}
