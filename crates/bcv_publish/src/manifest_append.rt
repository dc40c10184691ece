//! One put of a manifest under a condition.
ghost use Rattle.bcv_base.specs.ManifestRules.{IsShort, MeetsLimits, MeetsRules};
ghost use Rattle.bcv_publish.specs.ManifestAppend.{ManifestAppends};

use bcv_base::{Manifest, ObjName};
use bcv_manifest::write_manifest;
use bcv_store::{Cond, Put, Store};
use std::alloc::Global;

/// Puts a manifest where the condition holds of the one that is there. This is one request to the store, or none where
/// memory runs out before it.
pub(crate) fn append_manifest<S: Store>(
    alloc: Global,
    store: &mut S,
    condition: Cond,
    manifest: &Manifest,
) -> Put
    requires rules { MeetsRules manifest.now }
    requires limits { MeetsLimits manifest.now }
    requires short { IsShort manifest.now }
    ensures appends { ManifestAppends S.told (S.shown store.old)
        (S.shown store.new) condition manifest.now result }
    ensures reached { S.reaches store.old store.new }
{
    match write_manifest(alloc, manifest) {
        Ok(bytes) => store.put(alloc, &ObjName::Manifest, condition, &bytes),
        Err(_) => Put::NoMemory,
    }
}
