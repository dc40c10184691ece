//! What became of a publication whose put was not answered.
ghost use Rattle.std.specs.Prelude.{◌≡◌};
ghost use Rattle.bcv_dbmap.specs.Past.{writer_of};
ghost use Rattle.bcv_publish.specs.Resolve.{Resolves, number_in, resolved_by, unread_resolved};

use crate::publish::Publish;
use crate::resolved::Resolved;
use crate::unread::Unread;
use bcv_base::{Id16, Latest, Manifest, Seen, Writer};
use bcv_store::Store;
use std::alloc::Global;

/// Gets the manifest and looks the writer's line up in it: the publication under the id is there exactly where that line
/// has it. This is one request to the store, whatever the answer. The writer must have published nothing since.
pub fn resolve<S: Store>(
    alloc: Global,
    store: &mut S,
    seen: &Seen,
    writer: &Id16,
    id: &Id16,
) -> Resolved
    ensures resolves { Resolves S.told (S.shown store.old)
        (S.shown store.new) seen.now writer.now id.now result }
    ensures reached { S.reaches store.old store.new }
{
    let publication = Publish::new(*writer, *id);
    match publication.read(alloc, store, seen) {
        Ok(latest) => resolved(&latest, writer, id),
        Err(unread) => unread.resolved(),
    }
}

// What a manifest says of the publication.
fn resolved(latest: &Latest, writer: &Id16, id: &Id16) -> Resolved
    ensures { result ≡ resolved_by (number_in writer.now id.now latest.now.manifest) }
{
    match number_in(&latest.manifest, writer, id) {
        Some(number) => Resolved::At(number),
        None => Resolved::Voided,
    }
}

// The number of the version in which the writer's line has the id.
fn number_in(manifest: &Manifest, writer: &Id16, id: &Id16) -> Option<u64>
    ensures { result ≡ number_in writer.now id.now manifest.now }
{
    let line = line_of(manifest.writers.items(), writer)?;
    if line.last.same_as(id) {
        Some(line.number)
    } else {
        None
    }
}

// The writer's line.
fn line_of(writers: &[Writer], writer: &Id16) -> Option<Writer>
    ensures { result ≡ writer_of writer.now writers.now }
{
    for line in writers {
        if line.id.same_as(writer) {
            return Some(*line);
        }
    }
    None
}

impl Unread {
    // What a resolve answers then.
    fn resolved(self) -> Resolved
        ensures { result ≡ unread_resolved self }
    {
        match self {
            Unread::Missing => Resolved::Voided,
            Unread::Bad { at } => Resolved::BadManifest { at },
            Unread::Failed => Resolved::StoreFault,
            Unread::NoMemory => Resolved::NoMemory,
        }
    }
}
