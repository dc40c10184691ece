ghost use Rattle.std.specs.Prelude.{◌≡◌};
ghost use Rattle.bcv_base.specs.ManifestGrammar.{manifest_of};
ghost use Rattle.bcv_publish.specs.ManifestRead.{is_other};
ghost use Rattle.bcv_poller.specs.ManifestPoll.{
  FollowsSeen,
  IfNew,
  PollAccepts,
  PollAnswered,
  ManifestPolls,
  unlike_seen,
};

use crate::polled::Polled;
use bcv_base::{Latest, Manifest, ObjName, Seen};
use bcv_manifest::{ReadFault, read_manifest};
use bcv_store::{Got, Store};
use std::alloc::Global;

const MOST_BYTES: usize = 67_108_864;

// Where a manifest has its number and its block size, in bytes.
const NUMBER_AT: u64 = 8;

const BLOCK_AT: u64 = 24;

/// Gets the manifest, unless it still has the etag of the one that is kept, and compares it with what was seen of the
/// container. This is one request to the store, whatever the answer.
pub fn poll<S: Store>(alloc: Global, store: &mut S, seen: &Seen, etag: Option<u64>) -> Polled
    ensures polls { ManifestPolls S.told (S.shown store.old)
        (S.shown store.new) seen.now etag result }
    ensures reached { S.reaches store.old store.new }
{
    let mut bytes = Vec::new(alloc);
    let got = store.get(alloc, &ObjName::Manifest, etag, &mut bytes, MOST_BYTES);
    answered(alloc, got, &bytes, seen)
}

// What an answer of the store is, with the bytes that it left.
fn answered(alloc: Global, got: Got, bytes: &[u8], seen: &Seen) -> Polled
    ensures new { IfNew result (λ latest. FollowsSeen seen.now latest) }
    ensures answered { PollAnswered got bytes.now seen.now result }
{
    match got {
        Got::Found(etag) => accept(alloc, bytes, etag, seen),
        Got::Same => Polled::Same,
        Got::Missing => Polled::NoContainer,
        // Where longer bytes are at fault, by the grammar.
        Got::TooLong(_) => Polled::BadManifest {
            at: MOST_BYTES as u64,
        },
        Got::Failed => Polled::StoreFault,
        Got::NoMemory => Polled::NoMemory,
    }
}

// The manifest that the bytes are, where it follows what was seen.
fn accept(alloc: Global, bytes: &[u8], etag: u64, seen: &Seen) -> Polled
    ensures new { IfNew result (λ latest. FollowsSeen seen.now latest) }
    ensures accepts { PollAccepts (manifest_of bytes.now) etag seen.now result }
{
    let manifest = match read_manifest(alloc, bytes) {
        Ok(manifest) => manifest,
        Err(ReadFault::Bad(bad)) => return Polled::BadManifest { at: bad.at },
        Err(ReadFault::NoMemory) => return Polled::NoMemory,
    };
    match unlike(seen, &manifest) {
        Some(at) => Polled::BadManifest { at },
        None => Polled::New(Latest { manifest, etag }),
    }
}

// Where a manifest does not follow what was seen before.
fn unlike(seen: &Seen, manifest: &Manifest) -> Option<u64>
    ensures { result ≡ unlike_seen seen.now manifest.now }
{
    if manifest.number < seen.number {
        return Some(NUMBER_AT);
    }
    if is_other(seen.block, manifest.block) {
        return Some(BLOCK_AT);
    }
    None
}

// Whether a block size is another one than the known one.
fn is_other(known: Option<u32>, block: u32) -> bool
    ensures { result ≡ is_other known block }
{
    match known {
        Some(known) => known != block,
        None => false,
    }
}
