//! One read of a container's manifest.
ghost use Rattle.std.specs.Prelude.{◌≡◌, ◌≢◌, IfOk};
ghost use Rattle.bcv_base.specs.ManifestGrammar.{manifest_of};
ghost use Rattle.bcv_publish.specs.ManifestRead.{
  Accepts,
  IsTaken,
  ManifestReads,
  ReadAnswered,
  is_other,
  is_past,
  unlike,
};

use crate::publish::Publish;
use crate::unread::Unread;
use bcv_base::{Latest, Manifest, ObjName, Seen};
use bcv_manifest::{ReadFault, read_manifest};
use bcv_store::{Got, Store};
use std::alloc::Global;

const MOST_BYTES: usize = 67_108_864;

// Where a manifest has its number and its block size, in bytes.
const NUMBER_AT: u64 = 8;

const BLOCK_AT: u64 = 24;

impl Publish {
    /// Reads the manifest by one get, and compares it with what was seen of the container.
    pub(crate) fn read<S: Store>(
        &self,
        alloc: Global,
        store: &mut S,
        seen: &Seen,
    ) -> Result<Latest, Unread>
        ensures taken { IfOk result (λ latest. IsTaken self.now seen.now latest) }
        ensures reads { ManifestReads S.told (S.shown store.old)
            (S.shown store.new) seen.now self.now result }
        ensures reached { S.reaches store.old store.new }
    {
        let mut bytes = Vec::new(alloc);
        let got = store.get(alloc, &ObjName::Manifest, None, &mut bytes, MOST_BYTES);
        self.read_answer(alloc, got, &bytes, seen)
    }

    // What an answer of the store is, with the bytes that it left.
    fn read_answer(
        &self,
        alloc: Global,
        got: Got,
        bytes: &[u8],
        seen: &Seen,
    ) -> Result<Latest, Unread>
        requires { got ≢ Got.Same }
        ensures taken { IfOk result (λ latest. IsTaken self.now seen.now latest) }
        ensures answered { ReadAnswered got bytes.now seen.now self.now result }
    {
        match got {
            Got::Found(etag) => self.accept(alloc, bytes, etag, seen),
            Got::Same => unreachable!(),
            Got::Missing => Err(Unread::Missing),
            // Where longer bytes are at fault, by the grammar.
            Got::TooLong(_) => Err(Unread::Bad {
                at: MOST_BYTES as u64,
            }),
            Got::Failed => Err(Unread::Failed),
            Got::NoMemory => Err(Unread::NoMemory),
        }
    }

    // The manifest that the bytes are, where it follows what was seen.
    fn accept(&self, alloc: Global, bytes: &[u8], etag: u64, seen: &Seen) -> Result<Latest, Unread>
        ensures taken { IfOk result (λ latest. IsTaken self.now seen.now latest) }
        ensures accepts { Accepts (manifest_of bytes.now) etag seen.now self.now result }
    {
        let manifest = match read_manifest(alloc, bytes) {
            Ok(manifest) => manifest,
            Err(ReadFault::Bad(bad)) => return Err(Unread::Bad { at: bad.at }),
            Err(ReadFault::NoMemory) => return Err(Unread::NoMemory),
        };
        match self.unlike(seen, &manifest) {
            Some(at) => Err(Unread::Bad { at }),
            None => Ok(Latest { manifest, etag }),
        }
    }

    // Where a manifest does not follow what was seen before.
    fn unlike(&self, seen: &Seen, manifest: &Manifest) -> Option<u64>
        ensures { result ≡ unlike self.now seen.now manifest.now }
    {
        let number = manifest.number;
        if number < seen.number || is_past(self.refused.last(), number) {
            return Some(NUMBER_AT);
        }
        if is_other(seen.block, manifest.block) || is_other(self.block, manifest.block) {
            return Some(BLOCK_AT);
        }
        None
    }
}

// Whether a number is not above an earlier one.
fn is_past(earlier: Option<u64>, number: u64) -> bool
    ensures { result ≡ is_past earlier number }
{
    match earlier {
        Some(earlier) => number <= earlier,
        None => false,
    }
}

// Whether a block size is another one than the known one.
fn is_other(known: Option<u32>, block: u32) -> bool
    ensures { result ≡ is_other known block }
{
    match known {
        Some(known) => known != block,
        None => false,
    }
}
