//! The step of a poll.
ghost use Rattle.std.specs.Prelude.{◌≡◌, IsSome, MatchOption};
ghost use Rattle.bcv_base.specs.ManifestRules.{Ascends, MeetsRules, db_name};
ghost use Rattle.bcv_poller.specs.ManifestPoll.{IsPolledWithin};
ghost use Rattle.bcv_publisher.specs.PollStep.{
  IsReadForm,
  KeepsPolled,
  MayLearn,
  PollStep,
  TakesPoll,
  etag_in,
  seen_with,
};

use bcv_base::{Latest, Manifest, Seen};
use bcv_disk::Disk;
use bcv_ledger::Ledger;
use bcv_model::Reply;
use bcv_poller::{Polled, poll};
use bcv_store::Store;
use std::alloc::{AllocError, Global};

/// Polls the container: reads its manifest, unless it is still the one that was read last, and knows its databases then.
/// `Polled` answers its number, and keeps it in `latest`; every other answer leaves all as it was. A client calls it with what
/// it has seen of the container since it is up. Nothing is noted.
pub fn poll_step<D: Disk, S: Store>(
    alloc: Global,
    ledger: &mut Ledger<D>,
    store: &mut S,
    seen: &mut Seen,
    latest: &mut Option<Latest>,
) -> Reply
    requires form { IsReadForm seen.old latest.old }
    ensures reached { S.reaches store.old store.new }
    ensures polls { PollStep S.told (S.shown store.old) (S.shown store.new) ledger.old ledger.new
        seen.old seen.new latest.old latest.new result }
{
    let answer = poll(alloc, store, seen, etag_in(latest));
    take_poll(alloc, ledger, seen, latest, answer)
}

// The etag of the manifest that was read last.
fn etag_in(latest: &Option<Latest>) -> Option<u64>
    ensures { result ≡ etag_in latest.now }
{
    match latest {
        Some(latest) => Some(latest.etag),
        None => None,
    }
}

// What a poll's answer makes of a client.
fn take_poll<D: Disk>(
    alloc: Global,
    ledger: &mut Ledger<D>,
    seen: &mut Seen,
    latest: &mut Option<Latest>,
    answer: Polled,
) -> Reply
    requires form { IsReadForm seen.old latest.old }
    requires within { IsPolledWithin seen.old (etag_in latest.old) answer }
    ensures { TakesPoll ledger.old ledger.new seen.old seen.new latest.old latest.new
        answer result }
{
    match answer {
        Polled::Same => keep_on(alloc, ledger, seen, latest),
        Polled::New(read) => keep(alloc, ledger, seen, latest, read),
        Polled::NoContainer => Reply::NoContainer,
        Polled::BadManifest { at } => Reply::BadManifest { at },
        Polled::StoreFault => Reply::StoreFault,
        Polled::NoMemory => Reply::NoMemory,
    }
}

// The manifest that is kept is still the last one.
fn keep_on<D: Disk>(
    alloc: Global,
    ledger: &mut Ledger<D>,
    seen: &mut Seen,
    latest: &Option<Latest>,
) -> Reply
    requires form { IsReadForm seen.old latest.now }
    requires some { IsSome latest.now }
    ensures { MatchOption latest.now ⊥ (λ x.
        KeepsPolled ledger.old ledger.new seen.old seen.new latest.now latest.now x result) }
{
    let Some(latest) = latest else { unreachable!() };
    match learn(alloc, ledger, seen, &latest.manifest) {
        Ok(()) => Reply::Polled(latest.manifest.number),
        Err(_) => Reply::NoMemory,
    }
}

// This manifest is kept from now on.
fn keep<D: Disk>(
    alloc: Global,
    ledger: &mut Ledger<D>,
    seen: &mut Seen,
    latest: &mut Option<Latest>,
    read: Latest,
) -> Reply
    requires rules { MeetsRules read.manifest }
    ensures { KeepsPolled ledger.old ledger.new seen.old seen.new latest.old
        latest.new read result }
{
    if learn(alloc, ledger, seen, &read.manifest).is_err() {
        return Reply::NoMemory;
    }
    let number = read.manifest.number;
    *latest = Some(read);
    Reply::Polled(number)
}

// The databases of a manifest are known, and it is seen.
fn learn<D: Disk>(
    alloc: Global,
    ledger: &mut Ledger<D>,
    seen: &mut Seen,
    manifest: &Manifest,
) -> Result<(), AllocError>
    requires order { Ascends db_name manifest.now.dbs }
    ensures { MayLearn ledger.old ledger.new seen.old seen.new manifest.now result }
{
    ledger.poll(alloc, manifest)?;
    *seen = seen_with(seen, manifest);
    Ok(())
}

// What is seen once this manifest was read.
fn seen_with(seen: &Seen, manifest: &Manifest) -> Seen
    ensures { result ≡ seen_with seen.now manifest.now }
{
    Seen {
        block: Some(manifest.block),
        number: seen.number.max(manifest.number),
    }
}
