ghost use Rattle.std.specs.Prelude.{◌≡◌, false};
ghost use Rattle.bcv_keeprule.specs.Retention.{IsKeepRule};
ghost use Rattle.bcv_cleanup.specs.State.{IsRunning, is_ready};

use bcv_base::{Id16, ObjName, Seen, SetClock};
use bcv_cleanup::Cleanup;
use bcv_keeprule::{KeepRule, retention_passed};
use bcv_memstore::MemStore;
use bcv_publish::{PutEnd, Work};
use bcv_store::{Cond, Put, Store};
use std::alloc::{AllocError, Global};
use std::test::Fail;

const SEEN: Seen = Seen {
    block: None,
    number: 0,
};

fn id(number: u8) -> Id16 {
    Id16([number; 16])
}

// A first manifest that keeps dead blocks for 100 seconds, with three dead blocks of these stamps.
fn manifest_text(alloc: Global, stamps: [u64; 3]) -> Result<Vec<u8>, AllocError> {
    let mut text = Vec::from_slice(alloc, b"BCVMAN01")?;
    text.extend_from_slice(&1u64.to_be_bytes())?;
    text.extend_from_slice(&0u64.to_be_bytes())?;
    text.extend_from_slice(&512u32.to_be_bytes())?;
    text.extend_from_slice(&100u64.to_be_bytes())?;
    text.extend_from_slice(&id(3).0)?;
    text.extend_from_slice(&1u32.to_be_bytes())?;
    text.extend_from_slice(&id(1).0)?;
    text.extend_from_slice(&id(3).0)?;
    text.extend_from_slice(&1u64.to_be_bytes())?;
    text.extend_from_slice(&0u32.to_be_bytes())?;
    text.extend_from_slice(&3u32.to_be_bytes())?;
    let mut number = 10;
    for stamp in stamps {
        text.extend_from_slice(&id(number).0)?;
        text.extend_from_slice(&stamp.to_be_bytes())?;
        number = number.saturating_add(1);
    }
    Ok(text)
}

// A store with that manifest.
fn container(alloc: Global, stamps: [u64; 3]) -> Result<MemStore, Fail> {
    let text = manifest_text(alloc, stamps)?;
    let mut store = MemStore::new(alloc);
    let Put::Stored(_) = store.put(alloc, &ObjName::Manifest, Cond::Absent, &text) else {
        return Err(Fail::from("the manifest is stored"));
    };
    Ok(store)
}

// Makes a cleanup's requests up to its end.
fn run<F: Fn(u64, u64, u64) -> bool>(
    alloc: Global,
    cleanup: &mut Cleanup,
    store: &mut MemStore,
    clock: &mut SetClock,
    rule: &KeepRule<F>,
) -> Result<PutEnd, Work>
    requires running { IsRunning cleanup.old }
    requires rule { IsKeepRule (F.pre rule.now.rule) (F.post rule.now.rule) }
{
    for _ in 0..66 {
        if cleanup.ready() {
            let end = cleanup.put(alloc, store, 200);
            if end != PutEnd::Refused {
                return Ok(end);
            }
            continue;
        }
        let work = cleanup.work(alloc, store, clock, &SEEN, rule);
        if work != Work::More {
            return Err(work);
        }
    }
    Err(Work::More)
}

// How a cleanup at a moment ends, what it found, and how many entries the log has then.
fn ends<F: Fn(u64, u64, u64) -> bool>(
    alloc: Global,
    moment: u64,
    rule: &KeepRule<F>,
) -> Result<(Result<PutEnd, Work>, (u32, bool), usize), Fail>
    requires { IsKeepRule (F.pre rule.now.rule) (F.post rule.now.rule) }
{
    let mut store = container(alloc, [0, 5, 6])?;
    let mut clock = SetClock::new(moment);
    let mut cleanup = Cleanup::new(alloc, id(1), id(4));
    let end = run(alloc, &mut cleanup, &mut store, &mut clock, rule);
    Ok((end, cleanup.found(), store.log_len()))
}

#[test]
fn within_the_retention_and_past_it(rt: HostRuntime) -> Result<(), Fail> {
    let alloc = rt.alloc();
    let rule = KeepRule::new(retention_passed);
    assert_eq!(rt;
        ends(alloc, 99, &rule)?,
        (Err(Work::Nothing), (0, false), 1)
    );
    assert_eq!(rt;
        ends(alloc, 105, &rule)?,
        (Ok(PutEnd::Published(2)), (2, false), 4)
    );
    Ok(())
}

#[test]
fn a_rule_that_keeps_all(rt: HostRuntime) -> Result<(), Fail> {
    let alloc = rt.alloc();
    let rule = KeepRule::new(|_: u64, _: u64, _: u64| false);
    assert_eq!(rt;
        ends(alloc, u64::MAX, &rule)?,
        (Err(Work::Nothing), (0, false), 1)
    );
    Ok(())
}

// Two cleanups, of which one is cut in two by the other.
fn interleaved<F: Fn(u64, u64, u64) -> bool>(
    alloc: Global,
    first: &mut Cleanup,
    second: &mut Cleanup,
    store: &mut MemStore,
    rule: &KeepRule<F>,
) -> Option<(PutEnd, PutEnd)>
    requires first { IsRunning first.old }
    requires unread { is_ready first.old ≡ false }
    requires second { IsRunning second.old }
    requires rule { IsKeepRule (F.pre rule.now.rule) (F.post rule.now.rule) }
{
    let mut clock = SetClock::new(105);
    if first.work(alloc, store, &mut clock, &SEEN, rule) != Work::More {
        return None;
    }
    let earlier = run(alloc, second, store, &mut clock, rule).ok()?;
    let later = run(alloc, first, store, &mut clock, rule).ok()?;
    Some((earlier, later))
}

#[test]
fn two_at_once(rt: HostRuntime) -> Result<(), Fail> {
    let alloc = rt.alloc();
    let mut store = container(alloc, [0, 5, 6])?;
    let rule = KeepRule::new(retention_passed);
    let mut first = Cleanup::new(alloc, id(1), id(4));
    let mut second = Cleanup::new(alloc, id(2), id(5));
    let ends = interleaved(alloc, &mut first, &mut second, &mut store, &rule);
    assert_eq!(rt; ends, Some((PutEnd::Published(2), PutEnd::Published(3))));
    assert_eq!(rt; first.found(), (2, false));
    assert_eq!(rt; store.log_len(), 7);
    Ok(())
}
