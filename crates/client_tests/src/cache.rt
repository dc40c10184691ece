ghost use Rattle.std.specs.Prelude.{◌≡◌, None};
ghost use Rattle.bcv_cache.specs.Cache.{slot_of, KeepsPinned};

use bcv_base::Id16;
use bcv_cache::{BlockCache, Slot};
use std::alloc::Global;
use std::process::Abort;
use std::test::*;

// A row of a plain list, the most recently found or filled first.
#[derive(Clone, Copy, Debug, PartialEq, Eq)]
struct Row {
    name: u16,
    slot: Slot,
    pinned: bool,
}

fn id(name: u16) -> Id16 {
    let [high, low] = name.to_be_bytes();
    Id16([high, low, 0, 0, 0, 0, 0, 0, 0, 0, 0, 0, 0, 0, 0, 0])
}

fn find_row(rows: &mut [Row], name: u16) -> Option<Slot> {
    let at = rows.iter().position(|row| row.name == name)?;
    let front = &mut rows[..at + 1];
    front.rotate_right(1);
    Some(front[0].slot)
}

// Fills a block and a row, unless the block is there or no room is left.
fn fill_row(
    rt: &impl Abort,
    alloc: Global,
    cache: &mut BlockCache,
    rows: &mut Vec<Row>,
    most: usize,
    name: u16,
) -> Result<(), Fail>
    requires block { cache.old.block ≡ 2 }
    ensures block { cache.new.block ≡ 2 }
    ensures pinned_stay { KeepsPinned cache.old.entries cache.new.entries }
{
    let wanted = id(name);
    if cache.find(&wanted).is_some() {
        return Ok(());
    }
    let unpinned = rows.iter().rposition(|row| !row.pinned);
    let room = cache.room();
    assert_eq!(rt;
        room,
        rows.len() < most || unpinned.is_some(),
        "room for {name}"
    );
    if !room {
        return Ok(());
    }
    let bytes = vec![in alloc; 0; 2]?;
    let slot = cache.fill(alloc, wanted, bytes).expect(rt, "memory");
    if rows.len() == most {
        let old = rows.remove(unpinned.expect(rt, "a row that goes"));
        assert_eq!(rt; slot, old.slot, "the slot of {name}");
    }
    assert!(rt;
        rows.iter().all(|row| row.slot != slot),
        "a slot of its own for {name}"
    );
    rows.insert(
        0,
        Row {
            name,
            slot,
            pinned: false,
        },
    )?;
    Ok(())
}

// Finds and fills by a fixed sequence of names.
fn walk(
    rt: &impl Abort,
    alloc: Global,
    cache: &mut BlockCache,
    rows: &mut Vec<Row>,
    most: usize,
    names: u32,
    steps: u32,
) -> Result<(), Fail>
    requires block { cache.old.block ≡ 2 }
    ensures block { cache.new.block ≡ 2 }
    ensures pinned_stay { KeepsPinned cache.old.entries cache.new.entries }
{
    let mut seed: u32 = 1;
    for step in 0..steps {
        seed = seed.wrapping_mul(1_103_515_245).wrapping_add(12_345);
        let name = ((seed >> 16) % names.max(1)) as u16;
        let slot = cache.find(&id(name));
        assert_eq!(rt; slot, find_row(rows, name), "find of {name} in step {step}");
        fill_row(rt, alloc, cache, rows, most, name)?;
    }
    Ok(())
}

#[test]
fn calls_follow_a_plain_list(rt: HostRuntime) -> Result<(), Fail> {
    let alloc = rt.alloc();
    for (most, names, steps) in [
        (1, 3, 1_000),
        (2, 9, 1_000),
        (5, 9, 1_000),
        (1_024, 1_500, 4_000),
    ] {
        let mut rows = Vec::new(alloc);
        let mut cache = BlockCache::new(alloc, most, 2)?;
        fill_row(&rt, alloc, &mut cache, &mut rows, most as usize, 0)?;
        walk(
            &rt,
            alloc,
            &mut cache,
            &mut rows,
            most as usize,
            names,
            steps,
        )?;
    }
    Ok(())
}

// Fills one block, pins it, and walks.
fn pin_and_walk(rt: &impl Abort, alloc: Global, most: u16) -> Result<(), Fail> {
    let mut rows = Vec::new(alloc);
    let mut cache = BlockCache::new(alloc, most, 2)?;
    let wanted = id(500);
    assert_eq!(rt; cache.find(&wanted), None);
    let bytes = vec![in alloc; 77; 2]?;
    assert!(rt; cache.room());
    let slot = cache.fill(alloc, wanted, bytes).expect(rt, "memory");
    rows.push(Row {
        name: 500,
        slot,
        pinned: true,
    })?;
    let pin = cache.pin(slot);
    let walked = walk(rt, alloc, &mut cache, &mut rows, most as usize, 9, 1_000);
    assert!(rt; cache.bytes(&pin) == [77, 77].as_slice());
    assert!(rt; cache.lend(slot) == [77, 77].as_slice());
    cache.unpin(pin);
    assert!(rt; cache.room());
    walked
}

#[test]
fn a_pinned_block_stays(rt: HostRuntime) -> Result<(), Fail> {
    for most in [1, 2, 5] {
        pin_and_walk(&rt, rt.alloc(), most)?;
    }
    Ok(())
}
