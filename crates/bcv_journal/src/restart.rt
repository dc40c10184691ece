// The two parts of a restart: the given items are laid beside the old ones, and then the selector chooses them.
ghost use Rattle.std.specs.Prelude.{◌≡◌, ◌⊎◌, ◌<◌, ◌≤◌, ◌+◌, ◌-◌, ◌^◌, length};
ghost use Rattle.bcv_journal.specs.Moved.{DiskChooses, DiskLays, DiskMoves, IsApart, new_start};

use crate::area::Area;
use crate::keep::keep;
use crate::layout::{SELECTOR, selector, start_field};
use bcv_disk::{Disk, DiskEnd};
use std::alloc::Global;

/// Where an area with its closed gate goes: before the old one where there is room, else after it.
pub fn place_for(block: &[u8], area: Area) -> u64
    requires some { 0 < length block.now }
    requires low { 17 ≤ area.start }
    requires order { area.start ≤ area.tail }
    requires short { area.tail < 2 ^ 31 }
    requires room { (17 + length block.now ≤ area.start)
        ⊎ (area.tail + 66 + (length block.now - 1) ≤ 2 ^ 31) }
    ensures place { result ≡ new_start (length block.now - 1) area.start area.tail }
    ensures apart { IsApart area result (length block.now) }
{
    if block.len() as u64 <= area.start - 17 {
        17
    } else {
        area.tail + 1
    }
}

/// Writes an area at this start, and the start into the field that is not chosen.
fn lay<D: Disk>(alloc: Global, disk: &mut D, area: Area, start: u64, block: &[u8]) -> DiskEnd
    requires from { D.told.tells → area.tail < length (D.shown disk.old).seen }
    requires apart { IsApart area start (length block.now) }
    ensures { DiskLays D.told (D.shown disk.old) (D.shown disk.new) area start block.now result }
{
    match disk.write_at(alloc, start, block) {
        DiskEnd::Done => {}
        DiskEnd::Failed => return DiskEnd::Failed,
        DiskEnd::NoMemory => return DiskEnd::NoMemory,
    }
    let field = (start as u32).to_be_bytes();
    match keep(alloc, disk, start_field(!area.second), &field) {
        DiskEnd::Done => DiskEnd::Done,
        DiskEnd::Failed => DiskEnd::Failed,
        DiskEnd::NoMemory => match disk.sync() {
            DiskEnd::Done => DiskEnd::NoMemory,
            DiskEnd::Failed => DiskEnd::Failed,
            DiskEnd::NoMemory => unreachable!(),
        },
    }
}

/// Chooses the start that is not chosen.
fn choose<D: Disk>(alloc: Global, disk: &mut D, area: Area) -> DiskEnd
    requires { D.told.tells → 17 ≤ length (D.shown disk.old).seen }
    ensures { DiskChooses D.told (D.shown disk.old) (D.shown disk.new) area result }
{
    keep(alloc, disk, SELECTOR, &[selector(!area.second)])
}

/// Lays an area at this start, and then chooses it.
pub fn replace<D: Disk>(
    alloc: Global,
    disk: &mut D,
    area: Area,
    start: u64,
    block: &[u8],
) -> DiskEnd
    requires from { D.told.tells → area.tail < length (D.shown disk.old).seen }
    requires apart { IsApart area start (length block.now) }
    ensures { DiskMoves D.told (D.shown disk.old) (D.shown disk.new) area start block.now result }
{
    match lay(alloc, disk, area, start, block) {
        DiskEnd::Done => choose(alloc, disk, area),
        DiskEnd::Failed => DiskEnd::Failed,
        DiskEnd::NoMemory => DiskEnd::NoMemory,
    }
}
