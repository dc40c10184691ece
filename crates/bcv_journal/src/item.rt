// One item is added: first after the closed gate, and then the gate is opened.
ghost use Rattle.std.specs.Prelude.{◌≡◌, ◌<◌, ◌≤◌, ◌+◌, ◌^◌, length};
ghost use Rattle.bcv_journal.specs.AddedItem.{DiskAdds};

use crate::area::Area;
use crate::keep::keep;
use crate::layout::behind_gate;
use bcv_disk::{Disk, DiskEnd};
use std::alloc::Global;

/// Adds an item at the tail, whose gate stands closed on the disk.
pub fn write_item<D: Disk>(alloc: Global, disk: &mut D, area: Area, item: &[u8]) -> DiskEnd
    requires from { D.told.tells → area.tail < length (D.shown disk.old).seen }
    requires some { 0 < length item.now }
    requires fits { area.tail + 6 + length item.now ≤ 2 ^ 31 }
    ensures { DiskAdds D.told (D.shown disk.old) (D.shown disk.new) area item.now result }
{
    let Ok(block) = behind_gate(alloc, item) else {
        return DiskEnd::NoMemory;
    };
    match keep(alloc, disk, area.tail + 1, &block) {
        DiskEnd::Done => keep(alloc, disk, area.tail, &[1]),
        DiskEnd::Failed => DiskEnd::Failed,
        DiskEnd::NoMemory => DiskEnd::NoMemory,
    }
}
