// A write that is kept: on the disk before the next one begins.
ghost use Rattle.std.specs.Prelude.{◌≡◌, ◌≤◌, ◌+◌, ◌^◌, length};
ghost use Rattle.bcv_journal.specs.KeptWrite.{DiskKeeps};

use bcv_disk::{Disk, DiskEnd};
use std::alloc::Global;

/// Writes, and syncs what was written.
pub fn keep<D: Disk>(alloc: Global, disk: &mut D, at: u64, bytes: &[u8]) -> DiskEnd
    requires from { D.told.tells → at ≤ length (D.shown disk.old).seen }
    requires fits { at + length bytes.now ≤ 2 ^ 32 }
    ensures { DiskKeeps D.told (D.shown disk.old) (D.shown disk.new) at bytes.now result }
{
    match disk.write_at(alloc, at, bytes) {
        DiskEnd::Done => disk.sync(),
        DiskEnd::Failed => DiskEnd::Failed,
        DiskEnd::NoMemory => DiskEnd::NoMemory,
    }
}
