ghost use Rattle.std.specs.Prelude.{◌≡◌, ◌<◌, ◌≤◌, ◌^◌, None, length, IfOk, IfSome};
ghost use Rattle.bcv_disk.specs.Crash.{Only, Passes};
ghost use Rattle.bcv_disk.specs.DiskCalls.{DiskFails};
ghost use Rattle.bcv_disk.specs.Troubles.{counted};
ghost use Rattle.bcv_journal.specs.Loaded.{load_calls};
ghost use Rattle.bcv_journal.specs.LoadedItems.{ItemsLoad, PartLoads};

use crate::area::Area;
use crate::keep::keep;
use crate::layout::{EMPTY, read_items};
use crate::{Journal, JournalFault};
use bcv_disk::{Disk, DiskEnd, Size};
use std::alloc::{AllocError, Global};

/// The longest file that is a journal, in bytes.
const MOST: u64 = 1 << 31;

/// What a load gives: the journal with its items in order, or the disk back.
#[derive(Drop)]
pub enum Load<D: Disk> {
    Ready(Journal<D>, Vec<Vec<u8>>),
    Refused(D, JournalFault),
}

/// Makes a file of at most 18 bytes an empty journal.

fn load_short<D: Disk>(alloc: Global, disk: &mut D) -> Result<(Vec<Vec<u8>>, Area), JournalFault>
    requires { D.told.tells → length (D.shown disk.old).seen ≤ 18 }
    ensures { PartLoads D.told (D.shown disk.old) (D.shown disk.new) 2 result }
{
    match keep(alloc, disk, 0, &EMPTY) {
        DiskEnd::Done => Ok((Vec::new(alloc), Area::EMPTY)),
        DiskEnd::Failed => Err(JournalFault::DiskFault),
        DiskEnd::NoMemory => Err(JournalFault::NoMemory),
    }
}

/// The items of a file of this length.

fn load_long<D: Disk>(
    alloc: Global,
    disk: &mut D,
    size: u64,
) -> Result<(Vec<Vec<u8>>, Area), JournalFault>
    requires long { 18 < size }
    requires short { size ≤ 2 ^ 31 }
    requires length { D.told.tells → size ≡ length (D.shown disk.old).seen }
    ensures { PartLoads D.told (D.shown disk.old) (D.shown disk.new) 1 result }
{
    let Ok(mut bytes) = zeros(alloc, size as usize) else {
        return Err(JournalFault::NoMemory);
    };
    match disk.read(0, &mut bytes) {
        DiskEnd::Done => read_items(alloc, &bytes),
        DiskEnd::Failed => Err(JournalFault::DiskFault),
        DiskEnd::NoMemory => unreachable!(),
    }
}

/// So many bytes, to be read over.
fn zeros(alloc: Global, count: usize) -> Result<Vec<u8>, AllocError>
    ensures { IfOk result (λ v. length v.items ≡ count) }
{
    vec![in alloc; 0; count]
}

/// Syncs a disk, and tells its length, unless the disk fails.
fn synced_len<D: Disk>(disk: &mut D) -> Option<u64>
    ensures length { D.told.tells → IfSome result (λ n. n ≡ length (D.shown disk.old).seen) }
    ensures seen { D.told.tells → IfSome result (λ _. (D.shown disk.new).seen
        ≡ (D.shown disk.old).seen) }
    ensures durable { D.told.tells → IfSome result
        (λ _. Only (D.shown disk.old).seen (D.shown disk.new).may_leave) }
    ensures crash { D.told.tells → Passes (D.shown disk.old) (D.shown disk.new)
        (D.shown disk.old).may_leave }
    ensures fails { DiskFails D.told (D.shown disk.old) (D.shown disk.new) (result ≡ None) }
    ensures calls { D.told.troubled
        → IfSome result (λ _. (D.shown disk.new).trouble.calls
        ≡ counted (D.shown disk.old).trouble.calls 2) }
{
    match disk.sync() {
        DiskEnd::Done => {}
        DiskEnd::Failed => return None,
        DiskEnd::NoMemory => unreachable!(),
    }
    match disk.len() {
        Size::Len(size) => Some(size),
        Size::Failed => None,
    }
}

/// The items of a disk's file, and where they stand. A file of at most 18 bytes becomes an empty journal.

pub fn load_items<D: Disk>(
    alloc: Global,
    disk: &mut D,
) -> Result<(Vec<Vec<u8>>, Area), JournalFault>
    ensures { ItemsLoad D.told (D.shown disk.old) (D.shown disk.new)
        (load_calls (D.shown disk.old).seen) result }
{
    let Some(size) = synced_len(disk) else {
        return Err(JournalFault::DiskFault);
    };
    if size <= EMPTY.len() as u64 {
        load_short(alloc, disk)
    } else if size > MOST {
        Err(JournalFault::NotJournal(MOST))
    } else {
        load_long(alloc, disk, size)
    }
}
