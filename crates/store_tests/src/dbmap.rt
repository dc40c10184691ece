ghost use Rattle.std.specs.Prelude.{◌≡◌, ◌≤◌, ◌<◌, ◌^◌, IfOk, IfSome, length, true};
ghost use Rattle.std.specs.List.{AllByRecursion};
ghost use Rattle.bcv_base.specs.Ids.{IsId};
ghost use Rattle.bcv_base.specs.ManifestRules.{MeetsEntryRules};
ghost use Rattle.bcv_base.specs.Names.{is_name};
ghost use Rattle.bcv_dbmap.specs.Applied.{FitsPlan};
ghost use Rattle.store_tests.specs.Tried.{IsTried};

use bcv_base::{DbEntry, DbName, Dead, Id16, Manifest, Seq};
use bcv_dbmap::{EditFault, EditPlan, apply, check, first, listed};
use std::alloc::{AllocError, Global};
use std::test::*;

mod plain;

use plain::{Plain, Step, agrees};

const BLOCK: u32 = 1_024;

// An id that is not of zeros.
fn id_of(number: u32) -> Id16
    ensures { IsId result }
{
    let [a, b, c, d] = number.to_be_bytes();
    Id16([a, b, c, d, 0, 0, 0, 0, 0, 0, 0, 0, 0, 0, 0, 1])
}

// So many ids in a row.
fn ids_of(alloc: Global, from: u32, count: u32) -> Result<Vec<Id16>, AllocError>
    ensures ids { IfOk result (λ v. AllByRecursion IsId v.items) }
    ensures len { IfOk result (λ v. length v.items ≡ count) }
{
    let mut ids = Vec::with_capacity(alloc, count as usize)?;
    for number in 0..count {
        ids.push(id_of(from.wrapping_add(number)))?;
    }
    Ok(ids)
}

// A database of so many blocks, each of one page.
fn entry_of(alloc: Global, name: DbName, from: u32, count: u32) -> Option<DbEntry>
    requires { count ≤ 65536 }
    ensures { IfSome result (MeetsEntryRules 1024) }
{
    let _text = name.text();
    let blocks = match ids_of(alloc, from, count) {
        Ok(blocks) => blocks,
        Err(_) => return None,
    };
    Some(DbEntry {
        name,
        tag: id_of(0),
        page_size: BLOCK,
        pages: count,
        blocks: Seq::of(blocks),
    })
}

// The manifest behind a plan that passes, or `None`.
fn next(
    alloc: Global,
    m: &Manifest,
    plan: &EditPlan,
    id: u32,
    writer: u32,
    moment: u64,
) -> Option<Manifest>
    requires tried { IsTried m.now }
    requires fits { FitsPlan 1024 plan.now }
    ensures { IfSome result IsTried }
{
    let writer = id_of(writer);
    if check(m, plan, &writer).is_err() {
        return None;
    }
    match apply(alloc, m, plan, id_of(id), writer, moment) {
        Ok(applied) => Some(applied),
        Err(_) => None,
    }
}

// The first manifest that the tests edit.
fn begun(alloc: Global) -> Option<Manifest>
    ensures { IfSome result IsTried }
{
    match first(alloc, BLOCK, 100, id_of(0), id_of(0), 1) {
        Ok(manifest) => Some(manifest),
        Err(_) => None,
    }
}

// The name of a database: three letters for a number.
fn name_of(number: u32) -> Option<DbName> {
    let letters = [number / 676 % 26, number / 26 % 26, number % 26];
    let mut text = [b'a'; 3];
    for place in 0..3 {
        text[place] = b'a' + (letters[place] % 26) as u8;
    }
    DbName::read(&text)
}

fn with_new(
    alloc: Global,
    m: &Manifest,
    name: DbName,
    from: u32,
    count: u32,
    id: u32,
) -> Option<Manifest>
    requires tried { IsTried m.now }
    requires few { count ≤ 65536 }
    ensures { IfSome result IsTried }
{
    let plan = EditPlan::New(entry_of(alloc, name, from, count)?);
    next(alloc, m, &plan, id, 0, 1)
}

fn with_upload(
    alloc: Global,
    m: &Manifest,
    tag: Id16,
    name: DbName,
    from: u32,
    count: u32,
    id: u32,
    moment: u64,
) -> Option<Manifest>
    requires tried { IsTried m.now }
    requires few { count ≤ 65536 }
    ensures { IfSome result IsTried }
{
    let plan = EditPlan::Upload {
        from: tag,
        entry: entry_of(alloc, name, from, count)?,
    };
    next(alloc, m, &plan, id, 0, moment)
}

fn with_copy(alloc: Global, m: &Manifest, from: DbName, to: DbName, id: u32) -> Option<Manifest>
    requires { IsTried m.now }
    ensures { IfSome result IsTried }
{
    let _text = to.text();
    let plan = EditPlan::Copy { from, to };
    next(alloc, m, &plan, id, 0, 1)
}

fn without(alloc: Global, m: &Manifest, name: DbName, id: u32, moment: u64) -> Option<Manifest>
    requires { IsTried m.now }
    ensures { IfSome result IsTried }
{
    let plan = EditPlan::Remove { name };
    next(alloc, m, &plan, id, 0, moment)
}

fn swept(alloc: Global, m: &Manifest, ids: Vec<Id16>, id: u32, writer: u32) -> Option<Manifest>
    requires { IsTried m.now }
    ensures { IfSome result IsTried }
{
    let plan = EditPlan::Sweep { ids: Seq::of(ids) };
    next(alloc, m, &plan, id, writer, 1)
}

// Whether `check` answers the fault, or passes at `None`.
fn answers(m: &Manifest, plan: &EditPlan, writer: u32, want: Option<EditFault>) -> bool
    requires { IsTried m.now }
{
    match check(m, plan, &id_of(writer)) {
        Ok(()) => want.is_none(),
        Err(fault) => want == Some(fault),
    }
}

// A database whose blocks are still to be put.
fn asked(alloc: Global, name: DbName, page_size: u32, pages: u32) -> DbEntry {
    DbEntry {
        name,
        tag: id_of(0),
        page_size,
        pages,
        blocks: Seq::of(Vec::new(alloc)),
    }
}

// Whether the delete list has just these blocks.
fn are_dead(m: &Manifest, numbers: &[u32]) -> bool {
    let dead = m.dead.items();
    if dead.len() != numbers.len() {
        return false;
    }
    for (entry, number) in dead.iter().zip(numbers) {
        if !entry.id.same_as(&id_of(*number)) {
            return false;
        }
    }
    true
}

// Whether each dead block has the stamp.
fn are_stamped(m: &Manifest, stamp: u64) -> bool {
    m.dead.items().iter().all(|entry| entry.stamp == stamp)
}

// Whether the database at a place has the name and the tag.
fn is_tagged(m: &Manifest, place: usize, name: &DbName, tag: u32) -> bool {
    match m.dbs.items().get(place) {
        Some(db) => db.name.same_as(name) && db.tag.same_as(&id_of(tag)),
        None => false,
    }
}

#[test]
fn copied_blocks_stay(rt: HostRuntime) -> Result<(), Fail> {
    let alloc = rt.alloc();
    let a = name_of(0).ok_or("a name")?;
    let b = name_of(1).ok_or("a name")?;
    let m = begun(alloc).ok_or("first")?;
    let m = with_new(alloc, &m, a, 10, 3, 1).ok_or("new")?;
    let m = with_copy(alloc, &m, a, b, 2).ok_or("copy")?;
    assert!(rt; is_tagged(&m, 0, &a, 1));
    assert!(rt; is_tagged(&m, 1, &b, 2));
    let m = without(alloc, &m, a, 3, 7).ok_or("remove")?;
    assert!(rt; are_dead(&m, &[]));
    assert!(rt; listed(&m, &id_of(12)));
    let m = without(alloc, &m, b, 4, 5).ok_or("remove")?;
    assert!(rt; are_dead(&m, &[10, 11, 12]));
    assert!(rt; are_stamped(&m, 7));
    assert!(rt; !listed(&m, &id_of(12)));
    assert_eq!(rt; m.number, 5);
    Ok(())
}

#[test]
fn replaced_blocks_die(rt: HostRuntime) -> Result<(), Fail> {
    let alloc = rt.alloc();
    let a = name_of(0).ok_or("a name")?;
    let m = begun(alloc).ok_or("first")?;
    let m = with_new(alloc, &m, a, 10, 4, 1).ok_or("new")?;
    let m = with_upload(alloc, &m, id_of(1), a, 13, 3, 2, 9).ok_or("upload")?;
    assert!(rt; are_dead(&m, &[10, 11, 12]));
    assert!(rt; is_tagged(&m, 0, &a, 2));
    let ids = ids_of(alloc, 11, 1).ok().ok_or("ids")?;
    let m = swept(alloc, &m, ids, 3, 0).ok_or("sweep")?;
    assert!(rt; are_dead(&m, &[10, 12]));
    assert!(rt; are_stamped(&m, 9));
    Ok(())
}

// A manifest of so many databases with no block.
fn of_databases(alloc: Global, count: u32) -> Option<Manifest>
    ensures { IfSome result IsTried }
{
    let mut m = begun(alloc)?;
    for number in 0..count {
        m = with_new(alloc, &m, name_of(number)?, 0, 0, number)?;
    }
    Some(m)
}

#[test]
fn tests_of_databases(rt: HostRuntime) -> Result<(), Fail> {
    let alloc = rt.alloc();
    let there = name_of(0).ok_or("a name")?;
    let last = name_of(1_023).ok_or("a name")?;
    let more = name_of(1_024).ok_or("a name")?;
    let m = of_databases(alloc, 1_023).ok_or("databases")?;
    let new = EditPlan::New(asked(alloc, last, BLOCK, 0));
    assert!(rt; answers(&m, &new, 0, None));
    let copy = EditPlan::Copy {
        from: there,
        to: last,
    };
    assert!(rt; answers(&m, &copy, 0, None));
    let m = with_new(alloc, &m, last, 0, 0, 1_024).ok_or("one more")?;
    assert!(rt; answers(&m, &new, 0, Some(EditFault::Exists)));
    assert!(rt; answers(&m, &copy, 0, Some(EditFault::Exists)));
    let new = EditPlan::New(asked(alloc, more, BLOCK, 0));
    assert!(rt; answers(&m, &new, 0, Some(EditFault::TooManyDatabases)));
    let copy = EditPlan::Copy {
        from: there,
        to: more,
    };
    assert!(rt; answers(&m, &copy, 0, Some(EditFault::TooManyDatabases)));
    let copy = EditPlan::Copy {
        from: more,
        to: there,
    };
    assert!(rt; answers(&m, &copy, 0, Some(EditFault::NoDatabase)));
    let remove = EditPlan::Remove { name: more };
    assert!(rt; answers(&m, &remove, 0, Some(EditFault::NoDatabase)));
    Ok(())
}

#[test]
fn tests_of_an_entry(rt: HostRuntime) -> Result<(), Fail> {
    let alloc = rt.alloc();
    let a = name_of(0).ok_or("a name")?;
    let b = name_of(1).ok_or("a name")?;
    let m = begun(alloc).ok_or("first")?;
    let m = with_new(alloc, &m, a, 10, 1, 1).ok_or("new")?;
    let new = EditPlan::New(asked(alloc, b, BLOCK, 65_536));
    assert!(rt; answers(&m, &new, 0, None));
    let new = EditPlan::New(asked(alloc, b, BLOCK, 65_537));
    assert!(rt; answers(&m, &new, 0, Some(EditFault::TooLarge)));
    let new = EditPlan::New(asked(alloc, b, 512, 131_071));
    assert!(rt; answers(&m, &new, 0, None));
    let new = EditPlan::New(asked(alloc, b, 512, 131_073));
    assert!(rt; answers(&m, &new, 0, Some(EditFault::TooLarge)));
    let new = EditPlan::New(asked(alloc, b, 2_048, 65_537));
    assert!(rt; answers(&m, &new, 0, Some(EditFault::PageTooLarge)));
    let upload = EditPlan::Upload {
        from: id_of(1),
        entry: asked(alloc, a, BLOCK, 1),
    };
    assert!(rt; answers(&m, &upload, 0, None));
    let upload = EditPlan::Upload {
        from: id_of(5),
        entry: asked(alloc, a, BLOCK, 1),
    };
    let fault = EditFault::Conflict {
        mine: id_of(5),
        theirs: id_of(1),
    };
    assert!(rt; answers(&m, &upload, 0, Some(fault)));
    let upload = EditPlan::Upload {
        from: id_of(1),
        entry: asked(alloc, b, BLOCK, 1),
    };
    assert!(rt; answers(&m, &upload, 0, Some(EditFault::NoDatabase)));
    Ok(())
}

// A manifest of a number, with nothing in it.
fn numbered(alloc: Global, number: u64) -> Manifest
    requires { 1 ≤ number }
    ensures { IsTried result }
{
    Manifest {
        number,
        moment: 0,
        block: BLOCK,
        retention: 0,
        id: id_of(0),
        writers: Seq::of(Vec::new(alloc)),
        dbs: Seq::of(Vec::new(alloc)),
        dead: Seq::of(Vec::new(alloc)),
    }
}

#[test]
fn test_of_the_number(rt: HostRuntime) -> Result<(), Fail> {
    let alloc = rt.alloc();
    let sweep = EditPlan::Sweep {
        ids: Seq::of(Vec::new(alloc)),
    };
    let remove = EditPlan::Remove {
        name: name_of(0).ok_or("a name")?,
    };
    let m = numbered(alloc, u64::MAX - 1);
    assert!(rt; answers(&m, &sweep, 0, None));
    assert!(rt; answers(&m, &remove, 0, Some(EditFault::NoDatabase)));
    let m = numbered(alloc, u64::MAX);
    assert!(rt; answers(&m, &sweep, 0, Some(EditFault::VersionsFull)));
    assert!(rt; answers(&m, &remove, 0, Some(EditFault::VersionsFull)));
    Ok(())
}

// A manifest of so many writers and one.
fn of_writers(alloc: Global, count: u32) -> Option<Manifest>
    ensures { IfSome result IsTried }
{
    let mut m = begun(alloc)?;
    for number in 0..count {
        m = swept(alloc, &m, Vec::new(alloc), number, number)?;
    }
    Some(m)
}

#[test]
fn test_of_the_writers(rt: HostRuntime) -> Result<(), Fail> {
    let alloc = rt.alloc();
    let sweep = EditPlan::Sweep {
        ids: Seq::of(Vec::new(alloc)),
    };
    let m = of_writers(alloc, 4_095).ok_or("writers")?;
    assert_eq!(rt; m.writers.items().len(), 4_095);
    assert!(rt; answers(&m, &sweep, 4_095, None));
    let m = swept(alloc, &m, Vec::new(alloc), 4_095, 4_095).ok_or("one more")?;
    assert!(rt; answers(&m, &sweep, 4_095, None));
    assert!(rt; answers(&m, &sweep, 4_096, Some(EditFault::WritersFull)));
    Ok(())
}

// A manifest of one database of 65,536 blocks, and of 16 times as many dead blocks.
fn of_dead(alloc: Global, name: DbName) -> Option<Manifest>
    ensures { IfSome result IsTried }
{
    let m = begun(alloc)?;
    let mut m = with_new(alloc, &m, name, 0, 65_536, 0)?;
    for number in 0..16u32 {
        m = with_upload(
            alloc,
            &m,
            id_of(number),
            name,
            (number + 1) * 65_536,
            65_536,
            number + 1,
            5,
        )?;
    }
    Some(m)
}

#[test]
fn test_of_the_delete_list(rt: HostRuntime) -> Result<(), Fail> {
    let alloc = rt.alloc();
    let a = name_of(0).ok_or("a name")?;
    let m = of_dead(alloc, a).ok_or("dead blocks")?;
    assert_eq!(rt; m.dead.items().len(), 1_048_576);
    let same = entry_of(alloc, a, 1_048_576, 65_536).ok_or("an entry")?;
    let same = EditPlan::Upload {
        from: id_of(16),
        entry: same,
    };
    assert!(rt; answers(&m, &same, 0, None));
    let other = entry_of(alloc, a, 1_048_577, 65_536).ok_or("an entry")?;
    let other = EditPlan::Upload {
        from: id_of(16),
        entry: other,
    };
    assert!(rt; answers(&m, &other, 0, Some(EditFault::DeleteListFull)));
    let ids = ids_of(alloc, 7, 1).ok().ok_or("ids")?;
    let m = swept(alloc, &m, ids, 17, 0).ok_or("sweep")?;
    assert!(rt; answers(&m, &other, 0, None));
    let remove = EditPlan::Remove { name: a };
    assert!(rt; answers(&m, &remove, 0, Some(EditFault::DeleteListFull)));
    Ok(())
}

// A manifest of so many databases of 65,536 blocks.
fn of_blocks(alloc: Global, count: u32) -> Option<Manifest>
    ensures { IfSome result IsTried }
{
    let mut m = begun(alloc)?;
    for number in 0..count {
        m = with_new(
            alloc,
            &m,
            name_of(number)?,
            number.wrapping_mul(65_536),
            65_536,
            number,
        )?;
    }
    Some(m)
}

#[test]
fn test_of_the_length(rt: HostRuntime) -> Result<(), Fail> {
    let alloc = rt.alloc();
    let m = of_blocks(alloc, 63).ok_or("databases")?;
    // 64 and 40 bytes, 63 entries of 1,048,604, and one of 25, its name and 65,417 ids: 67,108,864.
    let met = DbName::read(b"elevenbytes").ok_or("a name")?;
    let missed = DbName::read(b"twelve_bytes").ok_or("a name")?;
    let new = EditPlan::New(asked(alloc, met, BLOCK, 65_417));
    assert!(rt; answers(&m, &new, 0, None));
    let new = EditPlan::New(asked(alloc, missed, BLOCK, 65_417));
    assert!(rt; answers(&m, &new, 0, Some(EditFault::ManifestTooLong)));
    let new = EditPlan::New(asked(alloc, met, BLOCK, 65_418));
    assert!(rt; answers(&m, &new, 0, Some(EditFault::ManifestTooLong)));
    Ok(())
}

// The manifest behind a step of the plain rows, or `None` where it is refused.
fn stepped(alloc: Global, m: &Manifest, step: Step, tag: u32) -> Option<Manifest>
    requires tried { IsTried m.now }
    requires few { step.count ≤ 65536 }
    ensures { IfSome result IsTried }
{
    let name = name_of((step.place % 3) as u32)?;
    let other = name_of((step.other % 3) as u32)?;
    let id = step.number;
    match step.kind {
        0 => with_new(alloc, m, name, step.from, step.count, id),
        1 => with_upload(
            alloc,
            m,
            id_of(tag),
            name,
            step.from,
            step.count,
            id,
            u64::from(id),
        ),
        2 => with_copy(alloc, m, name, other, id),
        3 => without(alloc, m, name, id, u64::from(id)),
        _ => match ids_of(alloc, step.from, step.count) {
            Ok(ids) => swept(alloc, m, ids, id, 0),
            Err(_) => None,
        },
    }
}

// A step that a number tells: over fresh blocks, or over some of those that are there.
fn step_of(plain: &Plain, drawn: u32, number: u32) -> Step
    ensures { result.count ≤ 65536 }
{
    let place = (drawn / 5 % 3) as usize;
    let from = if drawn / 45 % 2 == 0 {
        number.wrapping_mul(8)
    } else {
        plain.from(place).wrapping_add(2)
    };
    Step {
        kind: drawn % 5,
        place,
        other: (drawn / 15 % 3) as usize,
        from,
        count: drawn / 90 % 7,
        number,
    }
}

// Whether 200 edits that a seed tells leave the manifest and the plain rows alike, each of them.
fn run_agrees(alloc: Global, seed: u32) -> bool {
    let mut plain = match Plain::new(alloc, 2_048) {
        Ok(plain) => plain,
        Err(_) => return false,
    };
    let Some(mut m) = begun(alloc) else {
        return false;
    };
    let mut drawn = seed;
    for number in 1..=200 {
        drawn = drawn.wrapping_mul(1_664_525).wrapping_add(1_013_904_223);
        let step = step_of(&plain, drawn / 65_536, number);
        let made = stepped(alloc, &m, step, plain.tag(step.place));
        let allowed = plain.edit(step);
        match made {
            Some(edited) => m = edited,
            None => {
                if allowed {
                    return false;
                }
                continue;
            }
        }
        if !allowed || !agrees(&m, &plain) {
            return false;
        }
    }
    true
}

#[test]
fn edits_at_random(rt: HostRuntime) {
    for seed in 0..20u32 {
        assert!(rt; run_agrees(rt.alloc(), seed), "of seed {seed}");
    }
}
