ghost use Rattle.std.specs.Prelude.{◌≡◌, ◌<◌, ◌≤◌, ◌+◌, ℕ, length, IfSome};
ghost use Rattle.bcv_dbmap.specs.Applied.{FitsPlan};

use bcv_base::{CountNames, Id16, ObjName, Seen, Seq};
use bcv_dbmap::EditPlan;
use bcv_publish::{BlockEnd, Created, Publish, PutEnd, Resolved, Work, create, put_named, resolve};
use bcv_store::{Cond, Del, Got, Listed, Put, Store};
use std::alloc::Global;
use std::test::Fail;

// The first manifest of a container with blocks of 1,024 bytes.
const FIRST: [u8; 104] = [
    0x42, 0x43, 0x56, 0x4d, 0x41, 0x4e, 0x30, 0x31, 0, 0, 0, 0, 0, 0, 0, 1, 0, 0, 0, 0, 0, 0, 0, 0,
    0, 0, 4, 0, 0, 0, 0, 0, 0, 0, 0, 100, 0, 0, 0, 0, 0, 0, 0, 0, 0, 0, 0, 0, 0, 0, 0, 3, 0, 0, 0,
    1, 0, 0, 0, 0, 0, 0, 0, 0, 0, 0, 0, 0, 0, 0, 0, 1, 0, 0, 0, 0, 0, 0, 0, 0, 0, 0, 0, 0, 0, 0, 0,
    3, 0, 0, 0, 0, 0, 0, 0, 1, 0, 0, 0, 0, 0, 0, 0, 0,
];

const SEEN: Seen = Seen {
    block: None,
    number: 0,
};

// A store of one object, whatever its name, with the number of its puts as its etag. It tells nothing. A put that is to
// fail has its effect.
#[derive(Drop)]
struct OneObject {
    bytes: Vec<u8>,
    etag: u64,
    fails: bool,
    faults: u64,
}

impl Store for OneObject {
    ghost use Rattle.std.specs.Prelude.{◌≤◌, []};
    ghost use Rattle.std.proofs.Common.{arith};
    ghost use Rattle.bcv_store.specs.StoreShown.{StoreShown};

    ghost told = { record { tells = ⊥; alone = ⊥; plans = ⊥ } };

    ghost shown = { λ store. record { log = []; plan = []; faults = store.faults } };

    ghost reaches = { λ old new. old.faults ≤ new.faults };

    fn get(
        &mut self,
        alloc: Global,
        name: &ObjName,
        unless: Option<u64>,
        into: &mut Vec<u8>,
        most: usize,
    ) -> Got {
        let _ = alloc;
        let _ = name;
        into.clear();
        if unless == Some(self.etag) {
            return Got::Same;
        }
        if self.etag == 0 {
            return Got::Missing;
        }
        if self.bytes.len() > most {
            return Got::TooLong(self.bytes.len() as u64);
        }
        match into.extend_from_slice(&self.bytes) {
            Ok(()) => Got::Found(self.etag),
            Err(_) => Got::NoMemory,
        }
    }

    fn put(&mut self, alloc: Global, name: &ObjName, cond: Cond, bytes: &[u8]) -> Put {
        let _ = name;
        let holds = match cond {
            Cond::Absent => self.etag == 0,
            Cond::Match(etag) => self.etag == etag,
        };
        if !holds {
            return Put::Refused;
        }
        self.bytes = match Vec::from_slice(alloc, bytes) {
            Ok(bytes) => bytes,
            Err(_) => return Put::NoMemory,
        };
        self.etag = self.etag.wrapping_add(1);
        if self.fails {
            self.faults = self.faults.saturating_add(1);
            return Put::Failed;
        }
        Put::Stored(self.etag)
    }

    fn delete(&mut self, alloc: Global, name: &ObjName, at: u64) -> Del {
        let _ = alloc;
        let _ = name;
        let _ = at;
        Del::NoMemory
    }

    fn list(&mut self, alloc: Global, after: Option<&Id16>, into: &mut Vec<Id16>) -> Listed {
        let _ = alloc;
        let _ = after;
        into.clear();
        Listed::NoMemory
    }

    ghost rising = { λ store told. absurd told };

    ghost same = { λ store. omega arith };

    ghost through = { λ first second third earlier later. omega (arith, earlier, later) };

    ghost counted = { λ old new reached. reached };
}

fn id(number: u8) -> Id16 {
    Id16([number; 16])
}

// A plan that changes nothing but the manifest's head.
fn sweep_of_none(alloc: Global) -> EditPlan
    ensures { (block : ℕ) → FitsPlan block result }
{
    EditPlan::Sweep {
        ids: Seq::of(Vec::new(alloc)),
    }
}

// A get and a put; `None` where the get ends otherwise than with `More`.
fn publish(
    publication: &mut Publish,
    alloc: Global,
    store: &mut OneObject,
    plan: &EditPlan,
) -> Option<PutEnd>
    requires fits { (block : ℕ) → FitsPlan block plan.now }
    requires few { length publication.old.refused < 8 }
{
    match publication.get(alloc, store, &SEEN, plan) {
        Work::More => Some(publication.put(alloc, store, plan, 7)),
        _ => None,
    }
}

// A get and a put, between which another publication comes in.
fn late(
    publication: &mut Publish,
    alloc: Global,
    store: &mut OneObject,
    plan: &EditPlan,
) -> Option<PutEnd>
    requires fits { (block : ℕ) → FitsPlan block plan.now }
    requires few { length publication.old.refused < 8 }
    ensures { IfSome result (λ end. end ≡ PutEnd.Refused → length publication.new.refused ≡ length publication.old.refused + 1) }
{
    match publication.get(alloc, store, &SEEN, plan) {
        Work::More => {}
        _ => return None,
    }
    let mut other = Publish::new(id(3), id(4));
    publish(&mut other, alloc, store, plan)?;
    Some(publication.put(alloc, store, plan, 7))
}

fn stored(alloc: Global) -> Result<OneObject, std::alloc::AllocError> {
    Ok(OneObject {
        bytes: Vec::from_slice(alloc, &FIRST)?,
        etag: 1,
        fails: false,
        faults: 0,
    })
}

#[test]
fn refused_and_then_published(rt: HostRuntime) -> Result<(), Fail> {
    let alloc = rt.alloc();
    let mut store = stored(alloc)?;
    let plan = sweep_of_none(alloc);
    let mut publication = Publish::new(id(1), id(2));
    assert_eq!(rt;
        late(&mut publication, alloc, &mut store, &plan),
        Some(PutEnd::Refused)
    );
    assert!(rt; publication.manifest().is_none());
    assert_eq!(rt;
        publish(&mut publication, alloc, &mut store, &plan),
        Some(PutEnd::Published(3))
    );
    let latest = publication.latest().ok_or("the manifest is kept")?;
    assert_eq!(rt; latest.manifest.number, 3);
    assert_eq!(rt; latest.manifest.moment, 7);
    assert_eq!(rt; latest.etag, 3);
    Ok(())
}

#[test]
fn refused_eight_times(rt: HostRuntime) -> Result<(), Fail> {
    let alloc = rt.alloc();
    let mut store = stored(alloc)?;
    let plan = sweep_of_none(alloc);
    let mut publication = Publish::new(id(1), id(2));
    for tried in 0..7u8 {
        let end = late(&mut publication, alloc, &mut store, &plan);
        assert_eq!(rt; end, Some(PutEnd::Refused), "{tried}");
    }
    assert_eq!(rt;
        late(&mut publication, alloc, &mut store, &plan),
        Some(PutEnd::Contended([1, 2, 3, 4, 5, 6, 7, 8]))
    );
    Ok(())
}

#[test]
fn unknown_outcome(rt: HostRuntime) -> Result<(), Fail> {
    let alloc = rt.alloc();
    let mut store = stored(alloc)?;
    let plan = sweep_of_none(alloc);
    let mut publication = Publish::new(id(1), id(2));
    store.fails = true;
    assert_eq!(rt;
        publish(&mut publication, alloc, &mut store, &plan),
        Some(PutEnd::Unknown)
    );
    assert_eq!(rt; store.faults, 1);
    assert_eq!(rt; publication.manifest().ok_or("it is kept")?.number, 1);
    Ok(())
}

#[test]
fn what_a_get_refuses(rt: HostRuntime) -> Result<(), Fail> {
    let alloc = rt.alloc();
    let plan = sweep_of_none(alloc);
    let rows = [
        (0, None, 0, Work::NoContainer),
        (1, None, 1, Work::More),
        (1, None, 2, Work::BadManifest { at: 8 }),
        (1, Some(512), 1, Work::BadManifest { at: 24 }),
        (1, Some(512), 2, Work::BadManifest { at: 8 }),
        (1, Some(1024), 1, Work::More),
    ];
    for (etag, block, number, answer) in rows {
        let mut store = stored(alloc)?;
        store.etag = etag;
        let seen = Seen { block, number };
        let mut publication = Publish::new(id(1), id(2));
        assert_eq!(rt;
            publication.get(alloc, &mut store, &seen, &plan),
            answer,
            "{block:?} {number}"
        );
    }
    Ok(())
}

// An empty store.
fn empty(alloc: Global) -> OneObject {
    OneObject {
        bytes: Vec::new(alloc),
        etag: 0,
        fails: false,
        faults: 0,
    }
}

// A container with blocks of 1,024 bytes.
fn made(alloc: Global, store: &mut OneObject) -> Created {
    create(alloc, store, 1024, 100, id(1), id(2), 5)
}

#[test]
fn created_once(rt: HostRuntime) -> Result<(), Fail> {
    let alloc = rt.alloc();
    let mut store = empty(alloc);
    let Created::Done(latest) = made(alloc, &mut store) else {
        return Err(Fail::from("a container is created"));
    };
    assert_eq!(rt; latest.etag, 1);
    assert_eq!(rt; latest.manifest.number, 1);
    assert_eq!(rt; latest.manifest.block, 1024);
    assert_eq!(rt; latest.manifest.moment, 5);
    let again = made(alloc, &mut store);
    assert!(rt; matches!(again, Created::Exists));
    Ok(())
}

#[test]
fn a_block_under_a_drawn_name(rt: HostRuntime) -> Result<(), Fail> {
    let alloc = rt.alloc();
    let mut store = empty(alloc);
    let mut names = CountNames::new();
    let mut ids = Vec::new(alloc);
    let end = put_named(alloc, &mut store, &mut names, b"block", &mut ids);
    assert_eq!(rt; end, BlockEnd::Stored);
    let end = put_named(alloc, &mut store, &mut names, b"block", &mut ids);
    assert_eq!(rt; end, BlockEnd::NameTaken);
    assert_eq!(rt; end.work(), Work::NameTaken);
    assert_eq!(rt; ids.len(), 1);
    Ok(())
}

// The id of fifteen zeros and a number.
fn small_id(number: u8) -> Id16 {
    Id16([0, 0, 0, 0, 0, 0, 0, 0, 0, 0, 0, 0, 0, 0, 0, number])
}

#[test]
fn what_became_of_a_publication(rt: HostRuntime) -> Result<(), Fail> {
    let alloc = rt.alloc();
    let rows = [
        (1, None, 1, 1, 3, Resolved::At(1)),
        (1, Some(1024), 0, 1, 4, Resolved::Voided),
        (1, None, 1, 2, 3, Resolved::Voided),
        (0, None, 1, 1, 3, Resolved::Voided),
        (1, None, 2, 1, 3, Resolved::BadManifest { at: 8 }),
        (1, Some(512), 1, 1, 3, Resolved::BadManifest { at: 24 }),
    ];
    for (etag, block, number, writer, last, answer) in rows {
        let mut store = stored(alloc)?;
        store.etag = etag;
        let seen = Seen { block, number };
        let resolved = resolve(alloc, &mut store, &seen, &small_id(writer), &small_id(last));
        assert_eq!(rt;
            resolved,
            answer,
            "{etag} {block:?} {number} {writer} {last}"
        );
    }
    Ok(())
}
