ghost use Rattle.std.specs.Prelude.{◌≡◌, List, []};
ghost use Rattle.bcv_base.specs.Faults.{Rose};
ghost use Rattle.store_tests.specs.Called.{Replaces};
ghost use Rattle.bcv_memstore.specs.Told.{log_of, plan_of};

use bcv_base::{Id16, ObjName, Outcome};
use bcv_memstore::MemStore;
use bcv_store::{Cond, Del, Got, Listed, Put, Store};
use std::alloc::Global;
use std::marker::Model;
use std::test::Fail;

// Puts an object in place of the one that is there, over any store.
fn replace<S: Store>(
    store: &mut S,
    alloc: Global,
    name: &ObjName,
    into: &mut Vec<u8>,
    bytes: &[u8],
) -> Put
    ensures replaces { S.told.tells → S.told.alone → Replaces (S.shown store.new).log name.now bytes.now result }
    ensures failed { result ≡ Put.Failed → Rose (S.shown store.old).faults (S.shown store.new).faults }
    ensures reached { S.reaches store.old store.new }
{
    match store.get(alloc, name, None, into, usize::MAX) {
        Got::Found(etag) => store.put(alloc, name, Cond::Match(etag), bytes),
        Got::Missing => store.put(alloc, name, Cond::Absent, bytes),
        Got::Failed => Put::Failed,
        Got::NoMemory => Put::NoMemory,
        Got::Same => unreachable!(),
        Got::TooLong(_) => unreachable!(),
    }
}

// A type that holds a store, and that contracts see as the store's log.
#[derive(Drop)]
struct Holder {
    store: MemStore,
}

impl Model for Holder {
    ghost use Rattle.std.specs.Prelude.{List};
    ghost use Rattle.bcv_base.specs.declared.log.Entry.{Entry};
    ghost use Rattle.bcv_memstore.specs.Told.{log_of};

    ghost Value = { List Entry };

    ghost view = { λ h. log_of h.store };
}

impl Holder {
    // The same over the store that it holds.
    fn replace(&mut self, alloc: Global, name: &ObjName, into: &mut Vec<u8>, bytes: &[u8]) -> Put
        ensures { Replaces self.new name.now bytes.now result }
    {
        replace(&mut self.store, alloc, name, into, bytes)
    }
}

// Over a store with nothing planned a get does not fail and leaves the log.
fn look(store: &mut MemStore, alloc: Global, name: &ObjName, into: &mut Vec<u8>) -> Got
    requires { plan_of store.old ≡ [] }
    ensures answered { (result ≡ Got.Failed) → ⊥ }
    ensures log { log_of store.new ≡ log_of store.old }
{
    store.get(alloc, name, None, into, usize::MAX)
}

fn block(number: u16) -> ObjName {
    let mut id = [0; 16];
    id[14] = (number / 256) as u8;
    id[15] = (number % 256) as u8;
    ObjName::Block(Id16(id))
}

// What a put answers under a condition and a planned outcome, over a store that has the object or not, and how many entries
// the log has then.
fn tried(alloc: Global, there: bool, cond: Cond, outcome: Outcome) -> (Put, usize) {
    let mut store = MemStore::new(alloc);
    if there {
        let _ = store.put(alloc, &ObjName::Manifest, Cond::Absent, b"old");
    }
    store.plan(outcome);
    let answer = store.put(alloc, &ObjName::Manifest, cond, b"new");
    (answer, store.log_len())
}

#[test]
fn puts(rt: HostRuntime) -> Result<(), Fail> {
    let rows = [
        (false, Cond::Absent, Outcome::Ok, Put::Stored(1), 1),
        (false, Cond::Absent, Outcome::Fail, Put::Failed, 0),
        (false, Cond::Absent, Outcome::Lost, Put::Failed, 1),
        (false, Cond::Match(1), Outcome::Ok, Put::Refused, 0),
        (false, Cond::Match(1), Outcome::Lost, Put::Failed, 0),
        (true, Cond::Absent, Outcome::Ok, Put::Refused, 1),
        (true, Cond::Absent, Outcome::Lost, Put::Failed, 1),
        (true, Cond::Match(1), Outcome::Ok, Put::Stored(2), 2),
        (true, Cond::Match(1), Outcome::Fail, Put::Failed, 1),
        (true, Cond::Match(1), Outcome::Lost, Put::Failed, 2),
        (true, Cond::Match(2), Outcome::Ok, Put::Refused, 1),
    ];
    for (there, cond, outcome, answer, len) in rows {
        let (given, entries) = tried(rt.alloc(), there, cond, outcome);
        assert_eq!(rt; given, answer, "{there} {cond:?} {outcome:?}");
        assert_eq!(rt; entries, len, "{there} {cond:?} {outcome:?}");
    }
    Ok(())
}

#[test]
fn gets_and_deletes(rt: HostRuntime) -> Result<(), Fail> {
    let alloc = rt.alloc();
    let mut store = MemStore::new(alloc);
    let mut into = Vec::new(alloc);
    let name = block(7);
    assert_eq!(rt;
        store.put(alloc, &name, Cond::Absent, b"four"),
        Put::Stored(1)
    );
    assert_eq!(rt;
        store.put(alloc, &name, Cond::Absent, b"four"),
        Put::Refused
    );
    assert_eq!(rt; store.get(alloc, &name, None, &mut into, 4), Got::Found(1));
    assert_eq!(rt; into.as_slice(), b"four".as_slice());
    assert_eq!(rt;
        store.get(alloc, &name, None, &mut into, 3),
        Got::TooLong(4)
    );
    assert_eq!(rt; into.len(), 0);
    assert_eq!(rt; store.get(alloc, &name, Some(1), &mut into, 3), Got::Same);
    store.plan(Outcome::Fail);
    assert_eq!(rt; store.get(alloc, &name, None, &mut into, 4), Got::Failed);
    store.plan(Outcome::Fail);
    assert_eq!(rt; store.delete(alloc, &name, 5), Del::Failed);
    assert_eq!(rt; look(&mut store, alloc, &name, &mut into), Got::Found(1));
    store.plan(Outcome::Lost);
    assert_eq!(rt; store.delete(alloc, &name, 5), Del::Failed);
    assert_eq!(rt; store.get(alloc, &name, None, &mut into, 4), Got::Missing);
    assert_eq!(rt; store.delete(alloc, &name, 6), Del::Done);
    assert_eq!(rt; store.log_len(), 3);
    assert_eq!(rt; store.version_count(), 0);
    Ok(())
}

#[test]
fn replaces(rt: HostRuntime) -> Result<(), Fail> {
    let alloc = rt.alloc();
    let mut into = Vec::new(alloc);
    let mut holder = Holder {
        store: MemStore::new(alloc),
    };
    assert_eq!(rt;
        holder.replace(alloc, &ObjName::Manifest, &mut into, b"a"),
        Put::Stored(1)
    );
    assert_eq!(rt;
        holder.replace(alloc, &ObjName::Manifest, &mut into, b"b"),
        Put::Stored(2)
    );
    assert_eq!(rt; into.as_slice(), b"a".as_slice());
    assert_eq!(rt; holder.store.version_count(), 2);
    Ok(())
}

#[test]
fn lists_in_two_parts(rt: HostRuntime) -> Result<(), Fail> {
    let alloc = rt.alloc();
    let mut store = MemStore::new(alloc);
    assert_eq!(rt;
        store.put(alloc, &ObjName::Manifest, Cond::Absent, b"m"),
        Put::Stored(1)
    );
    for number in 0..1025 {
        let answer = store.put(alloc, &block(1024 - number), Cond::Absent, b"");
        assert_eq!(rt; answer, Put::Stored(number as u64 + 2));
    }
    let mut ids = Vec::new(alloc);
    assert_eq!(rt; store.list(alloc, None, &mut ids), Listed::More);
    assert_eq!(rt; ids.len(), 1024);
    assert_eq!(rt; ObjName::Block(ids[0]), block(0));
    let last = ids[1023];
    assert_eq!(rt; ObjName::Block(last), block(1023));
    assert_eq!(rt; store.list(alloc, Some(&last), &mut ids), Listed::End);
    assert_eq!(rt; ids.len(), 1);
    assert_eq!(rt; ObjName::Block(ids[0]), block(1024));
    Ok(())
}

#[test]
fn plans_ahead(rt: HostRuntime) -> Result<(), Fail> {
    let alloc = rt.alloc();
    let mut store = MemStore::new(alloc);
    store.plan_at(2, Outcome::Ok)?;
    store.plan_at(1, Outcome::Fail)?;
    store.plan_at(1, Outcome::Lost)?;
    store.plan(Outcome::Fail);
    let name = ObjName::Manifest;
    assert_eq!(rt; store.put(alloc, &name, Cond::Absent, b"m"), Put::Failed);
    assert_eq!(rt; store.log_len(), 0);
    assert_eq!(rt; store.put(alloc, &name, Cond::Absent, b"m"), Put::Failed);
    assert_eq!(rt; store.log_len(), 1);
    assert_eq!(rt; store.put(alloc, &name, Cond::Absent, b"m"), Put::Refused);
    assert_eq!(rt;
        store.put(alloc, &name, Cond::Match(1), b"n"),
        Put::Stored(2)
    );
    Ok(())
}
