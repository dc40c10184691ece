ghost use Rattle.std.specs.Prelude.{◌<◌, ℕ, length};
ghost use Rattle.bcv_dbmap.specs.Applied.{FitsPlan};

use bcv_base::{Id16, Seen, Seq};
use bcv_dbmap::EditPlan;
use bcv_memstore::MemStore;
use bcv_publish::{Created, Publish, PutEnd, Work, create};
use std::alloc::Global;
use std::test::*;

const SEEN: Seen = Seen {
    block: None,
    number: 0,
};

fn id(last: u8) -> Id16 {
    Id16([0, 0, 0, 0, 0, 0, 0, 0, 0, 0, 0, 0, 0, 0, 0, last])
}

// Two publications read the manifest, and then one after the other puts its own.
fn raced(
    alloc: Global,
    store: &mut MemStore,
    one: &mut Publish,
    other: &mut Publish,
    plan: &EditPlan,
) -> Option<(PutEnd, PutEnd)>
    requires fits { (block : ℕ) → FitsPlan block plan.now }
    requires one { length one.old.refused < 8 }
    requires other { length other.old.refused < 8 }
{
    let Work::More = one.get(alloc, store, &SEEN, plan) else {
        return None;
    };
    let Work::More = other.get(alloc, store, &SEEN, plan) else {
        return None;
    };
    let first = one.put(alloc, store, plan, 0);
    let second = other.put(alloc, store, plan, 0);
    Some((first, second))
}

// The put of the second publication does not match the manifest that the first one put.
#[test]
fn two_publications_over_one_store(rt: HostRuntime) -> Result<(), Fail> {
    let alloc = rt.alloc();
    let mut store = MemStore::new(alloc);
    let first = create(alloc, &mut store, 1_024, 100, id(1), id(2), 0);
    assert!(rt; matches!(first, Created::Done(_)));
    let plan = EditPlan::Sweep {
        ids: Seq::of(Vec::new(alloc)),
    };
    let mut one = Publish::new(id(1), id(3));
    let mut other = Publish::new(id(4), id(5));
    let ends = raced(alloc, &mut store, &mut one, &mut other, &plan).ok_or("both read it")?;
    assert_eq!(rt; ends.0, PutEnd::Published(2));
    assert_eq!(rt; ends.1, PutEnd::Refused);
    assert_eq!(rt; store.version_count(), 2);
    assert!(rt; other.manifest().is_none());
    assert_eq!(rt; one.manifest().ok_or("it is kept")?.number, 2);
    Ok(())
}
