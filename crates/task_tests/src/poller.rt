use bcv_base::{Id16, Seen};
use bcv_memstore::MemStore;
use bcv_poller::{Polled, poll};
use bcv_publish::{Created, create};
use std::test::*;

const NOTHING: Seen = Seen {
    block: None,
    number: 0,
};

// A poll of no container, then of a new one, and then with its etag and with another one.
#[test]
fn a_container_is_polled(rt: HostRuntime) -> Result<(), Fail> {
    let alloc = rt.alloc();
    let mut store = MemStore::new(alloc);
    let none = poll(alloc, &mut store, &NOTHING, None);
    assert!(rt; matches!(none, Polled::NoContainer));
    let first = create(
        alloc,
        &mut store,
        1_024,
        100,
        Id16([1; 16]),
        Id16([2; 16]),
        0,
    );
    assert!(rt; matches!(first, Created::Done(_)));
    let Polled::New(latest) = poll(alloc, &mut store, &NOTHING, None) else {
        return Err(Fail::from("the manifest is new"));
    };
    assert_eq!(rt; latest.manifest.number, 1);
    let again = poll(alloc, &mut store, &NOTHING, Some(latest.etag));
    assert!(rt; matches!(again, Polled::Same));
    let other = poll(
        alloc,
        &mut store,
        &NOTHING,
        Some(latest.etag.wrapping_add(1)),
    );
    assert!(rt; matches!(other, Polled::New(_)));
    let above = Seen {
        block: Some(1_024),
        number: 2,
    };
    let below = poll(alloc, &mut store, &above, None);
    assert!(rt; matches!(below, Polled::BadManifest { at: 8 }));
    Ok(())
}
