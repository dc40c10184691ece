ghost use Rattle.std.specs.Prelude.{◌≡◌, [], IfSome, OnOk};
ghost use Rattle.bcv_base.specs.Ids.{IsId};
ghost use Rattle.bcv_base.specs.Views.{view_size};
ghost use Rattle.bcv_pages.specs.Held.{CanView, view_of};
ghost use Rattle.bcv_upload.specs.State.{IsBase};

use bcv_base::{DbEntry, DbName, Id16, Seq, TxnBase};
use bcv_pages::{PageSet, WriteFault, WriteTxn};
use bcv_upload::Upload;
use std::alloc::Global;
use std::test::Fail;

const ZERO: Id16 = Id16([0; 16]);

fn id_of(last: u8) -> Id16
    ensures { IsId result }
{
    Id16([0, 0, 0, 0, 0, 0, 0, 0, 0, 0, 0, 0, 0, 0, 0, last])
}

// The base of one commit over a database of one page, in blocks of two.
fn base_of(alloc: Global, name: DbName) -> Option<TxnBase>
    ensures base { IfSome result IsBase }
    ensures is { IfSome result (λ b. (b.block ≡ 1024) × (b.entry.page_size ≡ 512) × (b.entry.pages ≡ 1) × (b.from ≡ 0) × (b.to ≡ 1)) }
{
    let _text = name.text();
    let blocks = match Vec::from_array(alloc, [id_of(2)]) {
        Ok(blocks) => blocks,
        Err(_) => return None,
    };
    let entry = DbEntry {
        name,
        tag: id_of(1),
        page_size: 512,
        pages: 1,
        blocks: Seq::of(blocks),
    };
    Some(TxnBase {
        entry,
        number: 2,
        block: 1024,
        from: 0,
        to: 1,
    })
}

// Adds a commit of four pages that writes the last one.
fn grow(alloc: Global, pages: &mut PageSet) -> Result<(), WriteFault>
    requires size { pages.old.page_size ≡ 512 }
    requires none { pages.old.kept ≡ [] }
    requires first { pages.old.forgotten ≡ 0 }
    ensures size { OnOk result (pages.new.page_size ≡ 512) }
    ensures view { OnOk result (CanView pages.new 0 1) }
    ensures pages { OnOk result (view_size 1 (view_of pages.new 0 1) ≡ 4) }
{
    let mut txn = WriteTxn::new(alloc, 512, 4);
    txn.write(4, &[7; 512])?;
    let commit = txn.finish();
    if pages.reserve(&commit).is_err() {
        return Err(WriteFault::NoMemory);
    }
    pages.add(commit);
    Ok(())
}

// A database of one page that a commit grows to four: both of its blocks are put, and the first one's old bytes are asked
// for.
#[test]
fn a_view_that_grows(rt: HostRuntime) -> Result<(), Fail> {
    let mut pages = PageSet::new(rt.alloc(), 512);
    grow(rt.alloc(), &mut pages)?;
    let name = DbName::read(b"a").expect(&rt, "a name");
    let base = base_of(rt.alloc(), name).expect(&rt, "memory");
    let upload = Upload::new(rt.alloc(), &base, &pages, id_of(3), id_of(4))?;
    assert_eq!(rt; upload.left(), 6);
    assert!(rt; !upload.ready());
    assert!(rt; upload.latest().is_none());
    let entry = upload.entry();
    assert_eq!(rt; entry.pages, 4);
    assert_eq!(rt; entry.blocks.items(), [ZERO, ZERO].as_slice());
    Ok(())
}
