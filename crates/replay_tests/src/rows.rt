//! Rows that were worked out by hand: scripts with their replies.
use crate::scripts::replay;
use std::test::Fail;

#[test]
fn first_read(rt: HostRuntime) -> Result<(), Fail> {
    let wrong = replay(
        rt.alloc(),
        "world 2 1024 512 100 2\n\
1 create : task 1 working 1\n\
1 step 1 : +1 done 1\n\
1 new a aa : task 1 working 3\n\
1 step 1 : working 2\n\
1 step 1 : working 1\n\
1 step 1 : +2 done 2\n\
1 begin a : txn 1\n\
1 read 1 1 : task 1 working 1\n\
1 step 1 : page aa\n\
1 read 1 2 : bad-page\n",
    )?;
    assert_eq!(rt; wrong, None);
    Ok(())
}

#[test]
fn three_pages(rt: HostRuntime) -> Result<(), Fail> {
    let wrong = replay(
        rt.alloc(),
        "world 2 1024 512 100 2\n\
1 create : task 1 working 1\n\
1 step 1 : +1 done 1\n\
1 new a 01 02 03 : task 1 working 5\n\
1 step 1 : working 3\n\
1 step 1 : working 2\n\
1 step 1 : working 1\n\
1 step 1 : +2 done 2\n\
1 begin a : txn 1\n\
1 read 1 2 : task 1 working 1\n\
1 step 1 : page 02\n\
1 read 1 3 : task 1 working 1\n\
1 step 1 : page 03\n\
1 read 1 1 : page 01\n",
    )?;
    assert_eq!(rt; wrong, None);
    Ok(())
}

#[test]
fn fixed_version(rt: HostRuntime) -> Result<(), Fail> {
    let wrong = replay(
        rt.alloc(),
        "world 2 1024 512 100 2\n\
1 create : task 1 working 1\n\
1 step 1 : +1 done 1\n\
1 new a aa : task 1 working 3\n\
1 step 1 : working 2\n\
1 step 1 : working 1\n\
1 step 1 : +2 done 2\n\
2 poll : task 1 working 1\n\
2 step 1 : polled 2\n\
2 commit a 1 1=bb : ok\n\
1 begin a : txn 1\n\
2 upload a : task 1 working 4\n\
2 step 1 : working 3\n\
2 step 1 : working 1\n\
2 step 1 : +3 done 3\n\
1 poll : task 1 working 1\n\
1 step 1 : polled 3\n\
1 begin a : txn 2\n\
1 read 1 1 : task 1 working 1\n\
1 step 1 : page aa\n\
1 read 2 1 : task 1 working 1\n\
1 step 1 : page bb\n",
    )?;
    assert_eq!(rt; wrong, None);
    Ok(())
}

#[test]
fn growth(rt: HostRuntime) -> Result<(), Fail> {
    let wrong = replay(
        rt.alloc(),
        "world 2 1024 512 100 2\n\
1 create : task 1 working 1\n\
1 step 1 : +1 done 1\n\
1 new a aa : task 1 working 3\n\
1 step 1 : working 2\n\
1 step 1 : working 1\n\
1 step 1 : +2 done 2\n\
1 commit a 4 4=dd : ok\n\
1 begin a : txn 1\n\
1 read 1 1 : task 1 working 1\n\
1 step 1 : page aa\n\
1 read 1 2 : page -\n\
1 read 1 3 : page -\n\
1 read 1 4 : page dd\n\
1 upload a : task 1 working 6\n\
1 step 1 : working 5\n\
1 step 1 : working 3\n\
1 step 1 : working 1\n\
1 step 1 : +3 done 3\n",
    )?;
    assert_eq!(rt; wrong, None);
    Ok(())
}

#[test]
fn cut_and_growth(rt: HostRuntime) -> Result<(), Fail> {
    let wrong = replay(
        rt.alloc(),
        "world 2 1024 512 100 2\n\
1 create : task 1 working 1\n\
1 step 1 : +1 done 1\n\
1 new a 01 02 : task 1 working 4\n\
1 step 1 : working 2\n\
1 step 1 : working 1\n\
1 step 1 : +2 done 2\n\
1 commit a 1 : ok\n\
1 commit a 2 : ok\n\
1 begin a : txn 1\n\
1 read 1 2 : page -\n\
1 read 1 1 : task 1 working 1\n\
1 step 1 : page 01\n",
    )?;
    assert_eq!(rt; wrong, None);
    Ok(())
}

#[test]
fn conflict(rt: HostRuntime) -> Result<(), Fail> {
    let wrong = replay(
        rt.alloc(),
        "world 2 1024 512 100 2\n\
1 create : task 1 working 1\n\
1 step 1 : +1 done 1\n\
1 new a aa : task 1 working 3\n\
1 step 1 : working 2\n\
1 step 1 : working 1\n\
1 step 1 : +2 done 2\n\
2 poll : task 1 working 1\n\
2 step 1 : polled 2\n\
1 commit a 1 1=bb : ok\n\
2 commit a 1 1=cc : ok\n\
1 upload a : task 1 working 4\n\
1 step 1 : working 3\n\
1 step 1 : working 1\n\
1 step 1 : +3 done 3\n\
2 upload a : task 1 working 4\n\
2 step 1 : conflict 00000000000000000000000000000004 00000000000000000000000000000006\n\
2 revert a : ok\n\
2 poll : task 1 working 1\n\
2 step 1 : polled 3\n\
2 begin a : txn 1\n\
2 read 1 1 : task 1 working 1\n\
2 step 1 : page bb\n",
    )?;
    assert_eq!(rt; wrong, None);
    Ok(())
}

#[test]
fn two_databases(rt: HostRuntime) -> Result<(), Fail> {
    let wrong = replay(
        rt.alloc(),
        "world 2 1024 512 100 2\n\
1 create : task 1 working 1\n\
1 step 1 : +1 done 1\n\
1 new a aa : task 1 working 3\n\
1 step 1 : working 2\n\
1 step 1 : working 1\n\
1 step 1 : +2 done 2\n\
1 commit a 1 1=bb : ok\n\
1 upload a : task 1 working 4\n\
1 step 1 : working 3\n\
1 step 1 : working 1\n\
2 new b 77 : task 1 working 3\n\
2 step 1 : working 2\n\
2 step 1 : working 1\n\
2 step 1 : +3 done 3\n\
1 step 1 : working 2\n\
1 step 1 : working 1\n\
1 step 1 : +4 done 4\n\
1 list : list a:4:1:0 b:4:1:0\n",
    )?;
    assert_eq!(rt; wrong, None);
    Ok(())
}

#[test]
fn lost_answer(rt: HostRuntime) -> Result<(), Fail> {
    let wrong = replay(
        rt.alloc(),
        "world 2 1024 512 100 2\n\
1 create : task 1 working 1\n\
1 step 1 : +1 done 1\n\
1 new a aa : task 1 working 3\n\
1 step 1 : working 2\n\
1 step 1 : working 1\n\
1 step 1 : +2 done 2\n\
1 commit a 1 1=bb : ok\n\
1 upload a : task 1 working 4\n\
1 step 1 : working 3\n\
1 step 1 : working 1\n\
1 step 1 lost : +3 unknown 00000000000000000000000000000006\n\
2 poll : task 1 working 1\n\
2 step 1 : polled 3\n\
2 commit a 1 1=cc : ok\n\
2 upload a : task 1 working 4\n\
2 step 1 : working 3\n\
2 step 1 : working 1\n\
2 step 1 : +4 done 4\n\
2 commit a 1 1=dd : ok\n\
2 upload a : task 1 working 4\n\
2 step 1 : working 3\n\
2 step 1 : working 1\n\
2 step 1 : +5 done 5\n\
1 upload a : pending\n\
1 resolve : task 1 working 1\n\
1 step 1 : resolved 3\n\
1 list : list a:3:1:0\n\
1 poll : task 1 working 1\n\
1 step 1 : polled 5\n\
1 begin a : txn 1\n\
1 read 1 1 : task 1 working 1\n\
1 step 1 : page dd\n",
    )?;
    assert_eq!(rt; wrong, None);
    Ok(())
}

#[test]
fn failed_put(rt: HostRuntime) -> Result<(), Fail> {
    let wrong = replay(
        rt.alloc(),
        "world 2 1024 512 100 2\n\
1 create : task 1 working 1\n\
1 step 1 : +1 done 1\n\
1 new a aa : task 1 working 3\n\
1 step 1 : working 2\n\
1 step 1 : working 1\n\
1 step 1 : +2 done 2\n\
1 commit a 1 1=bb : ok\n\
1 upload a : task 1 working 4\n\
1 step 1 : working 3\n\
1 step 1 : working 1\n\
1 step 1 fail : unknown 00000000000000000000000000000006\n\
1 resolve : task 1 working 1\n\
1 step 1 : voided\n\
1 upload a : task 1 working 4\n\
1 step 1 : working 3\n\
1 step 1 : working 1\n\
1 step 1 : +3 done 3\n",
    )?;
    assert_eq!(rt; wrong, None);
    Ok(())
}

#[test]
fn fuse_0_1(rt: HostRuntime) -> Result<(), Fail> {
    let wrong = replay(
        rt.alloc(),
        "world 2 1024 512 100 2\n\
1 create : task 1 working 1\n\
1 step 1 : +1 done 1\n\
1 new a aa : task 1 working 3\n\
1 step 1 : working 2\n\
1 step 1 : working 1\n\
1 step 1 : +2 done 2\n\
1 fuse 0 1 : ok\n\
1 commit a 1 1=bb : crashed\n\
1 up : up\n",
    )?;
    assert_eq!(rt; wrong, None);
    Ok(())
}

#[test]
fn fuse_1_1(rt: HostRuntime) -> Result<(), Fail> {
    let wrong = replay(
        rt.alloc(),
        "world 2 1024 512 100 2\n\
1 create : task 1 working 1\n\
1 step 1 : +1 done 1\n\
1 new a aa : task 1 working 3\n\
1 step 1 : working 2\n\
1 step 1 : working 1\n\
1 step 1 : +2 done 2\n\
1 fuse 1 1 : ok\n\
1 commit a 1 1=bb : crashed\n\
1 up : up\n",
    )?;
    assert_eq!(rt; wrong, None);
    Ok(())
}

#[test]
fn fuse_2_0(rt: HostRuntime) -> Result<(), Fail> {
    let wrong = replay(
        rt.alloc(),
        "world 2 1024 512 100 2\n\
1 create : task 1 working 1\n\
1 step 1 : +1 done 1\n\
1 new a aa : task 1 working 3\n\
1 step 1 : working 2\n\
1 step 1 : working 1\n\
1 step 1 : +2 done 2\n\
1 fuse 2 0 : ok\n\
1 commit a 1 1=bb : crashed\n\
1 up : up\n",
    )?;
    assert_eq!(rt; wrong, None);
    Ok(())
}

#[test]
fn fuse_2_1(rt: HostRuntime) -> Result<(), Fail> {
    let wrong = replay(
        rt.alloc(),
        "world 2 1024 512 100 2\n\
1 create : task 1 working 1\n\
1 step 1 : +1 done 1\n\
1 new a aa : task 1 working 3\n\
1 step 1 : working 2\n\
1 step 1 : working 1\n\
1 step 1 : +2 done 2\n\
1 fuse 2 1 : ok\n\
1 commit a 1 1=bb : crashed\n\
1 up : up a:2:1:1\n",
    )?;
    assert_eq!(rt; wrong, None);
    Ok(())
}

#[test]
fn fuse_2_3(rt: HostRuntime) -> Result<(), Fail> {
    let wrong = replay(
        rt.alloc(),
        "world 2 1024 512 100 2\n\
1 create : task 1 working 1\n\
1 step 1 : +1 done 1\n\
1 new a aa : task 1 working 3\n\
1 step 1 : working 2\n\
1 step 1 : working 1\n\
1 step 1 : +2 done 2\n\
1 fuse 2 3 : ok\n\
1 commit a 1 1=bb : crashed\n\
1 up : up\n",
    )?;
    assert_eq!(rt; wrong, None);
    Ok(())
}

#[test]
fn fuse_3_0(rt: HostRuntime) -> Result<(), Fail> {
    let wrong = replay(
        rt.alloc(),
        "world 2 1024 512 100 2\n\
1 create : task 1 working 1\n\
1 step 1 : +1 done 1\n\
1 new a aa : task 1 working 3\n\
1 step 1 : working 2\n\
1 step 1 : working 1\n\
1 step 1 : +2 done 2\n\
1 fuse 3 0 : ok\n\
1 commit a 1 1=bb : crashed\n\
1 up : up\n",
    )?;
    assert_eq!(rt; wrong, None);
    Ok(())
}

#[test]
fn fuse_3_1(rt: HostRuntime) -> Result<(), Fail> {
    let wrong = replay(
        rt.alloc(),
        "world 2 1024 512 100 2\n\
1 create : task 1 working 1\n\
1 step 1 : +1 done 1\n\
1 new a aa : task 1 working 3\n\
1 step 1 : working 2\n\
1 step 1 : working 1\n\
1 step 1 : +2 done 2\n\
1 fuse 3 1 : ok\n\
1 commit a 1 1=bb : crashed\n\
1 up : up a:2:1:1\n",
    )?;
    assert_eq!(rt; wrong, None);
    Ok(())
}

#[test]
fn crash_after_commit(rt: HostRuntime) -> Result<(), Fail> {
    let wrong = replay(
        rt.alloc(),
        "world 2 1024 512 100 2\n\
1 create : task 1 working 1\n\
1 step 1 : +1 done 1\n\
1 new a aa : task 1 working 3\n\
1 step 1 : working 2\n\
1 step 1 : working 1\n\
1 step 1 : +2 done 2\n\
1 commit a 1 1=bb : ok\n\
1 crash 0 : crashed\n\
1 up : up a:2:1:1\n",
    )?;
    assert_eq!(rt; wrong, None);
    Ok(())
}

#[test]
fn copy_keeps_blocks(rt: HostRuntime) -> Result<(), Fail> {
    let wrong = replay(
        rt.alloc(),
        "world 2 1024 512 100 2\n\
1 create : task 1 working 1\n\
1 step 1 : +1 done 1\n\
1 new a aa : task 1 working 3\n\
1 step 1 : working 2\n\
1 step 1 : working 1\n\
1 step 1 : +2 done 2\n\
1 copy a b : task 1 working 2\n\
1 step 1 : working 1\n\
1 step 1 : +3 done 3\n\
1 commit a 1 1=bb : ok\n\
1 upload a : task 1 working 4\n\
1 step 1 : working 3\n\
1 step 1 : working 1\n\
1 step 1 : +4 done 4\n\
tick 100 : ok\n\
1 cleanup : task 1 working 66\n\
1 step 1 : cleaned 0\n\
1 begin b : txn 1\n\
1 read 1 1 : task 1 working 1\n\
1 step 1 : page aa\n",
    )?;
    assert_eq!(rt; wrong, None);
    Ok(())
}

#[test]
fn cleanup(rt: HostRuntime) -> Result<(), Fail> {
    let wrong = replay(
        rt.alloc(),
        "world 2 1024 512 100 2\n\
1 create : task 1 working 1\n\
1 step 1 : +1 done 1\n\
1 new a aa : task 1 working 3\n\
1 step 1 : working 2\n\
1 step 1 : working 1\n\
1 step 1 : +2 done 2\n\
2 poll : task 1 working 1\n\
2 step 1 : polled 2\n\
2 begin a : txn 1\n\
1 commit a 1 1=bb : ok\n\
1 upload a : task 1 working 4\n\
1 step 1 : working 3\n\
1 step 1 : working 1\n\
1 step 1 : +3 done 3\n\
tick 99 : ok\n\
1 cleanup : task 1 working 66\n\
1 step 1 : cleaned 0\n\
tick 1 : ok\n\
1 cleanup : task 1 working 66\n\
1 step 1 : working 2\n\
1 step 1 : working 1\n\
1 step 1 : +4 cleaned 1\n\
2 read 1 1 : task 1 working 1\n\
2 step 1 : gone\n",
    )?;
    assert_eq!(rt; wrong, None);
    Ok(())
}

#[test]
fn pins(rt: HostRuntime) -> Result<(), Fail> {
    let wrong = replay(
        rt.alloc(),
        "world 2 1024 512 100 2\n\
1 create : task 1 working 1\n\
1 step 1 : +1 done 1\n\
1 new a 01 02 03 04 05 06 : task 1 working 8\n\
1 step 1 : working 4\n\
1 step 1 : working 3\n\
1 step 1 : working 2\n\
1 step 1 : working 1\n\
1 step 1 : +2 done 2\n\
1 begin a : txn 1\n\
1 hold 1 1 : task 1 working 1\n\
1 step 1 : held\n\
1 hold 1 3 : task 1 working 1\n\
1 step 1 : held\n\
1 hold 1 5 : cache-full\n\
1 free 1 1 : ok\n\
1 hold 1 5 : task 1 working 1\n\
1 step 1 fail : store-fault\n\
1 look 1 3 : page 03\n\
1 hold 1 5 : task 1 working 1\n\
1 step 1 : held\n\
1 look 1 6 : page 06\n\
1 look 1 1 : not-held\n",
    )?;
    assert_eq!(rt; wrong, None);
    Ok(())
}

#[test]
fn least_recent_leaves(rt: HostRuntime) -> Result<(), Fail> {
    let wrong = replay(
        rt.alloc(),
        "world 2 1024 512 100 2\n\
1 create : task 1 working 1\n\
1 step 1 : +1 done 1\n\
1 new a 01 02 03 04 05 06 : task 1 working 8\n\
1 step 1 : working 4\n\
1 step 1 : working 3\n\
1 step 1 : working 2\n\
1 step 1 : working 1\n\
1 step 1 : +2 done 2\n\
1 begin a : txn 1\n\
1 read 1 1 : task 1 working 1\n\
1 step 1 : page 01\n\
1 read 1 1 : page 01\n\
1 read 1 3 : task 1 working 1\n\
1 step 1 : page 03\n\
1 read 1 5 : task 1 working 1\n\
1 step 1 : page 05\n\
1 read 1 1 : task 1 working 1\n",
    )?;
    assert_eq!(rt; wrong, None);
    Ok(())
}

#[test]
fn disk_fault(rt: HostRuntime) -> Result<(), Fail> {
    let wrong = replay(
        rt.alloc(),
        "world 2 1024 512 100 2\n\
1 create : task 1 working 1\n\
1 step 1 : +1 done 1\n\
1 new a aa : task 1 working 3\n\
1 step 1 : working 2\n\
1 step 1 : working 1\n\
1 step 1 : +2 done 2\n\
1 fail 0 : ok\n\
1 commit a 1 1=bb : disk-fault\n\
1 commit a 1 1=bb : closed\n\
1 upload a : closed\n\
1 begin a : txn 1\n\
1 crash 0 : crashed\n\
1 up : up\n",
    )?;
    assert_eq!(rt; wrong, None);
    Ok(())
}

#[test]
fn refusals(rt: HostRuntime) -> Result<(), Fail> {
    let wrong = replay(
        rt.alloc(),
        "world 2 1024 512 100 2\n\
1 create : task 1 working 1\n\
1 step 1 : +1 done 1\n\
1 new a aa : task 1 working 3\n\
1 step 1 : working 2\n\
1 step 1 : working 1\n\
1 step 1 : +2 done 2\n\
1 step 3 : no-task\n\
1 end 9 : no-txn\n\
1 begin zz : no-database\n\
1 up : is-up\n\
1 upload a : nothing\n\
1 resolve : nothing\n\
1 commit a 1 2=bb : bad-page\n\
1 commit a 131073 : too-large\n\
1 new a bb : task 1 working 3\n\
1 step 1 : exists\n\
1 create : task 1 working 1\n\
1 step 1 : exists\n\
1 crash 1 : crashed\n\
1 list : down\n\
1 up : up\n\
1 poll : task 1 working 1\n\
1 step 1 : polled 2\n",
    )?;
    assert_eq!(rt; wrong, None);
    Ok(())
}

#[test]
fn removal(rt: HostRuntime) -> Result<(), Fail> {
    let wrong = replay(
        rt.alloc(),
        "world 2 1024 512 100 2\n\
1 create : task 1 working 1\n\
1 step 1 : +1 done 1\n\
1 new a aa : task 1 working 3\n\
1 step 1 : working 2\n\
1 step 1 : working 1\n\
1 step 1 : +2 done 2\n\
1 commit a 1 1=bb : ok\n\
1 drop a : has-local\n\
1 revert a : ok\n\
1 drop a : task 1 working 2\n\
1 copy a c : busy\n\
1 step 1 : working 1\n\
1 step 1 : +3 done 3\n\
1 begin a : no-database\n\
1 copy a c : task 1 working 2\n\
1 step 1 : no-database\n",
    )?;
    assert_eq!(rt; wrong, None);
    Ok(())
}

#[test]
fn contention(rt: HostRuntime) -> Result<(), Fail> {
    let wrong = replay(
        rt.alloc(),
        "world 2 1024 512 100 2\n\
1 create : task 1 working 1\n\
1 step 1 : +1 done 1\n\
1 new a aa : task 1 working 3\n\
1 step 1 : working 2\n\
1 step 1 : working 1\n\
1 step 1 : +2 done 2\n\
1 commit a 1 1=bb : ok\n\
1 upload a : task 1 working 4\n\
1 step 1 : working 3\n\
1 step 1 : working 1\n\
2 new b 77 : task 1 working 3\n\
2 step 1 : working 2\n\
2 step 1 : working 1\n\
2 step 1 : +3 done 3\n\
1 step 1 : working 2\n\
1 step 1 : working 1\n\
2 new c 77 : task 1 working 3\n\
2 step 1 : working 2\n\
2 step 1 : working 1\n\
2 step 1 : +4 done 4\n\
1 step 1 : working 2\n\
1 step 1 : working 1\n\
2 new d 77 : task 1 working 3\n\
2 step 1 : working 2\n\
2 step 1 : working 1\n\
2 step 1 : +5 done 5\n\
1 step 1 : working 2\n\
1 step 1 : working 1\n\
2 new e 77 : task 1 working 3\n\
2 step 1 : working 2\n\
2 step 1 : working 1\n\
2 step 1 : +6 done 6\n\
1 step 1 : working 2\n\
1 step 1 : working 1\n\
2 new f 77 : task 1 working 3\n\
2 step 1 : working 2\n\
2 step 1 : working 1\n\
2 step 1 : +7 done 7\n\
1 step 1 : working 2\n\
1 step 1 : working 1\n\
2 new g 77 : task 1 working 3\n\
2 step 1 : working 2\n\
2 step 1 : working 1\n\
2 step 1 : +8 done 8\n\
1 step 1 : working 2\n\
1 step 1 : working 1\n\
2 new h 77 : task 1 working 3\n\
2 step 1 : working 2\n\
2 step 1 : working 1\n\
2 step 1 : +9 done 9\n\
1 step 1 : working 2\n\
1 step 1 : working 1\n\
2 new i 77 : task 1 working 3\n\
2 step 1 : working 2\n\
2 step 1 : working 1\n\
2 step 1 : +10 done 10\n\
1 step 1 : contended 2 3 4 5 6 7 8 9\n\
1 list : list a:2:1:1\n",
    )?;
    assert_eq!(rt; wrong, None);
    Ok(())
}

#[test]
fn fuse_at_done_whole(rt: HostRuntime) -> Result<(), Fail> {
    let wrong = replay(
        rt.alloc(),
        "world 2 1024 512 100 2\n\
1 create : task 1 working 1\n\
1 step 1 : +1 done 1\n\
1 new a aa : task 1 working 3\n\
1 step 1 : working 2\n\
1 step 1 : working 1\n\
1 step 1 : +2 done 2\n\
1 commit a 1 1=bb : ok\n\
1 upload a : task 1 working 4\n\
1 step 1 : working 3\n\
1 step 1 : working 1\n\
1 fuse 4 0 : ok\n\
1 step 1 : +3 crashed\n\
1 up : up a:2:1:1 pending\n\
1 resolve : task 1 working 1\n\
1 step 1 : resolved 3\n",
    )?;
    assert_eq!(rt; wrong, None);
    Ok(())
}

#[test]
fn fuse_at_intent_whole(rt: HostRuntime) -> Result<(), Fail> {
    let wrong = replay(
        rt.alloc(),
        "world 2 1024 512 100 2\n\
1 create : task 1 working 1\n\
1 step 1 : +1 done 1\n\
1 new a aa : task 1 working 3\n\
1 step 1 : working 2\n\
1 step 1 : working 1\n\
1 step 1 : +2 done 2\n\
1 commit a 1 1=bb : ok\n\
1 upload a : task 1 working 4\n\
1 step 1 : working 3\n\
1 step 1 : working 1\n\
1 fuse 3 1 : ok\n\
1 step 1 : crashed\n\
1 up : up a:2:1:1 pending\n\
1 resolve : task 1 working 1\n\
1 step 1 : voided\n",
    )?;
    assert_eq!(rt; wrong, None);
    Ok(())
}

#[test]
fn fuse_at_intent_gone(rt: HostRuntime) -> Result<(), Fail> {
    let wrong = replay(
        rt.alloc(),
        "world 2 1024 512 100 2\n\
1 create : task 1 working 1\n\
1 step 1 : +1 done 1\n\
1 new a aa : task 1 working 3\n\
1 step 1 : working 2\n\
1 step 1 : working 1\n\
1 step 1 : +2 done 2\n\
1 commit a 1 1=bb : ok\n\
1 upload a : task 1 working 4\n\
1 step 1 : working 3\n\
1 step 1 : working 1\n\
1 fuse 3 0 : ok\n\
1 step 1 : crashed\n\
1 up : up a:2:1:1\n",
    )?;
    assert_eq!(rt; wrong, None);
    Ok(())
}

#[test]
fn sixteen_tasks(rt: HostRuntime) -> Result<(), Fail> {
    let wrong = replay(
        rt.alloc(),
        "world 2 1024 512 100 2\n\
1 create : task 1 working 1\n\
1 step 1 : +1 done 1\n\
1 new a aa : task 1 working 3\n\
1 step 1 : working 2\n\
1 step 1 : working 1\n\
1 step 1 : +2 done 2\n\
1 poll : task 1 working 1\n\
1 poll : task 2 working 1\n\
1 poll : task 3 working 1\n\
1 poll : task 4 working 1\n\
1 poll : task 5 working 1\n\
1 poll : task 6 working 1\n\
1 poll : task 7 working 1\n\
1 poll : task 8 working 1\n\
1 poll : task 9 working 1\n\
1 poll : task 10 working 1\n\
1 poll : task 11 working 1\n\
1 poll : task 12 working 1\n\
1 poll : task 13 working 1\n\
1 poll : task 14 working 1\n\
1 poll : task 15 working 1\n\
1 poll : task 16 working 1\n\
1 poll : too-many\n\
1 step 3 : polled 2\n\
1 poll : task 3 working 1\n\
1 create : too-many\n\
1 cleanup : too-many\n\
1 drop a : too-many\n",
    )?;
    assert_eq!(rt; wrong, None);
    Ok(())
}

#[test]
fn many_transactions(rt: HostRuntime) -> Result<(), Fail> {
    let wrong = replay(
        rt.alloc(),
        "world 2 1024 512 100 2\n\
1 create : task 1 working 1\n\
1 step 1 : +1 done 1\n\
1 new a aa : task 1 working 3\n\
1 step 1 : working 2\n\
1 step 1 : working 1\n\
1 step 1 : +2 done 2\n\
1 begin a : txn 1\n\
1 begin a : txn 2\n\
1 begin a : txn 3\n\
1 begin a : txn 4\n\
1 begin a : txn 5\n\
1 begin a : txn 6\n\
1 begin a : txn 7\n\
1 begin a : txn 8\n\
1 begin a : txn 9\n\
1 begin a : txn 10\n\
1 begin a : txn 11\n\
1 begin a : txn 12\n\
1 begin a : txn 13\n\
1 begin a : txn 14\n\
1 begin a : txn 15\n\
1 begin a : txn 16\n\
1 begin a : txn 17\n\
1 begin a : txn 18\n\
1 begin a : txn 19\n\
1 begin a : txn 20\n\
1 begin a : txn 21\n\
1 begin a : txn 22\n\
1 begin a : txn 23\n\
1 begin a : txn 24\n\
1 begin a : txn 25\n\
1 begin a : txn 26\n\
1 begin a : txn 27\n\
1 begin a : txn 28\n\
1 begin a : txn 29\n\
1 begin a : txn 30\n\
1 begin a : txn 31\n\
1 begin a : txn 32\n\
1 begin a : txn 33\n\
1 begin a : txn 34\n\
1 begin a : txn 35\n\
1 begin a : txn 36\n\
1 begin a : txn 37\n\
1 begin a : txn 38\n\
1 begin a : txn 39\n\
1 begin a : txn 40\n\
1 begin a : txn 41\n\
1 begin a : txn 42\n\
1 begin a : txn 43\n\
1 begin a : txn 44\n\
1 begin a : txn 45\n\
1 begin a : txn 46\n\
1 begin a : txn 47\n\
1 begin a : txn 48\n\
1 begin a : txn 49\n\
1 begin a : txn 50\n\
1 begin a : txn 51\n\
1 begin a : txn 52\n\
1 begin a : txn 53\n\
1 begin a : txn 54\n\
1 begin a : txn 55\n\
1 begin a : txn 56\n\
1 begin a : txn 57\n\
1 begin a : txn 58\n\
1 begin a : txn 59\n\
1 begin a : txn 60\n\
1 begin a : txn 61\n\
1 begin a : txn 62\n\
1 begin a : txn 63\n\
1 begin a : txn 64\n\
1 begin a : too-many\n\
1 end 7 : ok\n\
1 begin a : txn 7\n\
",
    )?;
    assert_eq!(rt; wrong, None);
    Ok(())
}

#[test]
fn tasks_end_with_their_transaction(rt: HostRuntime) -> Result<(), Fail> {
    let wrong = replay(
        rt.alloc(),
        "world 2 1024 512 100 2\n\
1 create : task 1 working 1\n\
1 step 1 : +1 done 1\n\
1 new a aa : task 1 working 3\n\
1 step 1 : working 2\n\
1 step 1 : working 1\n\
1 step 1 : +2 done 2\n\
1 begin a : txn 1\n\
1 begin a : txn 2\n\
1 read 1 1 : task 1 working 1\n\
1 read 2 1 : task 2 working 1\n\
1 end 1 : ok\n\
1 step 1 : no-task\n\
1 step 2 : page aa\n\
1 read 2 1 : page aa\n",
    )?;
    assert_eq!(rt; wrong, None);
    Ok(())
}

#[test]
fn reader_at_an_old_version(rt: HostRuntime) -> Result<(), Fail> {
    let wrong = replay(
        rt.alloc(),
        "world 2 1024 512 100 2\n\
1 create : task 1 working 1\n\
1 step 1 : +1 done 1\n\
1 new a aa : task 1 working 3\n\
1 step 1 : working 2\n\
1 step 1 : working 1\n\
1 step 1 : +2 done 2\n\
2 poll : task 1 working 1\n\
2 step 1 : polled 2\n\
2 begin a : txn 1\n\
2 read 1 1 : task 1 working 1\n\
2 step 1 : page aa\n\
1 commit a 1 1=bb : ok\n\
1 upload a : task 1 working 4\n\
1 step 1 : working 3\n\
1 step 1 : working 1\n\
1 step 1 : +3 done 3\n\
2 poll : task 1 working 1\n\
2 step 1 : polled 3\n\
2 read 1 1 : page aa\n\
2 begin a : txn 2\n\
2 read 2 1 : task 1 working 1\n\
2 step 1 : page bb\n\
2 read 1 1 : page aa\n\
tick 100 : ok\n\
1 cleanup : task 1 working 66\n\
1 step 1 : working 2\n\
1 step 1 : working 1\n\
1 step 1 : +4 cleaned 1\n\
2 read 1 1 : page aa\n\
2 begin a : txn 3\n\
2 read 3 1 : page bb\n",
    )?;
    assert_eq!(rt; wrong, None);
    Ok(())
}

#[test]
fn later_commits_stay(rt: HostRuntime) -> Result<(), Fail> {
    let wrong = replay(
        rt.alloc(),
        "world 2 1024 512 100 2\n\
1 create : task 1 working 1\n\
1 step 1 : +1 done 1\n\
1 new a aa : task 1 working 3\n\
1 step 1 : working 2\n\
1 step 1 : working 1\n\
1 step 1 : +2 done 2\n\
1 commit a 1 1=bb : ok\n\
1 upload a : task 1 working 4\n\
1 step 1 : working 3\n\
1 step 1 : working 1\n\
1 commit a 1 1=cc : ok\n\
1 step 1 : +3 done 3\n\
1 list : list a:3:1:1\n\
1 begin a : txn 1\n\
1 read 1 1 : page cc\n\
1 upload a : task 1 working 4\n\
1 step 1 : working 3\n\
1 step 1 : working 1\n\
1 step 1 : +4 done 4\n\
1 list : list a:4:1:0\n",
    )?;
    assert_eq!(rt; wrong, None);
    Ok(())
}

#[test]
fn lost_create(rt: HostRuntime) -> Result<(), Fail> {
    let wrong = replay(
        rt.alloc(),
        "world 2 1024 512 100 2\n\
1 create : task 1 working 1\n\
1 step 1 lost : +1 unknown 00000000000000000000000000000003\n\
1 create : pending\n\
1 resolve : task 1 working 1\n\
1 step 1 : resolved 1\n\
1 poll : task 1 working 1\n\
1 step 1 : polled 1\n\
1 create : task 1 working 1\n\
1 step 1 : exists\n",
    )?;
    assert_eq!(rt; wrong, None);
    Ok(())
}

#[test]
fn lost_block(rt: HostRuntime) -> Result<(), Fail> {
    let wrong = replay(
        rt.alloc(),
        "world 2 1024 512 100 2\n\
1 create : task 1 working 1\n\
1 step 1 : +1 done 1\n\
1 new a aa : task 1 working 3\n\
1 step 1 : working 2\n\
1 step 1 : working 1\n\
1 step 1 : +2 done 2\n\
1 commit a 1 1=bb : ok\n\
1 upload a : task 1 working 4\n\
1 step 1 : working 3\n\
1 step 1 lost : store-fault\n\
1 list : list a:2:1:1\n\
1 upload a : task 1 working 4\n\
1 step 1 : working 3\n\
1 step 1 : working 1\n\
1 step 1 : +3 done 3\n",
    )?;
    assert_eq!(rt; wrong, None);
    Ok(())
}

#[test]
fn pending_before_busy(rt: HostRuntime) -> Result<(), Fail> {
    let wrong = replay(
        rt.alloc(),
        "world 2 1024 512 100 2\n\
1 create : task 1 working 1\n\
1 step 1 : +1 done 1\n\
1 new a aa : task 1 working 3\n\
1 step 1 : working 2\n\
1 step 1 : working 1\n\
1 step 1 : +2 done 2\n\
1 commit a 1 1=bb : ok\n\
1 upload a : task 1 working 4\n\
1 copy a b : busy\n\
1 step 1 : working 3\n\
1 step 1 : working 1\n\
2 new b 77 : task 1 working 3\n\
2 step 1 : working 2\n\
2 step 1 : working 1\n\
2 step 1 : +3 done 3\n\
1 step 1 : working 2\n\
1 copy a c : pending\n\
1 revert a : pending\n\
1 resolve : busy\n\
1 list : list a:2:1:1 pending\n\
1 step 1 : working 1\n\
1 step 1 : +4 done 4\n\
1 list : list a:4:1:0 b:4:1:0\n",
    )?;
    assert_eq!(rt; wrong, None);
    Ok(())
}

#[test]
fn done_not_noted(rt: HostRuntime) -> Result<(), Fail> {
    let wrong = replay(
        rt.alloc(),
        "world 2 1024 512 100 2\n\
1 create : task 1 working 1\n\
1 step 1 : +1 done 1\n\
1 new a aa : task 1 working 3\n\
1 step 1 : working 2\n\
1 step 1 : working 1\n\
1 step 1 : +2 done 2\n\
1 commit a 1 1=bb : ok\n\
1 upload a : task 1 working 4\n\
1 step 1 : working 3\n\
1 step 1 : working 1\n\
1 fail 4 : ok\n\
1 step 1 : +3 disk-fault\n\
1 upload a : closed\n\
1 list : list a:2:1:1 pending\n\
1 poll : task 1 working 1\n\
1 step 1 : polled 3\n\
1 crash 0 : crashed\n\
1 up : up a:2:1:1 pending\n\
1 resolve : task 1 working 1\n\
1 step 1 : resolved 3\n\
1 list : list a:3:1:0\n",
    )?;
    assert_eq!(rt; wrong, None);
    Ok(())
}
