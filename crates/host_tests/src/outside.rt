use bcv_base::{Clock, Draw, Names, Now};
use bcv_host::{RandNames, RandomWords, SysClock, open_folder};
use rand_core::TryRng;
use std::test::Fail;

#[test]
fn the_clock_is_of_these_years(rt: HostRuntime) -> Result<(), Fail> {
    match SysClock::new(rt).now() {
        Now::At(moment) => assert!(rt; moment > 1_700_000_000 && moment < 10_000_000_000),
        Now::Failed => return Err(Fail::new("no moment")),
    }
    Ok(())
}

#[test]
fn names_differ(rt: HostRuntime) -> Result<(), Fail> {
    let mut names = RandNames::new(RandomWords::new(rt));
    match (names.draw(), names.draw()) {
        (Draw::Drawn(first), Draw::Drawn(second)) => assert!(rt; !first.same_as(&second)),
        _ => return Err(Fail::new("no name")),
    }
    let mut words = RandomWords::new(rt);
    let mut bytes = [0; 40];
    words.try_fill_bytes(&mut bytes)?;
    assert!(rt; bytes.iter().any(|byte| *byte != 0));
    assert!(rt; words.try_next_u32()? != words.try_next_u32()? || words.try_next_u64()? != 0);
    Ok(())
}

#[test]
fn a_folder_opens(rt: HostRuntime) -> Result<(), Fail> {
    let folder = open_folder(&rt, "/")?;
    assert!(rt; folder.metadata()?.is_dir());
    Ok(())
}
