ghost use Rattle.std.specs.Prelude.{◌≡◌, ℕ, ◌+◌, ◌-◌, ◌^◌, ◌<◌, ◌≤◌, true, IfOk, OnOk};
ghost use Rattle.bcv_base.specs.Views.{is_commit};
ghost use Rattle.bcv_model.specs.Commits.{writes_of};
ghost use Rattle.bcv_pages.specs.Held.{with_commit, last_of};

use bcv_model::Commit;
use bcv_pages::{PageAt, PageSet, WriteFault, WriteTxn};
use std::alloc::{AllocError, Global};
use std::fs;
use std::process::Abort;
use std::rt::Files;
use std::test::Fail;

// A commit of pages of one byte.
fn commit_of(alloc: Global, size: u32, pages: &[(u32, u8)]) -> Result<Commit, WriteFault>
    ensures { IfOk result (λ c. is_commit 1 (writes_of c) ≡ true) }
{
    let mut txn = WriteTxn::new(alloc, 1, size);
    for (page, byte) in pages {
        txn.write(*page, &[*byte])?;
    }
    Ok(txn.finish())
}

fn add(set: &mut PageSet, commit: Commit) -> Result<(), AllocError>
    requires last { last_of set.old < 2 ^ 64 - 1 }
    requires commit { is_commit set.old.page_size (writes_of commit) ≡ true }
    ensures { OnOk result (set.new ≡ with_commit (writes_of commit) set.old) }
{
    set.reserve(&commit)?;
    set.add(commit);
    Ok(())
}

// The bytes of a view of pages of one byte, where the base's page p has the byte 250 + p.
fn shown(
    alloc: Global,
    set: &PageSet,
    base_pages: u32,
    from: u64,
    to: u64,
) -> Result<Vec<u8>, AllocError>
    requires { set.now.forgotten ≤ from }
{
    let mut image = Vec::new(alloc);
    if from > to || to > set.last() {
        return Ok(image);
    }
    for index in 0..set.size(base_pages, from, to) {
        image.push(match set.find(base_pages, from, to, index + 1) {
            PageAt::Local(bytes) => bytes.first().copied().unwrap_or(255),
            PageAt::Zeros => 0,
            PageAt::Base => base_byte(index + 1),
        })?;
    }
    Ok(image)
}

fn base_byte(page: u32) -> u8 {
    250 + (page % 5) as u8
}

#[test]
fn the_writes_that_stand(rt: HostRuntime) {
    let bytes = [7; 512];
    let mut txn = WriteTxn::new(rt.alloc(), 512, 2);
    assert_eq!(rt; txn.write(2, &bytes), Ok(()));
    assert_eq!(rt; txn.write(3, &bytes), Err(WriteFault::BadPage));
    txn.set_size(1);
    assert_eq!(rt; txn.write(1, &bytes), Ok(()));
    let commit = txn.finish();
    assert_eq!(rt; commit.size, 1);
    assert_eq!(rt; commit.pages.items().len(), 1);
    for (number, page) in commit.pages.items() {
        assert_eq!(rt; *number, 1);
        assert_eq!(rt; page.items(), bytes.as_slice());
    }
}

// Three commits grow a base of two pages to three, shrink it to one, and let it grow to four.
#[test]
fn growth_and_shrinking(rt: HostRuntime) -> Result<(), Fail> {
    let mut set = PageSet::new(rt.alloc(), 1);
    add(&mut set, commit_of(rt.alloc(), 3, &[(1, 10)])?)?;
    add(&mut set, commit_of(rt.alloc(), 1, &[])?)?;
    add(&mut set, commit_of(rt.alloc(), 4, &[(4, 40)])?)?;
    let views: [(u64, u64, &[u8]); 8] = [
        (0, 0, &[251, 252]),
        (0, 1, &[10, 252, 0]),
        (0, 2, &[10]),
        (0, 3, &[10, 0, 0, 40]),
        (1, 2, &[251]),
        (1, 3, &[251, 0, 0, 40]),
        (2, 3, &[251, 252, 0, 40]),
        (3, 3, &[251, 252]),
    ];
    for (from, to, want) in views {
        assert_eq!(rt;
            shown(rt.alloc(), &set, 2, from, to)?.as_slice(),
            want,
            "from {from} to {to}"
        );
    }
    assert_eq!(rt;
        set.touched(rt.alloc(), 2, 0, 3, 2)?.as_slice(),
        [0, 1].as_slice()
    );
    assert_eq!(rt;
        set.touched(rt.alloc(), 2, 0, 2, 2)?.as_slice(),
        [0].as_slice()
    );
    assert_eq!(rt;
        set.touched(rt.alloc(), 2, 2, 3, 2)?.as_slice(),
        [1].as_slice()
    );
    assert_eq!(rt; set.writes(1), [1].as_slice());
    set.forget(1);
    assert_eq!(rt; set.last(), 3);
    assert_eq!(rt; set.writes(1), [].as_slice());
    assert_eq!(rt; set.writes(4), [3].as_slice());
    assert_eq!(rt;
        shown(rt.alloc(), &set, 2, 1, 3)?.as_slice(),
        [251, 0, 0, 40].as_slice()
    );
    Ok(())
}

// Numbers that look random, the same at each run.
fn mixed(seed: u32) -> u32 {
    let once = seed.wrapping_mul(2_654_435_761);
    (once ^ (once >> 15)).wrapping_mul(2_246_822_519) >> 13
}

// The size of the commit of this number, and whether it writes a page.
fn made_size(number: u8) -> u32 {
    1 + mixed(u32::from(number)) % 6
}

fn is_made(number: u8, page: u32) -> bool {
    mixed(u32::from(number) * 8 + page % 8) % 3 == 0
}

// Another byte for each commit of forty and each page of six.
fn made_byte(number: u8, page: u32) -> u8 {
    number % 41 * 6 + (page % 6) as u8
}

fn made(alloc: Global, number: u8) -> Result<Commit, WriteFault>
    ensures { IfOk result (λ c. is_commit 1 (writes_of c) ≡ true) }
{
    let size = made_size(number);
    let mut txn = WriteTxn::new(alloc, 1, size);
    for index in 0..size {
        if is_made(number, index + 1) {
            txn.write(index + 1, &[made_byte(number, index + 1)])?;
        }
    }
    Ok(txn.finish())
}

// The image that the commits numbered from `from` + 1 to `to` make of a base of four pages.
fn folded(alloc: Global, from: u8, to: u8) -> Result<Vec<u8>, AllocError> {
    let mut image = Vec::from_slice(
        alloc,
        &[base_byte(1), base_byte(2), base_byte(3), base_byte(4)],
    )?;
    for number in from..to {
        image.resize(made_size(number + 1) as usize, 0)?;
        for (byte, page) in image.iter_mut().zip(1..100) {
            if is_made(number + 1, page) {
                *byte = made_byte(number + 1, page);
            }
        }
    }
    Ok(image)
}

const COMMITS: u8 = 40;

fn forty_commits(alloc: Global) -> Result<PageSet, Fail>
    ensures { IfOk result (λ set. set.forgotten ≡ 0) }
{
    let mut set = PageSet::new(alloc, 1);
    for number in 1..41 {
        add(&mut set, made(alloc, number)?)?;
    }
    Ok(set)
}

// The blocks of `per_block` pages of which a page isn't the base's.
fn local_blocks(
    alloc: Global,
    set: &PageSet,
    from: u64,
    to: u64,
    per_block: u32,
) -> Result<Vec<u32>, AllocError>
    requires forgotten { set.now.forgotten ≤ from }
    requires some { 1 ≤ per_block }
{
    let mut blocks = Vec::new(alloc);
    if from > to || to > set.last() {
        return Ok(blocks);
    }
    for index in 0..set.size(4, from, to) {
        let block = index / per_block;
        let is_base = set.find(4, from, to, index + 1) == PageAt::Base;
        if !is_base && blocks.last() != Some(&block) {
            blocks.push(block)?;
        }
    }
    Ok(blocks)
}

// Each view from `first` on, with its bytes and its touched blocks.
fn compare_views(rt: &(impl Abort + AllocGlobal), set: &PageSet, first: u8) -> Result<(), Fail>
    requires { set.now.forgotten ≤ first }
{
    for from in first..COMMITS + 1 {
        for to in from..COMMITS + 1 {
            let (start, end) = (u64::from(from), u64::from(to));
            let view = shown(rt.alloc(), set, 4, start, end)?;
            assert_eq!(rt;
                view.as_slice(),
                folded(rt.alloc(), from, to)?.as_slice(),
                "from {from} to {to}"
            );
            let blocks = local_blocks(rt.alloc(), set, start, end, 2)?;
            assert!(rt; set.last() >= end);
            assert_eq!(rt;
                set.touched(rt.alloc(), 4, start, end, 2)?.as_slice(),
                blocks.as_slice(),
                "from {from} to {to}"
            );
        }
    }
    Ok(())
}

#[test]
fn every_view_of_forty_commits(rt: HostRuntime) -> Result<(), Fail> {
    let mut set = forty_commits(rt.alloc())?;
    compare_views(&rt, &set, 0)?;
    set.forget(17);
    compare_views(&rt, &set, 17)
}

// A commit of one page of 512 bytes, in two pages.
fn page_commit(alloc: Global, page: u32, byte: u8) -> Result<Commit, Fail>
    ensures { IfOk result (λ c. is_commit 512 (writes_of c) ≡ true) }
{
    let mut txn = WriteTxn::new(alloc, 512, 2);
    txn.write(page, vec![in alloc; byte; 512]?.as_slice())?;
    Ok(txn.finish())
}

const MANY: u64 = 100_000;

// Page 2 is written by the first commit, and page 1 by each of the others.
fn long_history(alloc: Global) -> Result<PageSet, Fail>
    ensures { IfOk result (λ set. set.forgotten ≡ 0) }
{
    let mut set = PageSet::new(alloc, 512);
    add(&mut set, page_commit(alloc, 2, 7)?)?;
    for number in 1..MANY {
        add(&mut set, page_commit(alloc, 1, (number % 251) as u8)?)?;
    }
    Ok(set)
}

// Whether so many finds of page 2, in the view of all commits, give these bytes.
fn is_found(set: &PageSet, times: u32, want: &[u8]) -> bool
    requires { set.now.forgotten ≡ 0 }
{
    let last = set.last();
    if set.size(2, 0, last) < 2 {
        return false;
    }
    for _ in 0..times {
        if set.find(2, 0, last, 2) != PageAt::Local(want) {
            return false;
        }
    }
    true
}

// The most memory that this process has had, in units of 1,024 bytes.
fn peak_memory(rt: &(impl Files + AllocGlobal)) -> Result<u32, Fail> {
    let status = fs::read_to_string(rt, "/proc/self/status")?;
    let line = status
        .as_str()
        .lines()
        .find(|line| line.starts_with("VmHWM:"))
        .ok_or("no VmHWM")?;
    let words = line.split_whitespace().nth(1).ok_or("no number")?;
    Ok(words.parse::<u32>()?)
}

#[test]
fn a_page_written_long_ago(rt: HostRuntime) -> Result<(), Fail> {
    let set = long_history(rt.alloc())?;
    let want = vec![in rt.alloc(); 7; 512]?;
    assert_eq!(rt; set.last(), MANY);
    assert!(rt; is_found(&set, 1_000_000, want.as_slice()));
    assert_eq!(rt; set.writes(2), [1].as_slice());
    assert_eq!(rt; set.writes(1).len(), 99_999);
    let most = peak_memory(&rt)?;
    assert!(rt; most < 97_656, "{most}");
    Ok(())
}
