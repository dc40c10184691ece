use crate::ask::Ask;
use bcv_base::Outcome;

/// What happens to one client: it is asked, with the outcome of the one request that the ask may make, it comes up,
/// it crashes with one of five images of its disk, or its disk is set to crash or to fail after so many further calls.
#[derive(Drop)]
pub enum Act {
    Ask(Ask, Outcome),
    Up,
    Crash { image: u8 },
    Fuse { calls: u32, image: u8 },
    FailAt { calls: u32 },
}

/// One event of a script: time goes on by so many seconds, or something happens to one client.
#[derive(Drop)]
pub enum Event {
    Tick(u64),
    Of { client: u8, act: Act },
}
