use rand_core::TryRng;
use std::io;
use std::random::RandomSource;

/// The system's random bytes, as a generator that may fail.
#[derive(Drop)]
pub struct RandomWords<R> {
    rt: R,
}

impl<R: RandomSource> RandomWords<R> {
    /// The random bytes of a runtime.
    pub fn new(rt: R) -> RandomWords<R> {
        RandomWords { rt }
    }
}

impl<R: RandomSource> TryRng for RandomWords<R> {
    type Error = io::Error;

    fn try_next_u32(&mut self) -> io::Result<u32> {
        let mut bytes = [0; 4];
        self.rt.fill_bytes(&mut bytes)?;
        Ok(u32::from_be_bytes(bytes))
    }

    fn try_next_u64(&mut self) -> io::Result<u64> {
        let mut bytes = [0; 8];
        self.rt.fill_bytes(&mut bytes)?;
        Ok(u64::from_be_bytes(bytes))
    }

    fn try_fill_bytes(&mut self, dst: &mut [u8]) -> io::Result<()> {
        self.rt.fill_bytes(dst)
    }
}
