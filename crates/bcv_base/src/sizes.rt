ghost use Rattle.std.specs.Prelude.{◌≡◌, ◌≤◌, ◌<◌, ◌^◌};
ghost use Rattle.bcv_base.specs.ManifestRules.{is_block_size, is_page_size, blocks_needed};

/// Whether blocks may have so many bytes: a power of two from 512 to 16,777,216.
pub fn is_block_size(size: u32) -> bool
    ensures { result ≡ is_block_size size }
{
    512 <= size && size <= 16_777_216 && size.is_power_of_two()
}

/// Whether a database over blocks of a size may have pages of so many bytes: a power of two from 512 to 65,536, and at
/// most the block size.
pub fn is_page_size(block: u32, size: u32) -> bool
    ensures { result ≡ is_page_size block size }
{
    512 <= size && size <= 65_536 && size.is_power_of_two() && size <= block
}

/// How many blocks of a size hold so many pages.
pub fn blocks_needed(block: u32, page_size: u32, pages: u32) -> u64
    requires { 1 ≤ block }
    ensures value { result ≡ blocks_needed block page_size pages }
    ensures small { 512 ≤ block → result < 2 ^ 56 }
{
    (pages as u64 * page_size as u64 + (block as u64 - 1)) / block as u64
}
