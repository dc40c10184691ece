ghost use Rattle.std.specs.Prelude.{◌≡◌, ◌≢◌, ◌≤◌, Err, IfOk, IfSome, codes};
ghost use Rattle.bcv_base.specs.ManifestRules.{is_block_size, is_page_size};
ghost use Rattle.bcv_model.specs.Script.{word_at, last_word_at, world_at};
ghost use Rattle.bcv_model.specs.Words.{exactly, block_size_of, page_size_of_word, slots_of};
ghost use Rattle.bcv_script.specs.Reading.{Gives};

use crate::number::{number, number_in};
use crate::stop::Stop;
use crate::words::Words;
use bcv_model::WorldSpec;

// The world that the words of a world line fix.
#[tactic(auto, unfolding(bcv_model::specs::Script::world_at))]
pub fn world(words: &mut Words) -> Result<WorldSpec, Stop>
    ensures reads { Gives (λ s. s) result (world_at words.old) }
    ensures takes_no_memory { result ≢ Err Stop.NoMemory }
{
    world_word(words)?;
    let clients = number(words, 1, 16)? as u8;
    let block = block_size(words)?;
    let page = page_size(block, words)?;
    let retention = number(words, 0, u64::MAX)?;
    let slots = last_slots(block, words)?;
    Ok(WorldSpec {
        clients,
        block,
        page,
        retention,
        slots,
    })
}

// The word `world`.
fn world_word(words: &mut Words) -> Result<(), Stop>
    ensures reads { Gives (λ _. (codes "world", words.new)) result
        (word_at (exactly (codes "world")) words.old) }
    ensures takes_no_memory { result ≢ Err Stop.NoMemory }
{
    let (word, left) = words.word()?;
    if word != b"world".as_slice() {
        return Err(Stop::Fault(left));
    }
    Ok(())
}

// A block size.
fn block_size(words: &mut Words) -> Result<u32, Stop>
    ensures value { Gives (λ n. (n, words.new)) result (word_at block_size_of words.old) }
    ensures within { IfOk result (λ n. n ≤ 16777216) }
    ensures takes_no_memory { result ≢ Err Stop.NoMemory }
{
    let (word, left) = words.word()?;
    block_size_of(word).ok_or(Stop::Fault(left))
}

fn block_size_of(word: &[u8]) -> Option<u32>
    ensures value { result ≡ block_size_of word.now }
    ensures within { IfSome result (λ n. n ≤ 16777216) }
{
    let size = number_in(word, 512, 16777216)? as u32;
    if is_block_size(size) {
        Some(size)
    } else {
        None
    }
}

// A page size that isn't above the block size.
fn page_size(block: u32, words: &mut Words) -> Result<u32, Stop>
    ensures reads { Gives (λ n. (n, words.new)) result
        (word_at (page_size_of_word block) words.old) }
    ensures takes_no_memory { result ≢ Err Stop.NoMemory }
{
    let (word, left) = words.word()?;
    page_size_of(block, word).ok_or(Stop::Fault(left))
}

fn page_size_of(block: u32, word: &[u8]) -> Option<u32>
    ensures { result ≡ page_size_of_word block word.now }
{
    let size = number_in(word, 512, 65536)? as u32;
    if is_page_size(block, size) {
        Some(size)
    } else {
        None
    }
}

// A number of slots whose blocks take at most 2^30 bytes, by the last word.
fn last_slots(block: u32, words: &mut Words) -> Result<u16, Stop>
    ensures reads { Gives (λ n. n) result (last_word_at (slots_of block) words.old) }
    ensures takes_no_memory { result ≢ Err Stop.NoMemory }
{
    let (word, left) = words.word()?;
    let slots = slots_of(block, word).ok_or(Stop::Fault(left))?;
    words.end()?;
    Ok(slots)
}

fn slots_of(block: u32, word: &[u8]) -> Option<u16>
    ensures { result ≡ slots_of block word.now }
{
    let slots = number_in(word, 1, 1024)?;
    if slots * u64::from(block) <= 1 << 30 {
        Some(slots as u16)
    } else {
        None
    }
}

fn is_block_size(size: u32) -> bool
    ensures { result ≡ is_block_size size }
{
    512 <= size && size <= 16_777_216 && size.is_power_of_two()
}

fn is_page_size(block: u32, size: u32) -> bool
    ensures { result ≡ is_page_size block size }
{
    512 <= size && size <= 65_536 && size.is_power_of_two() && size <= block
}
