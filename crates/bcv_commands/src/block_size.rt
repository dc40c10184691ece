ghost use Rattle.std.specs.Prelude.{◌≡◌, ◌≤◌, IfSome};
ghost use Rattle.bcv_model.specs.Words.{block_size_of};

use bcv_base::is_block_size;
use bcv_script::number_in;

// The block size that a word writes in decimal.
pub fn block_size_of(word: &[u8]) -> Option<u32>
    ensures value { result ≡ block_size_of word.now }
    ensures within { IfSome result (λ n. n ≤ 16777216) }
{
    let size = number_in(word, 512, 16777216)? as u32;
    if is_block_size(size) {
        Some(size)
    } else {
        None
    }
}
