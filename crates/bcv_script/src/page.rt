ghost use Rattle.std.specs.Prelude.{◌≡◌, ◌≤◌, ◌/◌, ◌==◌, true, length, MatchOption, IfOk, Some, None};
ghost use Rattle.std.specs.List.{list_all, position};
ghost use Rattle.std.specs.Option.{ok_or};
ghost use Rattle.bcv_model.specs.Script.{pages_at, pairs_at, word_at, last_word_at};
ghost use Rattle.bcv_base.specs.Padded.{padded};
ghost use Rattle.bcv_model.specs.Words.{bytes_of_text, page_of_text, numbered_text, pair_of, unhexed};
ghost use Rattle.bcv_script.specs.Digits.{is_lower_hex};
ghost use Rattle.bcv_script.specs.Reading.{Gives};

use crate::number::number_in;
use crate::stop::Stop;
use crate::words::Words;
use bcv_base::Seq;
use std::alloc::{AllocError, Global};

// The pages that the words that are left write.
pub fn pages(alloc: Global, page_size: u32, words: &mut Words) -> Result<Seq<Seq<u8>>, Stop>
    ensures { Gives (λ ps. ps) result (pages_at page_size words.old) }
{
    let mut pages = Vec::new(alloc);
    while !words.is_empty() {
        pages.push(page(alloc, page_size, words)?)?;
    }
    Ok(Seq::of(pages))
}

// The page that the next word writes.
fn page(alloc: Global, page_size: u32, words: &mut Words) -> Result<Seq<u8>, Stop>
    ensures { Gives (λ p. (p, words.new)) result (word_at (page_of_text page_size) words.old) }
{
    let (word, left) = words.word()?;
    let bytes = bytes_of_text(alloc, page_size, word, left)?;
    Ok(padded(page_size, bytes)?)
}

// The numbered pages that the words that are left write, their numbers ascending.
pub fn pairs(alloc: Global, page_size: u32, words: &mut Words) -> Result<Seq<(u32, Seq<u8>)>, Stop>
    ensures { Gives (λ ps. ps) result (pairs_at page_size 0 words.old) }
{
    let mut pairs = Vec::new(alloc);
    let mut after = 0;
    while !words.is_empty() {
        let (page, bytes) = pair(alloc, page_size, after, words)?;
        after = page;
        pairs.push((page, padded(page_size, bytes)?))?;
    }
    Ok(Seq::of(pairs))
}

// The page number and the bytes that the last word writes.
pub fn last_pair(
    alloc: Global,
    page_size: u32,
    after: u32,
    words: &mut Words,
) -> Result<(u32, Vec<u8>), Stop>
    ensures { Gives (λ x. (x.0, x.1.items)) result
        (last_word_at (pair_of page_size after) words.old) }
{
    let pair = pair(alloc, page_size, after, words)?;
    words.end()?;
    Ok(pair)
}

// The page number above another one, and the bytes, that the next word writes.
fn pair(
    alloc: Global,
    page_size: u32,
    after: u32,
    words: &mut Words,
) -> Result<(u32, Vec<u8>), Stop>
    ensures value { Gives (λ x. ((x.0, x.1.items), words.new)) result
        (word_at (pair_of page_size after) words.old) }
    ensures fits { IfOk result (λ x. length x.1.items ≤ page_size) }
{
    let (word, left) = words.word()?;
    let (page, text) = numbered_text(after, word).ok_or(Stop::Fault(left))?;
    let bytes = bytes_of_text(alloc, page_size, text, left)?;
    Ok((page, bytes))
}

// The page number above another one that stands before the first `=`, and the text after it.
fn numbered_text(after: u32, word: &[u8]) -> Option<(u32, &[u8])>
    ensures { MatchOption result (numbered_text after word.now ≡ None)
        (λ x. numbered_text after word.now ≡ Some (x.0, x.1.now)) }
{
    let equals = equals_in(word)?;
    let page = number_in(&word[..equals], u64::from(after) + 1, u64::from(u32::MAX))?;
    Some((page as u32, &word[equals + 1..]))
}

// Where the first `=` is.
fn equals_in(word: &[u8]) -> Option<usize>
    ensures { result ≡ position (λ b. b == 61) word.now }
{
    word.iter().position(|byte| *byte == b'=')
}

// The bytes that a page's text writes; a stop is at a place with so many bytes left.
fn bytes_of_text(alloc: Global, page_size: u32, text: &[u8], left: usize) -> Result<Vec<u8>, Stop>
    ensures value { Gives (λ v. v.items) result (ok_or (bytes_of_text page_size text.now) left) }
    ensures fits { IfOk result (λ v. length v.items ≤ page_size) }
{
    if text == b"-".as_slice() {
        return Ok(Vec::new(alloc));
    }
    let count = text.len() / 2;
    if count == 0 {
        return Err(Stop::Fault(left));
    }
    if count > page_size as usize {
        return Err(Stop::Fault(left));
    }
    if !all_lower_hex(text) {
        return Err(Stop::Fault(left));
    }
    let mut bytes = vec![in alloc; 0; count]?;
    decode(text, &mut bytes).ok_or(Stop::Fault(left))?;
    Ok(bytes)
}

// Bytes filled up with zeros.
#[tactic(auto, using(crate::proofs::Pages::padded_resized))]
fn padded(page_size: u32, bytes: Vec<u8>) -> Result<Seq<u8>, AllocError>
    requires { length bytes.items ≤ page_size }
    ensures { IfOk result (λ p. p ≡ padded page_size bytes.items) }
{
    let mut page = bytes;
    page.resize(page_size as usize, 0)?;
    Ok(Seq::of(page))
}

// Writes the bytes of hex digits in lower case, or answers `None` where one digit is left over.
fn decode(word: &[u8], out: &mut [u8]) -> Option<()>
    requires length { length out.old ≡ length word.now / 2 }
    requires lower { list_all is_lower_hex word.now ≡ true }
    ensures { MatchOption result (unhexed word.now ≡ None) (λ _. unhexed word.now ≡ Some out.new) }
{
    hex::decode_to_slice(word, out).ok()
}

// Whether each byte is a hex digit in lower case.
fn all_lower_hex(word: &[u8]) -> bool
    ensures { result ≡ list_all is_lower_hex word.now }
{
    word.iter()
        .all(|byte| matches!(byte, b'0'..=b'9' | b'a'..=b'f'))
}
