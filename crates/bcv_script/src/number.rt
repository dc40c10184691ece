ghost use Rattle.std.specs.Prelude.{◌≡◌, ◌≢◌, ◌+◌, ◌*◌, ◌^◌, ◌<◌, ◌≤◌, Err, IfOk, IfSome, SomeIff};
ghost use Rattle.std.specs.List.{list_all};
ghost use Rattle.bcv_model.specs.Script.{word_at, last_word_at};
ghost use Rattle.bcv_model.specs.Words.{is_digit, is_number, number_in};
ghost use Rattle.bcv_script.specs.Numbers.{small_value};
ghost use Rattle.bcv_script.specs.Reading.{Gives};

use crate::stop::Stop;
use crate::words::Words;

// The number that the next word writes, in a range.
pub fn number(words: &mut Words, low: u64, high: u64) -> Result<u64, Stop>
    ensures value { Gives (λ n. (n, words.new)) result (word_at (number_in low high) words.old) }
    ensures within { IfOk result (λ n. n ≤ high) }
    ensures takes_no_memory { result ≢ Err Stop.NoMemory }
{
    let (word, left) = words.word()?;
    number_in(word, low, high).ok_or(Stop::Fault(left))
}

// The number that the last word writes, in a range.
pub fn last_number(words: &mut Words, low: u64, high: u64) -> Result<u64, Stop>
    ensures value { Gives (λ n. n) result (last_word_at (number_in low high) words.old) }
    ensures within { IfOk result (λ n. n ≤ high) }
    ensures takes_no_memory { result ≢ Err Stop.NoMemory }
{
    let number = number(words, low, high)?;
    words.end()?;
    Ok(number)
}

/// The number that a word writes in decimal, where it lies in the range.
pub fn number_in(word: &[u8], low: u64, high: u64) -> Option<u64>
    ensures value { result ≡ number_in low high word.now }
    ensures within { IfSome result (λ n. n ≤ high) }
{
    let value = value(word)?;
    if value < low || high < value {
        return None;
    }
    Some(value)
}

// The number that a word writes, where it fits.
fn value(word: &[u8]) -> Option<u64>
    ensures { result ≡ small_value word.now }
{
    if !is_number(word) {
        return None;
    }
    let mut value: u64 = 0;
    for digit in word {
        value = with_digit(value, *digit - b'0')?;
    }
    Some(value)
}

// A number with one more digit at its end, where it fits.
fn with_digit(number: u64, digit: u8) -> Option<u64>
    ensures { SomeIff result (number * 10 + digit < 2 ^ 64) (number * 10 + digit) }
{
    number.checked_mul(10)?.checked_add(u64::from(digit))
}

// Digits, without a zero in front of others.
fn is_number(word: &[u8]) -> bool
    ensures { result ≡ is_number word.now }
{
    match word.first() {
        None => false,
        Some(first) => all_digits(word) && (word.len() == 1 || *first != b'0'),
    }
}

// Whether each byte is a digit.
fn all_digits(word: &[u8]) -> bool
    ensures { result ≡ list_all is_digit word.now }
{
    word.iter().all(|byte| byte.is_ascii_digit())
}
