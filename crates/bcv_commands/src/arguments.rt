ghost use Rattle.std.specs.Prelude.{◌≡◌, ◌≤◌, length, map, option_map, string_bytes};
ghost use Rattle.std.specs.List.{list_all, position, position_or_len};
ghost use Rattle.bcv_commands.specs.Commands.{arguments_of, is_dashes, is_plain, none_of, one_of, two_of, three_of};
ghost use Rattle.bcv_commands.specs.Taking.{TakesArgument};

use std::marker::Model;

// The arguments of a command that are left: those in front of the first `--`, and those after it.
#[derive(Drop)]
pub struct Arguments<'a> {
    front: &'a [String],
    back: &'a [String],
}

impl<'a> Model for Arguments<'a> {
    ghost use Rattle.std.specs.Prelude.{ℕ, List, ◌++◌, map, string_bytes};
    ghost use Rattle.std.specs.Coded.{coded_list, coded_ℕ};

    ghost Value = { List (List ℕ) };

    ghost coded = { coded_list (coded_list coded_ℕ) };

    ghost view = { λ a. map string_bytes a.front.now ++ map string_bytes a.back.now };
}

impl<'a> Arguments<'a> {
    // The arguments that words after the command's own write, where none of them is refused.
    pub fn of(words: &'a [String]) -> Option<Arguments<'a>>
        ensures { result ≡ arguments_of (map string_bytes words.now) }
    {
        let end = dashes_in(words);
        let front = &words[..end];
        if !all_plain(front) {
            return None;
        }
        let back = &words[words.len().min(end + 1)..];
        Some(Arguments { front, back })
    }

    // Takes the next argument.
    fn next(&mut self) -> Option<&'a [u8]>
        ensures { TakesArgument result self.old self.new }
    {
        if let Some((first, front)) = self.front.split_first() {
            self.front = front;
            return Some(first.as_bytes());
        }
        let (first, back) = self.back.split_first()?;
        self.back = back;
        Some(first.as_bytes())
    }

    // Nothing, where no argument is left.
    pub fn none(self) -> Option<()>
        ensures { result ≡ none_of self.entry }
    {
        let mut rest = self;
        match rest.next() {
            Some(_) => None,
            None => Some(()),
        }
    }

    // The one argument, where there is just one.
    pub fn one(self) -> Option<&'a [u8]>
        ensures { option_map (λ a. a.now) result ≡ one_of self.entry }
    {
        let mut rest = self;
        let first = rest.next()?;
        rest.none()?;
        Some(first)
    }

    // The two arguments, where there are just two.
    pub fn two(self) -> Option<(&'a [u8], &'a [u8])>
        ensures { option_map (λ a. (a.0.now, a.1.now)) result ≡ two_of self.entry }
    {
        let mut rest = self;
        let first = rest.next()?;
        let second = rest.one()?;
        Some((first, second))
    }

    // The three arguments, where there are just three.
    pub fn three(self) -> Option<(&'a [u8], &'a [u8], &'a [u8])>
        ensures { option_map (λ a. (a.0.now, a.1.now, a.2.now)) result ≡ three_of self.entry }
    {
        let mut rest = self;
        let first = rest.next()?;
        let (second, third) = rest.two()?;
        Some((first, second, third))
    }
}

// Where the first `--` is, or the number of words.
fn dashes_in(words: &[String]) -> usize
    ensures place { result ≡ position_or_len is_dashes (map string_bytes words.now) }
    ensures within { result ≤ length words.now }
{
    first_dashes(words).unwrap_or(words.len())
}

fn first_dashes(words: &[String]) -> Option<usize>
    ensures { result ≡ position (λ w. is_dashes (string_bytes w)) words.now }
{
    words
        .iter()
        .position(|word| word.as_bytes() == b"--".as_slice())
}

// Whether no word begins with `-`.
fn all_plain(words: &[String]) -> bool
    ensures { result ≡ list_all (λ w. is_plain (string_bytes w)) words.now }
{
    words.iter().all(|word| is_plain(word.as_bytes()))
}

fn is_plain(word: &[u8]) -> bool
    ensures { result ≡ is_plain word.now }
{
    match word.first() {
        None => true,
        Some(byte) => *byte != b'-',
    }
}
