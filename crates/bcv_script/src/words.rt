ghost use Rattle.std.specs.Prelude.{◌≡◌, ◌≢◌, ◌==◌, [], true, false, Err, Option};
ghost use Rattle.std.specs.List.{position};
ghost use Rattle.bcv_model.specs.Script.{ended};
ghost use Rattle.bcv_script.specs.Left.{TakesWord, HasMore};
ghost use Rattle.bcv_script.specs.Reading.{Gives};

use crate::stop::Stop;
use std::marker::Model;

// The words of a line that are left, parted by exactly one space.
#[derive(Drop)]
pub struct Words<'a> {
    rest: Option<&'a [u8]>,
}

impl<'a> Model for Words<'a> {
    ghost use Rattle.std.specs.Prelude.{ℕ, List};
    ghost use Rattle.std.specs.Coded.{coded_list, coded_ℕ};
    ghost use Rattle.bcv_script.specs.Left.{words_left};

    ghost Value = { List (List ℕ) };

    ghost coded = { coded_list (coded_list coded_ℕ) };

    ghost view = { λ w. words_left w.rest };
}

impl<'a> Words<'a> {
    ghost use Rattle.bcv_model.specs.Words.{words_of};

    // The words of a line.
    pub fn of(line: &'a [u8]) -> Words<'a>
        ensures { result ≡ words_of line.now }
    {
        Words { rest: Some(line) }
    }

    // Whether the line was taken to its end.
    pub fn is_empty(&self) -> bool
        ensures yes { result ≡ true → self.now ≡ [] }
        ensures no { result ≡ false → HasMore self.now }
    {
        match self.rest {
            Some(_) => false,
            None => true,
        }
    }

    // Takes the next word, with the number of bytes that the line has from it on.
    pub fn word(&mut self) -> Result<(&'a [u8], usize), Stop>
        ensures { TakesWord result self.old self.new }
    {
        let line = self.rest.ok_or(Stop::Fault(0))?;
        match space_in(line) {
            Some(end) => {
                self.rest = Some(&line[end + 1..]);
                Ok((&line[..end], line.len()))
            }
            None => {
                self.rest = None;
                Ok((line, line.len()))
            }
        }
    }

    // Stops where another word follows.
    pub fn end(&self) -> Result<(), Stop>
        ensures ended { Gives (λ _. tt) result (ended self.now) }
        ensures takes_no_memory { result ≢ Err Stop.NoMemory }
    {
        match self.rest {
            Some(line) => Err(Stop::Fault(line.len())),
            None => Ok(()),
        }
    }
}

// Where the first space is.
fn space_in(line: &[u8]) -> Option<usize>
    ensures { result ≡ position (λ b. b == 32) line.now }
{
    line.iter().position(|byte| *byte == b' ')
}
