ghost use Rattle.std.specs.Prelude.{◌≡◌};
ghost use Rattle.bcv_model.specs.Script.{word_at, last_word_at, names_at};
ghost use Rattle.bcv_model.specs.Words.{name_of};
ghost use Rattle.bcv_script.specs.Reading.{Gives};

use crate::stop::Stop;
use crate::words::Words;
use bcv_base::DbName;

// The database that the next word names.
pub fn name(words: &mut Words) -> Result<DbName, Stop>
    ensures { Gives (λ d. (d, words.new)) result (word_at name_of words.old) }
{
    let (word, left) = words.word()?;
    DbName::read(word).ok_or(Stop::Fault(left))
}

// The database that the last word names.
pub fn last_name(words: &mut Words) -> Result<DbName, Stop>
    ensures { Gives (λ d. d) result (last_word_at name_of words.old) }
{
    let name = name(words)?;
    words.end()?;
    Ok(name)
}

// The databases that the last two words name.
pub fn names(words: &mut Words) -> Result<(DbName, DbName), Stop>
    ensures { Gives (λ x. x) result (names_at words.old) }
{
    let from = name(words)?;
    let to = last_name(words)?;
    Ok((from, to))
}
