ghost use Rattle.std.specs.Prelude.{◌≡◌};
ghost use Rattle.bcv_model.specs.Script.{word_at, last_word_at, verbs, outcomes, outcome_at};
ghost use Rattle.bcv_model.specs.Words.{meaning_in};
ghost use Rattle.bcv_script.specs.Reading.{Gives};

use crate::stop::Stop;
use crate::words::Words;
use bcv_base::Outcome;
use bcv_model::Verb;

// What the line says of the client, by the next word.
pub fn verb(words: &mut Words) -> Result<Verb, Stop>
    ensures { Gives (λ v. (v, words.new)) result (word_at (meaning_in verbs) words.old) }
{
    let (word, left) = words.word()?;
    verb_of(word).ok_or(Stop::Fault(left))
}

fn verb_of(word: &[u8]) -> Option<Verb>
    ensures { result ≡ meaning_in verbs word.now }
{
    if word == b"up".as_slice() {
        Some(Verb::Up)
    } else if word == b"crash".as_slice() {
        Some(Verb::Crash)
    } else if word == b"fuse".as_slice() {
        Some(Verb::Fuse)
    } else if word == b"fail".as_slice() {
        Some(Verb::Fail)
    } else if word == b"begin".as_slice() {
        Some(Verb::Begin)
    } else if word == b"read".as_slice() {
        Some(Verb::Read)
    } else if word == b"hold".as_slice() {
        Some(Verb::Hold)
    } else if word == b"look".as_slice() {
        Some(Verb::Look)
    } else if word == b"free".as_slice() {
        Some(Verb::Free)
    } else if word == b"end".as_slice() {
        Some(Verb::End)
    } else if word == b"commit".as_slice() {
        Some(Verb::Commit)
    } else if word == b"revert".as_slice() {
        Some(Verb::Revert)
    } else if word == b"list".as_slice() {
        Some(Verb::List)
    } else if word == b"create".as_slice() {
        Some(Verb::Create)
    } else if word == b"new".as_slice() {
        Some(Verb::New)
    } else if word == b"upload".as_slice() {
        Some(Verb::Upload)
    } else if word == b"copy".as_slice() {
        Some(Verb::Copy)
    } else if word == b"drop".as_slice() {
        Some(Verb::Drop)
    } else if word == b"poll".as_slice() {
        Some(Verb::Poll)
    } else if word == b"cleanup".as_slice() {
        Some(Verb::Cleanup)
    } else if word == b"resolve".as_slice() {
        Some(Verb::Resolve)
    } else if word == b"step".as_slice() {
        Some(Verb::Step)
    } else {
        None
    }
}

// The outcome of a step's request, by the last word, where there is one.
pub fn outcome(words: &mut Words) -> Result<Outcome, Stop>
    ensures { Gives (λ o. o) result (outcome_at words.old) }
{
    if words.is_empty() {
        return Ok(Outcome::Ok);
    }
    let (word, left) = words.word()?;
    let outcome = outcome_of(word).ok_or(Stop::Fault(left))?;
    words.end()?;
    Ok(outcome)
}

fn outcome_of(word: &[u8]) -> Option<Outcome>
    ensures { result ≡ meaning_in outcomes word.now }
{
    if word == b"fail".as_slice() {
        Some(Outcome::Fail)
    } else if word == b"lost".as_slice() {
        Some(Outcome::Lost)
    } else {
        None
    }
}
