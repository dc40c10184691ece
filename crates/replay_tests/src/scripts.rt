//! A script, each line with its reply.
use crate::top::replayed;
use std::alloc::{AllocError, Global};
use std::test::Fail;

// The event of a line that has its reply after ` : `.
fn event_in(line: &str) -> &str {
    match line.split_once(" : ") {
        Some((event, _)) => event,
        None => line,
    }
}

// The reply of a line that has it after ` : `.
fn reply_in(line: &str) -> &str {
    match line.split_once(" : ") {
        Some((_, reply)) => reply,
        None => "a line with its reply",
    }
}

// The events of the lines, a line each.
fn events_of(alloc: Global, text: &str) -> Result<String, AllocError> {
    let mut script = String::new(alloc);
    for line in text.lines() {
        script.push_str(event_in(line))?;
        script.push('\n')?;
    }
    Ok(script)
}

// What a replay of a script writes.
fn written(alloc: Global, script: &str) -> Result<String, AllocError> {
    let ran = replayed(alloc, script.as_bytes(), 65536, &[], &[])?;
    let mut text = String::new(alloc);
    for byte in ran.text.as_slice() {
        text.push(char::from(*byte))?;
    }
    Ok(text)
}

/// Replays a script, of which each line after the first has its reply after ` : `, and answers the first line whose reply is
/// another one, with that reply.
pub(crate) fn replay(alloc: Global, text: &str) -> Result<Option<String>, Fail> {
    let script = events_of(alloc, text)?;
    let said = written(alloc, script.as_str())?;
    let mut replies = said.as_str().lines();
    let mut lines = text.lines();
    let _ = lines.next();
    for line in lines {
        let got = replies.next().unwrap_or("no reply");
        if got != reply_in(line) {
            let mut wrong = String::from_str(alloc, line)?;
            wrong.push_str(" >> ")?;
            wrong.push_str(got)?;
            return Ok(Some(wrong));
        }
    }
    Ok(None)
}

/// The replies to a script after the first so many, with bars before them.
pub(crate) fn answers(alloc: Global, text: &str, quiet: usize) -> Result<String, Fail> {
    let said = written(alloc, text)?;
    let mut all = String::new(alloc);
    for (number, reply) in said.as_str().lines().enumerate() {
        if number >= quiet {
            all.push_str(" | ")?;
            all.push_str(reply)?;
        }
    }
    Ok(all)
}
