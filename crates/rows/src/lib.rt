//! Rows: lines that name a call and its arguments, answered by what the call gives.
//!
//! - [`Words`]: the arguments of a row; [`refused`], [`present`]: the error of a row that is no call.
//! - [`Answer`]: what a call gives.
//! - [`Calls`], [`answer_rows`]: the calls that a program knows, and its whole standard input answered by them.
//! - [`HostCalls`], [`answer_host_rows`]: the same, where calls reach the files of the folder that the program runs in.
#![tactic(auto)]

mod answer;
mod words;

pub use answer::Answer;
use anyhow::Result;
use std::alloc::Global;
use std::fmt::Display;
use std::io;
use std::process::ExitCode;
use words::cut;
pub use words::{Words, present, refused};

/// The calls that a program knows.
pub trait Calls {
    /// What the call `notion.call` gives of the words behind it, which it takes all.
    fn answer(alloc: Global, notion: &str, call: &str, words: &mut Words<'_>) -> Result<Answer>;
}

/// The calls that a program knows, with the runtime for those that reach files.
pub trait HostCalls {
    /// What the call `notion.call` gives of the words behind it, which it takes all.
    fn answer(rt: &HostRuntime, notion: &str, call: &str, words: &mut Words<'_>) -> Result<Answer>;
}

impl<C: Calls> HostCalls for C {
    fn answer(rt: &HostRuntime, notion: &str, call: &str, words: &mut Words<'_>) -> Result<Answer> {
        <C as Calls>::answer(rt.alloc(), notion, call, words)
    }
}

// The notion, the call and the words of a row `NAME: NOTION.CALL WORD..`.
fn asked(row: &str) -> (&str, &str, Words<'_>) {
    let (_, asked) = row.split_once(": ").unwrap_or(("", row));
    let mut words = Words::new(asked);
    let (notion, call) = cut(words.next(), ".");
    (notion, call, words)
}

// An empty line or a comment.
fn is_copied(row: &str) -> bool {
    matches!(row.as_bytes(), [] | [b'#', ..])
}

// The answer of a call that took all words.
fn complete(answer: Answer, words: &Words<'_>) -> Result<Option<Answer>> {
    match words.end() {
        Ok(()) => Ok(Some(answer)),
        Err(cause) => {
            drop(answer);
            Err(cause)
        }
    }
}

// What the call of a row gives, or None where the row is only copied.
fn answer_of<C: HostCalls>(rt: &HostRuntime, row: &str) -> Result<Option<Answer>> {
    if is_copied(row) {
        return Ok(None);
    }
    let (notion, call, mut words) = asked(row);
    complete(C::answer(rt, notion, call, &mut words)?, &words)
}

// Prints a row and what it gives.
fn print<T: Display>(rt: &HostRuntime, row: &str, arrow: &str, given: &T) -> io::Result<()> {
    println!(rt; "{row}{arrow}{given}")
}

// Prints a row with its answer or its error.
fn tell(rt: &HostRuntime, row: &str, answer: &Result<Option<Answer>>) -> io::Result<()> {
    match answer {
        Ok(Some(answer)) => print(rt, row, " => ", answer),
        Ok(None) => rt.println(row),
        Err(cause) => print(rt, row, " => error: ", cause),
    }
}

// Answers a row, and says whether it has no answer.
fn fails<C: HostCalls>(rt: &HostRuntime, row: &str) -> io::Result<bool> {
    let answer = answer_of::<C>(rt, row);
    let failed = answer.is_err();
    told(failed, tell(rt, row, &answer))
}

// Answers the rows of a text, and gives the status, 1 where one has no answer.
fn status_of<C: HostCalls>(rt: &HostRuntime, text: &str) -> io::Result<u8> {
    let mut status = 0;
    let mut rest = text;
    for _ in 0..text.len() {
        if rest.is_empty() {
            break;
        }
        let (row, behind) = cut(rest, "\n");
        rest = behind;
        if fails::<C>(rt, row)? {
            status = 1;
        }
    }
    Ok(status)
}

// Whether a row that was printed has no answer.
fn told(failed: bool, printed: io::Result<()>) -> io::Result<bool> {
    printed?;
    Ok(failed)
}

/// Answers the rows of the standard input, each by the row itself, ` => ` and what its call gives.
///
/// A row is `NAME: NOTION.CALL WORD..`; its name says what it shows. An empty line and a comment, which begins
/// with `#`, are copied. A row that is no call is answered by `error` and its cause, and then the status is 1.
pub fn answer_rows<C: Calls>(rt: &HostRuntime) -> Result<ExitCode> {
    answer_host_rows::<C>(rt)
}

/// Answers the rows of the standard input, as [`answer_rows`], by calls that reach files.
pub fn answer_host_rows<C: HostCalls>(rt: &HostRuntime) -> Result<ExitCode> {
    let text = io::read_to_string(rt.alloc(), rt.reader())?;
    Ok(ExitCode::from(status_of::<C>(rt, &text)?))
}
