// What a run is given, and what it comes to.
use anyhow::{Context, Result, bail};
use picky_gate::{Cabinet, MemorySink, Sink, run};
use rows::{Answer, Words};
use std::alloc::{AllocError, Global};
use std::str;

/// The words of the program, each behind a bar.
pub(crate) fn program_words(alloc: Global, words: &mut Words<'_>) -> Result<Vec<String>> {
    let mut pieces = words.rest().split('|');
    if pieces.next().is_some_and(|first| !first.is_empty()) {
        bail!("the first word has no bar");
    }
    let mut found = Vec::new(alloc);
    for piece in pieces {
        found.push(String::from_str(alloc, piece)?)?;
    }
    Ok(found)
}

// What a run comes to.
#[derive(Drop)]
struct Outcome {
    code: u8,
    out: MemorySink,
}

// The program over a cabinet, into so much room.
fn outcome_of<C: Cabinet>(
    alloc: Global,
    words: &[String],
    cabinet: &mut C,
    room: usize,
) -> Result<Outcome, AllocError> {
    let mut out = MemorySink::new(alloc, room)?;
    let status = run(alloc, words, cabinet, &mut out);
    Ok(Outcome {
        code: status.code,
        out,
    })
}

/// Runs the program, and tells nothing of it.
pub(crate) fn run_untold<C: Cabinet>(
    alloc: Global,
    words: &[String],
    cabinet: &mut C,
    room: usize,
) -> Result<(), AllocError> {
    let _outcome = outcome_of(alloc, words, cabinet, room)?;
    Ok(())
}

// What was written.
fn written(alloc: Global, out: &MemorySink) -> Result<Answer> {
    let text = str::from_utf8(out.written())
        .ok()
        .context("what was written is no text")?;
    Answer::lines(alloc, text)
}

// The room that is left, of at most 100 bytes.
fn left(out: &mut MemorySink) -> usize {
    out.write(&[b'.'; 100]).unwrap_or(0)
}

/// The status, and what was written.
pub(crate) fn status_and_text<C: Cabinet>(
    alloc: Global,
    words: &[String],
    cabinet: &mut C,
    room: usize,
) -> Result<Answer> {
    let outcome = outcome_of(alloc, words, cabinet, room)?;
    let text = written(alloc, &outcome.out)?;
    Answer::pair(alloc, Answer::Size(usize::from(outcome.code)), text)
}

/// The status, how many bytes there is still room for, and what was written.
pub(crate) fn status_left_and_text<C: Cabinet>(
    alloc: Global,
    words: &[String],
    cabinet: &mut C,
    room: usize,
) -> Result<Answer> {
    let mut outcome = outcome_of(alloc, words, cabinet, room)?;
    let text = written(alloc, &outcome.out)?;
    let rest = Answer::pair(alloc, Answer::Size(left(&mut outcome.out)), text)?;
    Answer::pair(alloc, Answer::Size(usize::from(outcome.code)), rest)
}
