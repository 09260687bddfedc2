// The program over documents and an output in memory.
//
//     gate.run WORDS                      STATUS TEXT, with room for 300 bytes
//     gate.run_in ROOM WORDS              STATUS LEFT TEXT, with so much room, at most 100, and what of it is left
//     gate.run_over PATH BYTES WORDS      STATUS TEXT, where these bytes were put under the path before
//     gate.run_failing CALL WORDS         STATUS TEXT, where this fetch, counted from 1, is to fail
//     gate.run_fixed WORDS                STATUS TEXT, over a cabinet that never fails
//     gate.asked WORDS                    the paths that the cabinet was asked for, each behind a bar
//
// WORDS are those of the program, each behind a bar. What they name is held where it is a file of the folder `data`,
// or `full` or `long`, which are spaces up to the greatest length of a document and one above it.
use crate::outcomes::{program_words, run_untold, status_and_text, status_left_and_text};
use anyhow::{Result, bail};
use picky_gate::{FixedCabinet, MemoryCabinet};
use rows::{Answer, Words};
use std::alloc::{AllocError, Global};
use std::fs;

const LIMIT: usize = 1_048_576;

fn document(rt: &HostRuntime, path: &str) -> Result<Option<Vec<u8>>, AllocError> {
    let alloc = rt.alloc();
    match path {
        "full" => Ok(Some(vec![in alloc; b' '; LIMIT]?)),
        "long" => Ok(Some(vec![in alloc; b' '; LIMIT + 1]?)),
        _ => Ok(fs::read(rt, path).ok()),
    }
}

fn cabinet(rt: &HostRuntime, words: &[String]) -> Result<MemoryCabinet, AllocError> {
    let mut cabinet = MemoryCabinet::new(rt.alloc());
    for word in words {
        if let Some(bytes) = document(rt, word)? {
            cabinet.put(word, bytes)?;
        }
    }
    Ok(cabinet)
}

pub(crate) fn answer(rt: &HostRuntime, call: &str, words: &mut Words<'_>) -> Result<Answer> {
    match call {
        "run" => run_with_room(rt, words),
        "run_in" => run_in(rt, words),
        "run_over" => run_over(rt, words),
        "run_failing" => run_failing(rt, words),
        "run_fixed" => run_fixed(rt, words),
        "asked" => asked(rt, words),
        _ => bail!("no such call"),
    }
}

fn run_with_room(rt: &HostRuntime, words: &mut Words<'_>) -> Result<Answer> {
    let words = program_words(rt.alloc(), words)?;
    let mut cabinet = cabinet(rt, &words)?;
    status_and_text(rt.alloc(), &words, &mut cabinet, 300)
}

fn run_in(rt: &HostRuntime, words: &mut Words<'_>) -> Result<Answer> {
    let room = words.size()?;
    let words = program_words(rt.alloc(), words)?;
    let mut cabinet = cabinet(rt, &words)?;
    status_left_and_text(rt.alloc(), &words, &mut cabinet, room)
}

fn run_over(rt: &HostRuntime, words: &mut Words<'_>) -> Result<Answer> {
    let path = words.next();
    let bytes = words.bytes(rt.alloc())?;
    let words = program_words(rt.alloc(), words)?;
    let mut cabinet = cabinet(rt, &words)?;
    cabinet.put(path, bytes)?;
    status_and_text(rt.alloc(), &words, &mut cabinet, 100)
}

fn run_failing(rt: &HostRuntime, words: &mut Words<'_>) -> Result<Answer> {
    let call = words.parsed::<u64>()?;
    let words = program_words(rt.alloc(), words)?;
    let mut cabinet = cabinet(rt, &words)?;
    cabinet.fail_at(call)?;
    status_and_text(rt.alloc(), &words, &mut cabinet, 100)
}

fn fixed_cabinet(rt: &HostRuntime, words: &[String]) -> Result<FixedCabinet, AllocError> {
    let mut cabinet = FixedCabinet::new(rt.alloc());
    for word in words {
        if let Some(bytes) = document(rt, word)? {
            cabinet.put(word, bytes)?;
        }
    }
    Ok(cabinet)
}

fn run_fixed(rt: &HostRuntime, words: &mut Words<'_>) -> Result<Answer> {
    let words = program_words(rt.alloc(), words)?;
    let mut cabinet = fixed_cabinet(rt, &words)?;
    status_and_text(rt.alloc(), &words, &mut cabinet, 100)
}

// Paths, each behind a bar.
fn with_bars(alloc: Global, paths: &[String]) -> Result<String, AllocError> {
    let mut text = String::new(alloc);
    for path in paths {
        text.push('|')?;
        text.push_str(path)?;
    }
    Ok(text)
}

fn asked(rt: &HostRuntime, words: &mut Words<'_>) -> Result<Answer> {
    let words = program_words(rt.alloc(), words)?;
    let mut cabinet = cabinet(rt, &words)?;
    run_untold(rt.alloc(), &words, &mut cabinet, 100)?;
    let paths = with_bars(rt.alloc(), cabinet.asked())?;
    Answer::lines(rt.alloc(), &paths)
}
