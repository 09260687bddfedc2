// The files of the folder that the program runs in, which are those of `data`.
//
//     file.fetch PATH LIMIT       the bytes, or the refusal
//     file.digest PATH LIMIT      how many bytes, and their SHA-256
//     file.run WORDS              STATUS TEXT of the program over these files, with room for 100 bytes in memory
use crate::outcomes::{program_words, status_and_text};
use anyhow::{Result, bail};
use picky_gate::{Cabinet, FetchFault, FileCabinet};
use rows::{Answer, Words};
use sha2::{Digest, Sha256};
use std::alloc::Global;

pub(crate) fn answer(rt: &HostRuntime, call: &str, words: &mut Words<'_>) -> Result<Answer> {
    match call {
        "fetch" => fetch(rt, words),
        "digest" => digest(rt, words),
        "run" => run_over_files(rt, words),
        _ => bail!("no such call"),
    }
}

fn fetched(rt: &HostRuntime, words: &mut Words<'_>) -> Result<Result<Vec<u8>, FetchFault>> {
    let path = words.next();
    let limit = words.size()?;
    let mut cabinet = FileCabinet::new(rt);
    Ok(cabinet.fetch(rt.alloc(), path, limit))
}

fn fetch(rt: &HostRuntime, words: &mut Words<'_>) -> Result<Answer> {
    match &fetched(rt, words)? {
        Ok(bytes) => Answer::bytes(rt.alloc(), bytes),
        Err(fault) => Answer::debug(rt.alloc(), fault),
    }
}

fn size_and_digest(alloc: Global, bytes: &[u8]) -> Result<Answer> {
    let digest = Answer::bytes(alloc, &Sha256::digest(bytes))?;
    Answer::pair(alloc, Answer::Size(bytes.len()), digest)
}

fn digest(rt: &HostRuntime, words: &mut Words<'_>) -> Result<Answer> {
    match &fetched(rt, words)? {
        Ok(bytes) => size_and_digest(rt.alloc(), bytes),
        Err(fault) => Answer::debug(rt.alloc(), fault),
    }
}

fn run_over_files(rt: &HostRuntime, words: &mut Words<'_>) -> Result<Answer> {
    let words = program_words(rt.alloc(), words)?;
    let mut cabinet = FileCabinet::new(rt);
    status_and_text(rt.alloc(), &words, &mut cabinet, 100)
}
