//! Answers rows that name the calls which make signed tokens, and make and verify HTTP signatures.
#![tactic(auto)]

mod builders;
mod header_texts;
mod keys;
mod printed;
mod requests;
mod shown;
mod tokens;

use anyhow::{Result, bail};
use rows::{Answer, Calls, Words, answer_rows};
use std::alloc::Global;
use std::process::ExitCode;

struct SigningCalls;

impl Calls for SigningCalls {
    fn answer(alloc: Global, notion: &str, call: &str, words: &mut Words<'_>) -> Result<Answer> {
        match notion {
            "token" | "claims" => tokens::answer(alloc, call, words),
            "http" => header_texts::answer(alloc, call, words),
            "request" => requests::answer(alloc, call, words),
            "build" => builders::answer(alloc, call, words),
            "print" => printed::answer(alloc, call, words),
            _ => bail!("no such notion"),
        }
    }
}

fn main(rt: HostRuntime) -> Result<ExitCode> {
    answer_rows::<SigningCalls>(&rt)
}
