//! Answers rows that name the calls of base64, JSON, keys, key sets, headers, records and signed tokens.
#![tactic(auto)]

mod base64;
mod dates;
mod headers;
mod json;
mod jwks;
mod keys;
mod messages;
mod pairs;
mod records;
mod shown;
mod signatures;
mod tokens;

use anyhow::{Result, bail};
use rows::{Answer, Calls, Words, answer_rows};
use std::alloc::Global;
use std::process::ExitCode;

struct TokenCalls;

impl Calls for TokenCalls {
    fn answer(alloc: Global, notion: &str, call: &str, words: &mut Words<'_>) -> Result<Answer> {
        match notion {
            "base64" => base64::answer(alloc, call, words),
            "json" => json::answer(alloc, call, words),
            "key" => keys::answer(alloc, call, words),
            "key_in_json" => jwks::answer(alloc, call, words),
            "header_in_json" => headers::answer(alloc, call, words),
            "records" => records::answer(alloc, call, words),
            "jws" => tokens::answer(alloc, call, words),
            "jwt" => dates::answer(alloc, call, words),
            "date" => dates::answer_of_date(alloc, call, words),
            "message" => messages::answer(alloc, call, words),
            _ => bail!("no such call"),
        }
    }
}

fn main(rt: HostRuntime) -> Result<ExitCode> {
    answer_rows::<TokenCalls>(&rt)
}
