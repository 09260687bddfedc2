//! Answers rows that name the calls of `picky_cipher`, to be compared with what standards and other programs say.
#![tactic(auto)]

mod block;
mod byte_aes;
mod cbc;
mod derived;
mod gcm;
mod given;
mod kdf;
mod pbes1;
mod slow;
mod wrap;

use anyhow::Result;
use rows::{Answer, Calls, Words, answer_rows, refused};
use std::alloc::Global;
use std::process::ExitCode;

struct Ciphers;

impl Calls for Ciphers {
    fn answer(alloc: Global, notion: &str, call: &str, words: &mut Words<'_>) -> Result<Answer> {
        match notion {
            "aes" => block::answer(alloc, call, words),
            "gcm" => gcm::answer(alloc, call, words),
            "wrap" => wrap::answer(alloc, call, words),
            "cbc" => cbc::answer(alloc, call, words),
            "pbes1" => pbes1::answer(alloc, call, words),
            "kdf" => kdf::answer(alloc, call, words),
            "derived" => derived::answer(alloc, call, words),
            _ => refused("no such notion"),
        }
    }
}

fn main(rt: HostRuntime) -> Result<ExitCode> {
    answer_rows::<Ciphers>(&rt)
}
