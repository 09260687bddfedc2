//! Answers rows that name the calls of the gate: the program over documents and outputs in memory, and over files; and how long the
//! steps of admitting a token take.
#![tactic(auto)]

mod admission;
mod files;
mod generated;
mod outcomes;
mod runs;
mod speed;
mod timing;

use anyhow::{Result, bail};
use rows::{Answer, HostCalls, Words, answer_host_rows};
use std::process::ExitCode;

struct Gate;

impl HostCalls for Gate {
    fn answer(rt: &HostRuntime, notion: &str, call: &str, words: &mut Words<'_>) -> Result<Answer> {
        match notion {
            "gate" => runs::answer(rt, call, words),
            "file" => files::answer(rt, call, words),
            "generated" => generated::answer(rt, call, words),
            "speed" => speed::answer(rt, call, words),
            _ => bail!("no such call"),
        }
    }
}

fn main(rt: HostRuntime) -> Result<ExitCode> {
    answer_host_rows::<Gate>(&rt)
}
