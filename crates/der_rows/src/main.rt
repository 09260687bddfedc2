//! Rows over DER: lines that name a call and its arguments, answered by what the call gives.
#![tactic(auto)]

mod der;

use anyhow::Result;
use der::DerCalls;
use rows::answer_rows;
use std::process::ExitCode;

fn main(rt: HostRuntime) -> Result<ExitCode> {
    answer_rows::<DerCalls>(&rt)
}
