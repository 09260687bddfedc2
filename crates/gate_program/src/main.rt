//! Whether an authorization text is admitted: the gate over the real files and the standard output.
#![tactic(auto)]

use picky_gate::{FileCabinet, StdSink, run};
use std::alloc::Global;
use std::io::ErrorKind;
use std::process::ExitCode;
use std::rt::Env;
use std::{env, io};

/// The words after the program's name.
fn words_of<R: Env + AllocGlobal>(rt: &R, alloc: Global) -> io::Result<Vec<String>> {
    let mut args = env::args(rt)?;
    let _program = args.next();
    let words = args.collect(alloc)?;
    Ok(words)
}

fn main(rt: HostRuntime) -> ExitCode {
    let alloc = rt.alloc();
    let words = match words_of(&rt, alloc) {
        Ok(words) => words,
        Err(error) => {
            if error.kind() == ErrorKind::OutOfMemory {
                return ExitCode::from(5);
            }
            Vec::new(alloc)
        }
    };
    let mut cabinet = FileCabinet::new(&rt);
    let mut out = StdSink::new(&rt);
    let status = run(alloc, &words, &mut cabinet, &mut out);
    ExitCode::from(status.code)
}
