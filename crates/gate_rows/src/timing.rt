// How long work takes.
use anyhow::{Context, Result, bail};
use rows::Answer;
use std::alloc::Global;
use std::time::Instant;

/// Work that is timed.
pub(crate) trait Work {
    /// Does it once, and says whether it was done.
    fn is_done(&self, alloc: Global) -> bool;
}

/// The microseconds that the work takes, done so often, where there is work.
pub(crate) fn timed<W: Work>(rt: &HostRuntime, count: u64, work: Option<&W>) -> Result<Answer> {
    let work = work.context("nothing is to be done")?;
    let start = Instant::now(rt)?;
    for _ in 0..count {
        if !work.is_done(rt.alloc()) {
            bail!("the work isn't done");
        }
    }
    let micros = start.elapsed(rt)?.as_micros();
    Answer::display(rt.alloc(), &micros)
}
