// What the timed calls have in common: bytes that are counted out, and a line for each call.
use anyhow::Result;
use std::alloc::{AllocError, Global};
use std::time::Instant;

pub(crate) const MEBIBYTE: usize = 1 << 20;

// So many bytes counted out: byte `j` is `j % 251`.
pub(crate) fn counted(alloc: Global, size: usize) -> Result<Vec<u8>, AllocError> {
    let mut bytes = Vec::new(alloc);
    for j in 0..size {
        bytes.push((j % 251) as u8)?;
    }
    Ok(bytes)
}

// Prints a call's name, how much it did, and the microseconds since then.
pub(crate) fn report(rt: &HostRuntime, name: &str, count: u64, start: &Instant) -> Result<()> {
    let micros = start.elapsed(rt)?.as_micros();
    println!(rt; "{name} {count} {micros}")?;
    Ok(())
}
