// Records of fields.
//
//     der_record.read TYPE BYTES          what the value that is read is written as, or the fault
//     der_record.comes_back TYPE BYTES    whether the bytes are read as a value that is written as them
//     der_record.told BYTES               which case of an entry the bytes are
//     der_record.levels BYTES N           `read` where the bytes are a bag nested at most N levels, `none`, or the fault
use crate::der::faults::{encoded, refusal};
use crate::der::plain::{bad_row, next_value, value_of};
use crate::der::values::comes_back;
use anyhow::Result;
use der_examples::{Bag, Batch, Entry, read_levels, write_levels};
use picky_der::{DerRead, DerReader, DerWrite};
use rows::{Answer, Words};
use std::alloc::Global;

pub fn answer(alloc: Global, call: &str, words: &mut Words<'_>) -> Result<Answer> {
    match call {
        "told" => told(&next_value(alloc, words)?),
        "levels" => levels(alloc, words),
        _ => record_of(alloc, call, words),
    }
}

fn record_of(alloc: Global, call: &str, words: &mut Words<'_>) -> Result<Answer> {
    match words.next() {
        "batch" => record::<Batch>(alloc, call, words),
        "entry" => record::<Entry>(alloc, call, words),
        _ => bad_row("no such type"),
    }
}

fn record<T: DerRead + DerWrite + Drop>(
    alloc: Global,
    call: &str,
    words: &mut Words<'_>,
) -> Result<Answer> {
    let bytes = words.bytes(alloc)?;
    match call {
        "read" => read::<T>(alloc, &bytes),
        "comes_back" => comes_back::<T>(alloc, &bytes),
        _ => bad_row("no such call"),
    }
}

fn read<T: DerRead + DerWrite + Drop>(alloc: Global, bytes: &[u8]) -> Result<Answer> {
    match value_of::<T>(alloc, bytes) {
        Ok(value) => encoded(alloc, &value),
        Err(fault) => refusal(fault),
    }
}

fn told(entry: &Entry) -> Result<Answer> {
    match entry {
        Entry::Name(_) => Ok(Answer::Word("name")),
        Entry::Count(_) => Ok(Answer::Word("count")),
        Entry::Unknown { .. } => Ok(Answer::Word("unknown")),
    }
}

fn levels(alloc: Global, words: &mut Words<'_>) -> Result<Answer> {
    let bytes = words.bytes(alloc)?;
    let levels = words.parsed()?;
    match read_levels::<Bag>(alloc, &mut DerReader::new(&bytes), levels) {
        Ok(Some(bag)) => written(alloc, &bag, levels, &bytes),
        Ok(None) => Ok(Answer::Word("none")),
        Err(fault) => refusal(fault),
    }
}

// A bag that was read is written as the bytes that it was read from.
fn written(alloc: Global, bag: &Bag, levels: u32, bytes: &[u8]) -> Result<Answer> {
    let mut out = Vec::new(alloc);
    match write_levels(alloc, bag, levels, &mut out) {
        Ok(()) if bytes.starts_with(&out) => Ok(Answer::Word("read")),
        Ok(()) => Ok(Answer::Word("changed")),
        Err(fault) => refusal(fault),
    }
}
