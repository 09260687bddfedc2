// Inputs that are made here, of a count.
//
//     der_long.sequences COUNT      so many SEQUENCEs, each the whole contents of the one before it: how many readers are
//                                   nested in one another before one is refused, and its fault
//     der_long.headers COUNT        the same of so many headers of five bytes, each the contents of the one before it
//     der_long.numbers COUNT        whether a SEQUENCE of so many numbers is read as it was written
use crate::der::faults::refusal;
use crate::der::plain::{bad_row, encoding_of, nested, sequence_of};
use crate::der::values::is_read_of;
use anyhow::Result;
use picky_asn1_wrapper::Asn1SequenceOf;
use picky_der::{DerError, DerReader};
use rows::{Answer, Words};
use std::alloc::{AllocError, Global};

pub fn answer(alloc: Global, call: &str, words: &mut Words<'_>) -> Result<Answer> {
    let count = words.parsed()?;
    match call {
        "sequences" => nested_readers(alloc, &sequences_in_sequences(alloc, count)?),
        "headers" => nested_readers(alloc, &nested_headers(alloc, count.min(200_000))?),
        "numbers" => numbers(alloc, count),
        _ => bad_row("no such call"),
    }
}

fn nested_readers(alloc: Global, bytes: &[u8]) -> Result<Answer> {
    let mut reader = DerReader::new(bytes);
    for depth in 0..1000u32 {
        match nested(&mut reader) {
            Ok(inner) => reader = inner,
            Err(fault) => {
                let fault = refusal(fault)?;
                return Answer::pair(alloc, Answer::Size(depth as usize), fault);
            }
        }
    }
    bad_row("a thousand readers are nested")
}

fn sequences_in_sequences(alloc: Global, count: u32) -> Result<Vec<u8>, DerError> {
    let mut bytes = Vec::new(alloc);
    for _ in 0..count {
        bytes = sequence_of(alloc, &bytes)?;
    }
    Ok(bytes)
}

// Headers with three length bytes; the last 13,108 are filled by other values.
fn nested_headers(alloc: Global, count: u32) -> Result<Vec<u8>, AllocError> {
    let mut headers = Vec::new(alloc);
    for level in 0..count {
        push_header(&mut headers, 5 * (count as u64 - level as u64))?;
    }
    Ok(headers)
}

// The header of a value of so many bytes with its own, five of them.
fn push_header(headers: &mut Vec<u8>, left: u64) -> Result<(), AllocError> {
    if left > 65_540 {
        let [.., high, middle, low] = (left - 5).to_be_bytes();
        headers.extend_from_slice(&[0x30, 0x83, high, middle, low])
    } else {
        headers.extend_from_slice(&[0x05, 0x00, 0x05, 0x00, 0x30])
    }
}

fn numbers(alloc: Global, count: u32) -> Result<Answer> {
    let mut numbers = Vec::new(alloc);
    for number in 0..count {
        numbers.push(number)?;
    }
    let sequence = Asn1SequenceOf(numbers);
    let bytes = encoding_of(alloc, &sequence)?;
    Ok(Answer::Truth(is_read_of(alloc, &sequence, &bytes)?))
}
