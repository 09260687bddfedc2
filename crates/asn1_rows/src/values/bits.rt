// Bit strings. One is given by its contents, the count of unused bits and the payload, and answered by them.
//
//     bits.with_len COUNT
//     bits.with_bytes PAYLOAD
//     bits.with_bytes_and_len PAYLOAD COUNT
//     bits.payload_view BITS                    the payload
//     bits.into_vec BITS                        the payload
//     bits.get_num_bits BITS
//     bits.get_num_unused_bits BITS
//     bits.get_num_buckets BITS
//     bits.get_bucket BITS INDEX
//     bits.is_set BITS INDEX
//     bits.set BITS INDEX TRUTH
//     bits.set_num_bits BITS COUNT
//     bits.set_bucket BITS INDEX BYTE
//     bits.get_bucket_mut BITS INDEX BYTE       the byte is written through what is lent
//     bits.payload_view_mut BITS                what is lent
//     bits.payload_write BITS INDEX BYTE        the byte is written through what `payload_view_mut` lends
//     bits.payload_fill BITS BYTE               all of what it lends is filled
//     bits.copy BITS
//     bits.eq BITS BITS
//     bits.debug BITS                           what `{:?}` prints
use crate::bad_row;
use anyhow::Result;
use picky_asn1::CopyIn;
use picky_asn1::bit_string::BitString;
use rows::{Answer, Words};
use std::alloc::Global;

pub(crate) fn answer(alloc: Global, call: &str, words: &mut Words<'_>) -> Result<Answer> {
    match call {
        "with_len" => with_len(alloc, words),
        "with_bytes" => with_bytes(alloc, words),
        "with_bytes_and_len" => with_bytes_and_len(alloc, words),
        "payload_view_mut" => Answer::bytes(alloc, bits(alloc, words)?.payload_view_mut()),
        "into_vec" => Answer::bytes(alloc, &Vec::from(bits(alloc, words)?)),
        "set" | "set_num_bits" | "payload_fill" => changed(alloc, call, words),
        "set_bucket" | "get_bucket_mut" | "payload_write" => changed(alloc, call, words),
        _ => of_bits(alloc, call, words),
    }
}

fn with_len(alloc: Global, words: &mut Words<'_>) -> Result<Answer> {
    let bits = BitString::with_len(alloc, words.size()?)?;
    Answer::bytes(alloc, bits.as_bytes())
}

fn with_bytes(alloc: Global, words: &mut Words<'_>) -> Result<Answer> {
    let bits = BitString::with_bytes(alloc, words.bytes(alloc)?)?;
    Answer::bytes(alloc, bits.as_bytes())
}

fn with_bytes_and_len(alloc: Global, words: &mut Words<'_>) -> Result<Answer> {
    let payload = words.bytes(alloc)?;
    let bits = of_payload(alloc, payload, words.size()?)?;
    Answer::bytes(alloc, bits.as_bytes())
}

// The bit string of so many bits of these bytes.
fn of_payload(alloc: Global, payload: Vec<u8>, count: usize) -> Result<BitString> {
    if payload.len() > 0x1000 || payload.len() != count.div_ceil(8) {
        return bad_row("so many bits have another payload");
    }
    Ok(BitString::with_bytes_and_len(alloc, payload, count)?)
}

// The bit string of these contents.
fn bits(alloc: Global, words: &mut Words<'_>) -> Result<BitString> {
    let mut payload = words.bytes(alloc)?;
    if payload.is_empty() {
        return bad_row("a count of unused bits is missing");
    }
    let unused = usize::from(payload.remove(0));
    let count = payload.len().saturating_mul(8).saturating_sub(unused);
    of_payload(alloc, payload, count)
}

fn changed(alloc: Global, call: &str, words: &mut Words<'_>) -> Result<Answer> {
    let mut bits = bits(alloc, words)?;
    change(call, &mut bits, words)?;
    Answer::bytes(alloc, bits.as_bytes())
}

fn change(call: &str, bits: &mut BitString, words: &mut Words<'_>) -> Result<()> {
    match call {
        "set" => set(bits, words),
        "set_num_bits" => Ok(bits.set_num_bits(words.size()?)?),
        "payload_fill" => payload_fill(bits, words),
        _ => write(call, bits, words),
    }
}

fn set(bits: &mut BitString, words: &mut Words<'_>) -> Result<()> {
    let index = words.size()?;
    bits.set(index, words.truth()?);
    Ok(())
}

fn payload_fill(bits: &mut BitString, words: &mut Words<'_>) -> Result<()> {
    let byte = words.byte()?;
    bits.payload_view_mut().fill(byte);
    Ok(())
}

fn write(call: &str, bits: &mut BitString, words: &mut Words<'_>) -> Result<()> {
    let index = words.size()?;
    let byte = words.byte()?;
    if index >= bits.get_num_buckets() {
        return bad_row("no such byte");
    }
    match call {
        "set_bucket" => bits.set_bucket(index, byte),
        "get_bucket_mut" => *bits.get_bucket_mut(index) = byte,
        _ => bits.payload_view_mut()[index] = byte,
    }
    Ok(())
}

fn of_bits(alloc: Global, call: &str, words: &mut Words<'_>) -> Result<Answer> {
    let bits = bits(alloc, words)?;
    seen(alloc, call, &bits, words)
}

fn seen(alloc: Global, call: &str, bits: &BitString, words: &mut Words<'_>) -> Result<Answer> {
    match call {
        "payload_view" => Answer::bytes(alloc, bits.payload_view()),
        "get_num_bits" => Ok(Answer::Size(bits.get_num_bits())),
        "get_num_unused_bits" => Ok(Answer::Size(usize::from(bits.get_num_unused_bits()))),
        "get_num_buckets" => Ok(Answer::Size(bits.get_num_buckets())),
        "debug" => Answer::debug(alloc, bits),
        "copy" => Answer::bytes(alloc, bits.copy_in(alloc)?.as_bytes()),
        "get_bucket" => get_bucket(bits, words),
        "is_set" => Ok(Answer::Truth(bits.is_set(words.size()?))),
        "eq" => eq(alloc, bits, words),
        _ => bad_row("no such call"),
    }
}

fn get_bucket(bits: &BitString, words: &mut Words<'_>) -> Result<Answer> {
    let index = words.size()?;
    if index >= bits.get_num_buckets() {
        return bad_row("no such byte");
    }
    Ok(Answer::Byte(bits.get_bucket(index)))
}

fn eq(alloc: Global, one: &BitString, words: &mut Words<'_>) -> Result<Answer> {
    let other = bits(alloc, words)?;
    Ok(Answer::Truth(*one == other))
}
