// Numbers and texts as they are, and fields of a SEQUENCE.
//
//     der_number.u8 BYTES (u16, u32, u64, u128)      the number that an INTEGER is, or the fault
//     der_number.boolean BYTES                       what a BOOLEAN is, or the fault
//     der_number.pair BYTES                          the two numbers of a SEQUENCE of two INTEGERs, or `refused`
//     der_fields.write N N N                         a SEQUENCE of a u32 and two u16
//     der_fields.read BYTES                          its numbers, or the fault
//     der_fields.write_in_bits N N N                 the same SEQUENCE in a BIT STRING
//     der_fields.read_in_bits BYTES
//     der_fields.write_in_octets N N N               and in an OCTET STRING
//     der_fields.read_in_octets BYTES
//     der_text.peek BYTES                            the next tag
//     der_text.read BYTES                            the text that a UTF8String is, or the fault
use crate::der::faults::{encoded, refusal, refused};
use crate::der::plain::{bad_row, nested, next_value, read, sequence_of, value_of, write};
use anyhow::Result;
use picky_asn1_wrapper::{Asn1SequenceOf, BitStringAsn1Container, OctetStringAsn1Container};
use picky_der::{Asn1RawDer, DerError, DerRead, DerReader};
use rows::{Answer, Words};
use std::alloc::Global;
use std::fmt;

pub fn plain(alloc: Global, call: &str, words: &mut Words<'_>) -> Result<Answer> {
    let bytes = words.bytes(alloc)?;
    match call {
        "u8" => read_one::<u8>(alloc, &bytes),
        "u16" => read_one::<u16>(alloc, &bytes),
        "u32" => read_one::<u32>(alloc, &bytes),
        "u64" => read_one::<u64>(alloc, &bytes),
        "u128" => read_one::<u128>(alloc, &bytes),
        "boolean" => read_one::<bool>(alloc, &bytes),
        "read" => read_one::<String>(alloc, &bytes),
        "pair" => pair(alloc, &bytes),
        "peek" => Ok(Answer::Byte(DerReader::new(&bytes).peek_tag()?.next_tag.0)),
        _ => bad_row("no such call"),
    }
}

fn read_one<T: DerRead + fmt::Display + Drop>(alloc: Global, bytes: &[u8]) -> Result<Answer> {
    match value_of::<T>(alloc, bytes) {
        Ok(value) => Answer::display(alloc, &value),
        Err(fault) => refusal(fault),
    }
}

fn pair(alloc: Global, bytes: &[u8]) -> Result<Answer> {
    match value_of::<Asn1SequenceOf<u64>>(alloc, bytes) {
        Ok(numbers) => pair_of(alloc, numbers.0.as_slice()),
        Err(fault) => refused(fault, "refused"),
    }
}

fn pair_of(alloc: Global, numbers: &[u64]) -> Result<Answer> {
    if numbers.len() == 2 {
        Answer::numbers(alloc, numbers)
    } else {
        Ok(Answer::Word("refused"))
    }
}

pub fn three(alloc: Global, call: &str, words: &mut Words<'_>) -> Result<Answer> {
    match call {
        "read" => read_three(alloc, &words.bytes(alloc)?),
        "read_in_bits" => {
            let container: BitStringAsn1Container<Asn1RawDer> = next_value(alloc, words)?;
            read_three(alloc, container.0.as_bytes())
        }
        "read_in_octets" => {
            let container: OctetStringAsn1Container<Asn1RawDer> = next_value(alloc, words)?;
            read_three(alloc, container.0.as_bytes())
        }
        "write" => encoded(alloc, &three_of(alloc, words)?),
        "write_in_bits" => encoded(alloc, &BitStringAsn1Container(three_of(alloc, words)?)),
        "write_in_octets" => encoded(alloc, &OctetStringAsn1Container(three_of(alloc, words)?)),
        _ => bad_row("no such call"),
    }
}

// The SEQUENCE of the numbers in a row.
fn three_of(alloc: Global, words: &mut Words<'_>) -> Result<Asn1RawDer> {
    let mut fields = Vec::new(alloc);
    write(alloc, &words.parsed::<u32>()?, &mut fields)?;
    write(alloc, &words.parsed::<u16>()?, &mut fields)?;
    write(alloc, &words.parsed::<u16>()?, &mut fields)?;
    Ok(Asn1RawDer::new(sequence_of(alloc, &fields)?)?)
}

fn read_three(alloc: Global, bytes: &[u8]) -> Result<Answer> {
    match fields(alloc, bytes) {
        Ok((first, second, third)) => {
            Answer::numbers(alloc, &[first as u64, second as u64, third as u64])
        }
        Err(fault) => refusal(fault),
    }
}

// Fields of different types.
fn fields(alloc: Global, bytes: &[u8]) -> Result<(u32, u16, u16), DerError> {
    let mut reader = DerReader::new(bytes);
    let mut fields = nested(&mut reader)?;
    let first = read(alloc, &mut fields)?;
    let second = read(alloc, &mut fields)?;
    let third = read(alloc, &mut fields)?;
    fields.end()?;
    reader.end()?;
    Ok((first, second, third))
}
