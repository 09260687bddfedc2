// Whole numbers. A number is given and answered by its bytes.
//
//     integer.from_bytes_be_signed BYTES
//     integer.from_bytes_be_unsigned BYTES
//     integer.as_signed_bytes_be INTEGER
//     integer.as_unsigned_bytes_be INTEGER
//     integer.is_positive INTEGER
//     integer.is_negative INTEGER
//     integer.debug INTEGER                    what `{:?}` prints
use crate::bad_row;
use anyhow::Result;
use picky_asn1::wrapper::IntegerAsn1;
use rows::{Answer, Words};
use std::alloc::Global;

pub(crate) fn answer(alloc: Global, call: &str, words: &mut Words<'_>) -> Result<Answer> {
    let bytes = words.bytes(alloc)?;
    match call {
        "from_bytes_be_signed" => {
            Answer::bytes(alloc, IntegerAsn1::from_bytes_be_signed(bytes).0.as_slice())
        }
        "from_bytes_be_unsigned" => from_unsigned(alloc, bytes),
        _ => seen(alloc, call, &IntegerAsn1::from(bytes)),
    }
}

fn from_unsigned(alloc: Global, bytes: Vec<u8>) -> Result<Answer> {
    let integer = IntegerAsn1::from_bytes_be_unsigned(alloc, bytes)?;
    Answer::bytes(alloc, integer.0.as_slice())
}

fn seen(alloc: Global, call: &str, integer: &IntegerAsn1) -> Result<Answer> {
    match call {
        "as_signed_bytes_be" => Answer::bytes(alloc, integer.as_signed_bytes_be()),
        "as_unsigned_bytes_be" => Answer::bytes(alloc, integer.as_unsigned_bytes_be()),
        "is_positive" => Ok(Answer::Truth(integer.is_positive())),
        "is_negative" => Ok(Answer::Truth(integer.is_negative())),
        "debug" => Answer::debug(alloc, integer),
        _ => bad_row("no such call"),
    }
}
