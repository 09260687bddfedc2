// The containers of PKCS #12 in DER: each call names a type and its bytes.
//
//     store.again TYPE BYTES      what the value that is read is written as, or the fault; it is copied before it is written
//     store.variant TYPE BYTES    the name of the variant that is read, or the fault
//     store.last TYPE BYTES       the last field of the value that is read, as Debug prints it, or the fault
//
// types.rt names the types; attributes.rt and bags.rt begin with the calls of their notions.
pub(crate) mod attributes;
pub(crate) mod bags;
pub(crate) mod types;

use crate::bad_row;
use anyhow::Result;
use picky_asn1::CopyIn;
use picky_der::{DerError, DerRead, DerWrite, from_bytes, to_vec};
use rows::{Answer, Words};
use std::alloc::Global;
use std::fmt::Debug;

// The value that these bytes are. Without the clauses of `from_bytes`, which no caller needs and each would carry.
fn value_of<T: DerRead + Drop>(alloc: Global, bytes: &[u8]) -> Result<T, DerError> {
    from_bytes(alloc, bytes)
}

// What a value is written as, without the clauses of `to_vec`.
fn encoding_of<T: DerWrite>(alloc: Global, value: &T) -> Result<Vec<u8>, DerError> {
    to_vec(alloc, value)
}

// The fault by its name. Want of memory is no refusal: it is an error of the row.
fn refusal(fault: DerError) -> Result<Answer> {
    match fault {
        DerError::Truncated => Ok(Answer::Word("Truncated")),
        DerError::WrongTag { .. } => Ok(Answer::Word("WrongTag")),
        DerError::BadLength => Ok(Answer::Word("BadLength")),
        DerError::BadValue => Ok(Answer::Word("BadValue")),
        DerError::TrailingBytes => Ok(Answer::Word("TrailingBytes")),
        DerError::TooDeep => Ok(Answer::Word("TooDeep")),
        DerError::OutOfMemory => bad_row("out of memory"),
    }
}

// What a call gives of a value of this type.
fn value<T: CopyIn + DerRead + DerWrite + Debug + Drop>(
    alloc: Global,
    call: &str,
    words: &mut Words<'_>,
) -> Result<Answer> {
    let bytes = words.bytes(alloc)?;
    match value_of::<T>(alloc, &bytes) {
        Ok(value) => of_value(alloc, call, &value),
        Err(fault) => refusal(fault),
    }
}

fn of_value<T: CopyIn + DerWrite + Debug + Drop>(
    alloc: Global,
    call: &str,
    value: &T,
) -> Result<Answer> {
    match call {
        "again" => written(alloc, value),
        "variant" | "last" => part_of_debug(alloc, call, value),
        _ => bad_row("no such call"),
    }
}

fn written<T: CopyIn + DerWrite + Drop>(alloc: Global, value: &T) -> Result<Answer> {
    let copy = value.copy_in(alloc)?;
    match encoding_of(alloc, &copy) {
        Ok(bytes) => Answer::bytes(alloc, &bytes),
        Err(fault) => refusal(fault),
    }
}

// The part of what Debug prints that a call asks for.
fn part_of_debug<T: Debug>(alloc: Global, call: &str, value: &T) -> Result<Answer> {
    let debug = Answer::debug(alloc, value)?;
    part(alloc, call, &debug)
}

fn part(alloc: Global, call: &str, debug: &Answer) -> Result<Answer> {
    match debug {
        Answer::Text(text) if call == "last" => Answer::text(alloc, behind_comma(text)),
        Answer::Text(text) => Answer::text(alloc, in_front(in_front(text, '('), ' ')),
        _ => bad_row("no text"),
    }
}

// What stands in front of the first of these characters, or all.
fn in_front(text: &str, end: char) -> &str {
    match text.split_once(end) {
        Some((front, _)) => front,
        None => text,
    }
}

// What stands behind the last comma, or all.
fn behind_comma(text: &str) -> &str {
    match text.rsplit_once(", ") {
        Some((_, field)) => field,
        None => text,
    }
}
