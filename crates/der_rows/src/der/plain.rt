// Calls of the libraries without their clauses, which no answer needs and each caller would carry.
use anyhow::{Error, Result};
use picky_asn1_tag::Tag;
use picky_der::{DerError, DerRead, DerReader, DerWrite, from_bytes, to_vec, write_value};
use rows::Words;
use std::alloc::Global;

/// The error of a row that is no call.
pub fn bad_row<T>(cause: &'static str) -> Result<T> {
    Err(Error::msg(cause))
}

/// The value that these bytes are.
pub fn value_of<T: DerRead + Drop>(alloc: Global, bytes: &[u8]) -> Result<T, DerError> {
    from_bytes(alloc, bytes)
}

/// The value that the bytes of the next word are.
pub fn next_value<T: DerRead + Drop>(alloc: Global, words: &mut Words<'_>) -> Result<T> {
    let bytes = words.bytes(alloc)?;
    Ok(value_of(alloc, &bytes)?)
}

/// The value that stands next.
pub fn read<T: DerRead>(alloc: Global, reader: &mut DerReader<'_>) -> Result<T, DerError> {
    T::read_der(alloc, reader)
}

/// Adds what a value is written as at the end.
pub fn write<T: DerWrite>(alloc: Global, value: &T, out: &mut Vec<u8>) -> Result<(), DerError> {
    value.write_der(alloc, out)
}

/// What a value is written as.
pub fn encoding_of<T: DerWrite>(alloc: Global, value: &T) -> Result<Vec<u8>, DerError> {
    to_vec(alloc, value)
}

/// A SEQUENCE of these contents.
pub fn sequence_of(alloc: Global, contents: &[u8]) -> Result<Vec<u8>, DerError> {
    let mut bytes = Vec::new(alloc);
    write_value(&mut bytes, Tag::SEQUENCE, contents)?;
    Ok(bytes)
}

/// The contents of the SEQUENCE that stands next.
pub fn nested<'a>(reader: &mut DerReader<'a>) -> Result<DerReader<'a>, DerError> {
    reader.nested(Tag::SEQUENCE)
}
