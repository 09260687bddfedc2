// Faults.
//
//     der_fault.text NAME [BYTE BYTE]      the fault's text; WrongTag has the tag that was asked for and that which stands there
use crate::der::plain::{bad_row, encoding_of};
use anyhow::Result;
use picky_asn1_tag::Tag;
use picky_der::{DerError, DerWrite};
use rows::{Answer, Words};
use std::alloc::Global;

/// The fault by its name. Want of memory is no refusal: it is an error of the row.
pub fn refusal(fault: DerError) -> Result<Answer> {
    match fault {
        DerError::Truncated => Ok(Answer::Word("Truncated")),
        DerError::WrongTag { .. } => Ok(Answer::Word("WrongTag")),
        DerError::BadLength => Ok(Answer::Word("BadLength")),
        DerError::BadValue => Ok(Answer::Word("BadValue")),
        DerError::TrailingBytes => Ok(Answer::Word("TrailingBytes")),
        DerError::TooDeep => Ok(Answer::Word("TooDeep")),
        DerError::OutOfMemory => bad_row("out of memory"),
    }
}

/// A word for any refusal.
pub fn refused(fault: DerError, word: &'static str) -> Result<Answer> {
    refusal(fault)?;
    Ok(Answer::Word(word))
}

/// What a value is written as, or the fault by its name.
pub fn encoded<T: DerWrite>(alloc: Global, value: &T) -> Result<Answer> {
    match encoding_of(alloc, value) {
        Ok(bytes) => Answer::bytes(alloc, &bytes),
        Err(fault) => refusal(fault),
    }
}

pub fn answer(alloc: Global, call: &str, words: &mut Words<'_>) -> Result<Answer> {
    if call != "text" {
        return bad_row("no such call");
    }
    match words.next() {
        "Truncated" => Answer::display(alloc, &DerError::Truncated),
        "WrongTag" => wrong_tag(alloc, words),
        "BadLength" => Answer::display(alloc, &DerError::BadLength),
        "BadValue" => Answer::display(alloc, &DerError::BadValue),
        "TrailingBytes" => Answer::display(alloc, &DerError::TrailingBytes),
        "TooDeep" => Answer::display(alloc, &DerError::TooDeep),
        "OutOfMemory" => Answer::display(alloc, &DerError::OutOfMemory),
        _ => bad_row("no such fault"),
    }
}

fn wrong_tag(alloc: Global, words: &mut Words<'_>) -> Result<Answer> {
    let expected = Tag(words.byte()?);
    let got = Tag(words.byte()?);
    Answer::display(alloc, &DerError::WrongTag { expected, got })
}
