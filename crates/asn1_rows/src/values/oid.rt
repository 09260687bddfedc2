// Object identifiers. One is given by its contents octets; a refusal is answered by its name.
//
//     oid.from_text TEXT               the contents
//     oid.from_contents BYTES          the text
//     oid.copy CONTENTS                the copy's contents
//     oid.is_that_of CONTENTS TEXT     whether the two are equal
//     oid.error NAME                   what `{}` prints of a refusal
use crate::bad_row;
use anyhow::Result;
use picky_asn1::CopyIn;
use picky_asn1::oid::{ObjectIdentifier, OidError};
use rows::{Answer, Words};
use std::alloc::Global;

pub(crate) fn answer(alloc: Global, call: &str, words: &mut Words<'_>) -> Result<Answer> {
    match call {
        "from_text" => from_text(alloc, words.rest()),
        "error" => error(alloc, words.next()),
        _ => of_contents(alloc, call, words),
    }
}

fn refusal(error: &OidError) -> Answer {
    match error {
        OidError::BadText => Answer::Word("BadText"),
        OidError::BadContents => Answer::Word("BadContents"),
        OidError::OutOfMemory => Answer::Word("OutOfMemory"),
    }
}

fn from_text(alloc: Global, text: &str) -> Result<Answer> {
    match ObjectIdentifier::from_text(alloc, text) {
        Ok(identifier) => Answer::bytes(alloc, identifier.contents()),
        Err(error) => Ok(refusal(&error)),
    }
}

fn of_contents(alloc: Global, call: &str, words: &mut Words<'_>) -> Result<Answer> {
    let bytes = words.bytes(alloc)?;
    match call {
        "from_contents" => from_contents(alloc, &bytes),
        "copy" => copied(alloc, &bytes),
        "is_that_of" => is_that_of(alloc, &bytes, words.rest()),
        _ => bad_row("no such call"),
    }
}

fn from_contents(alloc: Global, bytes: &[u8]) -> Result<Answer> {
    match ObjectIdentifier::from_contents(alloc, bytes) {
        Ok(identifier) => Ok(Answer::Text(identifier.to_text(alloc)?)),
        Err(error) => Ok(refusal(&error)),
    }
}

fn copied(alloc: Global, bytes: &[u8]) -> Result<Answer> {
    let identifier = ObjectIdentifier::from_contents(alloc, bytes)?;
    Answer::bytes(alloc, identifier.copy_in(alloc)?.contents())
}

fn is_that_of(alloc: Global, bytes: &[u8], text: &str) -> Result<Answer> {
    let identifier = ObjectIdentifier::from_contents(alloc, bytes)?;
    let other = ObjectIdentifier::from_text(alloc, text)?;
    Ok(Answer::Truth(identifier == other))
}

fn error(alloc: Global, name: &str) -> Result<Answer> {
    match name {
        "BadText" => Answer::display(alloc, &OidError::BadText),
        "BadContents" => Answer::display(alloc, &OidError::BadContents),
        "OutOfMemory" => Answer::display(alloc, &OidError::OutOfMemory),
        _ => bad_row("no such refusal"),
    }
}
