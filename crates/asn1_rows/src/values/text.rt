// Restricted strings. SET is `numeric`, `printable`, `utf8`, `ia5` or `bmp`; a string is given and answered by its
// bytes. A text stands as it is, but for `bmp` by its bytes. A refusal is answered by its name.
//
//     text.members SET                     each byte that is in the set alone
//     text.new SET BYTES
//     text.copy SET STRING
//     text.into_vec SET STRING
//     text.as_slice SET STRING             by `AsSlice`
//     text.display SET STRING              what `{}` prints
//     text.debug SET STRING                what `{:?}` prints
//     text.from_str SET TEXT
//     text.is_that_of SET STRING TEXT      whether the two are equal
//     text.from_string SET TEXT            not for `bmp`, as the next two
//     text.as_utf8 SET STRING              the text
//     text.into_string SET STRING          the text
//     text.to_utf8 bmp STRING              the text's bytes
//     text.error NAME                      what `{}` prints of a refusal
use crate::bad_row;
use anyhow::Result;
use picky_asn1::CopyIn;
use picky_asn1::restricted_string::{
    BmpCharSet, BmpString, CharSet, CharSetError, Ia5CharSet, NumericCharSet, PrintableCharSet,
    RestrictedString, Utf8CharSet, Utf8Set,
};
use rows::{Answer, Words};
use std::alloc::Global;
use std::convert::AsSlice;

pub(crate) fn answer(alloc: Global, call: &str, words: &mut Words<'_>) -> Result<Answer> {
    match words.next() {
        "numeric" => of_texts::<NumericCharSet>(alloc, call, words),
        "printable" => of_texts::<PrintableCharSet>(alloc, call, words),
        "utf8" => of_texts::<Utf8CharSet>(alloc, call, words),
        "ia5" => of_texts::<Ia5CharSet>(alloc, call, words),
        "bmp" => of_bmp(alloc, call, words),
        refusal if call == "error" => error(alloc, refusal),
        _ => bad_row("no such set"),
    }
}

fn refusal(error: &CharSetError) -> Answer {
    match error {
        CharSetError::Invalid => Answer::Word("Invalid"),
        CharSetError::OutOfMemory => Answer::Word("OutOfMemory"),
    }
}

fn error(alloc: Global, name: &str) -> Result<Answer> {
    match name {
        "Invalid" => Answer::display(alloc, &CharSetError::Invalid),
        "OutOfMemory" => Answer::display(alloc, &CharSetError::OutOfMemory),
        _ => bad_row("no such refusal"),
    }
}

// The calls of each set.
fn of_set<C: CharSet>(alloc: Global, call: &str, words: &mut Words<'_>) -> Result<Answer> {
    match call {
        "members" => members::<C>(alloc),
        "new" => held(alloc, RestrictedString::<C>::new(words.bytes(alloc)?)),
        "into_vec" => Answer::bytes(alloc, &Vec::from(string::<C>(alloc, words)?)),
        _ => of_string::<C>(alloc, call, words),
    }
}

fn members<C: CharSet>(alloc: Global) -> Result<Answer> {
    let mut members = Vec::new(alloc);
    for byte in 0..=255u8 {
        if C::check(&[byte]) {
            members.push(byte)?;
        }
    }
    Answer::bytes(alloc, &members)
}

fn held<C: CharSet>(
    alloc: Global,
    string: Result<RestrictedString<C>, CharSetError>,
) -> Result<Answer> {
    match string {
        Ok(string) => Answer::bytes(alloc, string.as_bytes()),
        Err(error) => Ok(refusal(&error)),
    }
}

fn string<C: CharSet>(alloc: Global, words: &mut Words<'_>) -> Result<RestrictedString<C>> {
    Ok(RestrictedString::new(words.bytes(alloc)?)?)
}

fn of_string<C: CharSet>(alloc: Global, call: &str, words: &mut Words<'_>) -> Result<Answer> {
    let string = string::<C>(alloc, words)?;
    seen(alloc, call, &string)
}

fn seen<C: CharSet>(alloc: Global, call: &str, string: &RestrictedString<C>) -> Result<Answer> {
    match call {
        "copy" => Answer::bytes(alloc, string.copy_in(alloc)?.as_bytes()),
        "as_slice" => Answer::bytes(alloc, AsSlice::as_slice(string)),
        "display" => Answer::display(alloc, string),
        "debug" => Answer::debug(alloc, string),
        _ => bad_row("no such call"),
    }
}

// Those of the sets that are parts of UTF-8.
fn of_texts<C: Utf8Set + PartialEq>(
    alloc: Global,
    call: &str,
    words: &mut Words<'_>,
) -> Result<Answer> {
    match call {
        "from_str" => held(alloc, RestrictedString::<C>::from_str(alloc, words.rest())),
        "from_string" => from_string::<C>(alloc, words.rest()),
        "is_that_of" => is_that_of::<C>(alloc, words),
        "as_utf8" => Answer::text(alloc, string::<C>(alloc, words)?.as_utf8()),
        "into_string" => Ok(Answer::Text(string::<C>(alloc, words)?.into_string())),
        _ => of_set::<C>(alloc, call, words),
    }
}

fn from_string<C: Utf8Set>(alloc: Global, text: &str) -> Result<Answer> {
    let text = String::from_str(alloc, text)?;
    held(alloc, RestrictedString::<C>::from_string(text))
}

fn is_that_of<C: Utf8Set + PartialEq>(alloc: Global, words: &mut Words<'_>) -> Result<Answer> {
    let string = string::<C>(alloc, words)?;
    let other = RestrictedString::<C>::from_str(alloc, words.rest())?;
    Ok(Answer::Truth(string == other))
}

// Those of BMPString.
fn of_bmp(alloc: Global, call: &str, words: &mut Words<'_>) -> Result<Answer> {
    match call {
        "from_str" => bmp_from_str(alloc, words),
        "is_that_of" => is_bmp_of(alloc, words),
        "to_utf8" => to_utf8(alloc, words),
        _ => of_set::<BmpCharSet>(alloc, call, words),
    }
}

fn bmp_from_str(alloc: Global, words: &mut Words<'_>) -> Result<Answer> {
    let text = words.text(alloc)?;
    held(alloc, BmpString::from_str(alloc, &text))
}

fn is_bmp_of(alloc: Global, words: &mut Words<'_>) -> Result<Answer> {
    let string = string::<BmpCharSet>(alloc, words)?;
    let text = words.text(alloc)?;
    let other = BmpString::from_str(alloc, &text)?;
    Ok(Answer::Truth(string == other))
}

fn to_utf8(alloc: Global, words: &mut Words<'_>) -> Result<Answer> {
    let string = string::<BmpCharSet>(alloc, words)?;
    Answer::bytes(alloc, string.to_utf8(alloc)?.as_bytes())
}
