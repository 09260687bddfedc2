// Strings, bit strings and identifiers under their tags, made of their inner values and given back as such.
//
//     der_string.of TYPE TEXT           what the string of this text is written as
//     der_string.text TYPE BYTES        the text of the string that the bytes are
//     der_string.changed TEXT           what an empty Ia5String that was changed in place to this text is written as
//     der_bits.of COUNT INDEX           so many bits of which this one was set, in place
//     der_bits.count BYTES              how many bits the bytes are
//     der_oid.of TEXT                   what the identifier is written as
//     der_oid.changed TEXT TEXT         the first identifier, changed in place to the second
//     der_oid.text BYTES                the text of the identifier that the bytes are
use crate::der::plain::{bad_row, next_value};
use crate::der::values::written;
use anyhow::Result;
use picky_asn1_bits::BitString;
use picky_asn1_oid::ObjectIdentifier;
use picky_asn1_tag::{CopyIn, Empty};
use picky_asn1_text::{
    BmpString, Ia5CharSet, Ia5String, NumericCharSet, PrintableCharSet, RestrictedString,
    Utf8CharSet, Utf8Set,
};
use picky_asn1_wrapper::{
    BitStringAsn1, BmpStringAsn1, GeneralStringAsn1, Ia5StringAsn1, NumericStringAsn1,
    ObjectIdentifierAsn1, PrintableStringAsn1, Utf8StringAsn1,
};
use picky_der::{DerRead, DerWrite};
use rows::{Answer, Words};
use std::alloc::Global;

pub fn string(alloc: Global, call: &str, words: &mut Words<'_>) -> Result<Answer> {
    match call {
        "changed" => changed(alloc, words),
        _ => of_type(alloc, call, words),
    }
}

fn of_type(alloc: Global, call: &str, words: &mut Words<'_>) -> Result<Answer> {
    match words.next() {
        "utf8" => of_texts::<Utf8StringAsn1, Utf8CharSet>(alloc, call, words),
        "numeric" => of_texts::<NumericStringAsn1, NumericCharSet>(alloc, call, words),
        "printable" => of_texts::<PrintableStringAsn1, PrintableCharSet>(alloc, call, words),
        "ia5" => of_texts::<Ia5StringAsn1, Ia5CharSet>(alloc, call, words),
        "general" => of_texts::<GeneralStringAsn1, Ia5CharSet>(alloc, call, words),
        "bmp" => of_bmp(alloc, call, words),
        _ => bad_row("no such type"),
    }
}

// The calls of the strings W of a set C that is a part of UTF-8.
fn of_texts<W, C>(alloc: Global, call: &str, words: &mut Words<'_>) -> Result<Answer>
where
    W: From<RestrictedString<C>> + DerRead + DerWrite + CopyIn + PartialEq + Drop,
    C: Utf8Set,
    RestrictedString<C>: From<W>,
{
    match call {
        "of" => written(
            alloc,
            &W::from(RestrictedString::<C>::from_str(alloc, words.rest())?),
        ),
        "text" => text_of::<W, C>(alloc, words),
        _ => bad_row("no such call"),
    }
}

fn text_of<W: DerRead + Drop, C: Utf8Set>(alloc: Global, words: &mut Words<'_>) -> Result<Answer>
where
    RestrictedString<C>: From<W>,
{
    let string: W = next_value(alloc, words)?;
    let inner: RestrictedString<C> = RestrictedString::from(string);
    Answer::text(alloc, inner.as_utf8())
}

fn of_bmp(alloc: Global, call: &str, words: &mut Words<'_>) -> Result<Answer> {
    match call {
        "of" => written(
            alloc,
            &BmpStringAsn1::from(BmpString::from_str(alloc, words.rest())?),
        ),
        "text" => bmp_text(alloc, words),
        _ => bad_row("no such call"),
    }
}

fn bmp_text(alloc: Global, words: &mut Words<'_>) -> Result<Answer> {
    let string: BmpStringAsn1 = next_value(alloc, words)?;
    let inner = BmpString::from(string);
    Ok(Answer::Text(inner.to_utf8(alloc)?))
}

fn changed(alloc: Global, words: &mut Words<'_>) -> Result<Answer> {
    let mut string = Ia5StringAsn1::empty(alloc)?;
    *string = Ia5String::from_str(alloc, words.rest())?;
    written(alloc, &string)
}

pub fn bits(alloc: Global, call: &str, words: &mut Words<'_>) -> Result<Answer> {
    match call {
        "of" => bits_of(alloc, words),
        "count" => Ok(Answer::Size(next_value::<BitStringAsn1>(alloc, words)?.get_num_bits())),
        _ => bad_row("no such call"),
    }
}

fn bits_of(alloc: Global, words: &mut Words<'_>) -> Result<Answer> {
    let mut bits = BitStringAsn1::from(BitString::with_len(alloc, words.size()?)?);
    let index = words.size()?;
    if bits.get_num_bits() <= index {
        return bad_row("there is no such bit");
    }
    bits.set(index, true);
    if !is_given_back(alloc, &bits)? {
        return bad_row("the bits that are given back are others");
    }
    written(alloc, &bits)
}

fn is_given_back(alloc: Global, bits: &BitStringAsn1) -> Result<bool> {
    let given = BitString::from(bits.clone(alloc)?);
    Ok(given == **bits)
}

pub fn identifier(alloc: Global, call: &str, words: &mut Words<'_>) -> Result<Answer> {
    match call {
        "of" => identifier_of(alloc, words),
        "changed" => identifier_changed(alloc, words),
        "text" => identifier_text(alloc, words),
        _ => bad_row("no such call"),
    }
}

fn identifier_of(alloc: Global, words: &mut Words<'_>) -> Result<Answer> {
    let identifier = ObjectIdentifier::from_text(alloc, words.next())?;
    written(alloc, &ObjectIdentifierAsn1::from(identifier))
}

fn identifier_changed(alloc: Global, words: &mut Words<'_>) -> Result<Answer> {
    let first = ObjectIdentifier::from_text(alloc, words.next())?;
    let mut identifier = ObjectIdentifierAsn1::from(first);
    *identifier = ObjectIdentifier::from_text(alloc, words.next())?;
    written(alloc, &identifier)
}

fn identifier_text(alloc: Global, words: &mut Words<'_>) -> Result<Answer> {
    let identifier: ObjectIdentifierAsn1 = next_value(alloc, words)?;
    let inner = ObjectIdentifier::from(identifier);
    Ok(Answer::Text(inner.to_text(alloc)?))
}
