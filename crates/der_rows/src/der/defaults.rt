// Fields that are left out where they have their type's default.
//
//     der_default.encoded TYPE            the encoding of the type's default, or the fault
//     der_default.left_out TYPE           what a field with the default is written as
//     der_default.written TYPE BYTES      what a field with the value that is read of the bytes is written as
//     der_default.is TYPE BYTES           whether that value is the default
//
// What is written is read again, and the two fields are equal; nothing is written for the default alone. values.rt names
// the types that are read without a field as well.
use crate::der::faults::encoded;
use crate::der::plain::{bad_row, next_value};
use crate::der::types;
use anyhow::Result;
use picky_asn1_bits::OctetStringAsn1;
use picky_asn1_tag::Empty;
use picky_asn1_wrapper::{
    Asn1SequenceOf, Asn1SetOf, BitStringAsn1Container, EqualMeaning, ExplicitContextTag0,
    HeaderOnly, ImplicitContextTag2, OctetStringAsn1Container, Optional, Utf8StringAsn1,
};
use picky_der::{Asn1RawDer, DerRead, DerReader, DerWrite};
use rows::{Answer, Words};
use std::alloc::Global;

/// What a call gives of a wrapper that is a field alone.
pub fn answer_of_wrapper(
    alloc: Global,
    name: &str,
    call: &str,
    words: &mut Words<'_>,
) -> Result<Answer> {
    match name {
        "sequence_of_raw" => field::<Asn1SequenceOf<Asn1RawDer>>(alloc, call, words),
        "set_of_utf8" => field::<Asn1SetOf<Utf8StringAsn1>>(alloc, call, words),
        "sequence_of_headers" => field::<Asn1SequenceOf<HeaderOnly<bool>>>(alloc, call, words),
        "octets_of_set" => field::<OctetStringAsn1Container<Asn1SetOf<u8>>>(alloc, call, words),
        "bits_of_u8" => field::<BitStringAsn1Container<u8>>(alloc, call, words),
        "explicit_0_sequence" => {
            field::<ExplicitContextTag0<Asn1SequenceOf<String>>>(alloc, call, words)
        }
        "implicit_2_octets" => field::<ImplicitContextTag2<OctetStringAsn1>>(alloc, call, words),
        _ => types::answer_of_wrapper(name, call),
    }
}

/// What a call gives of a field of a type.
pub fn field<T: Empty + EqualMeaning + DerRead + DerWrite + Drop>(
    alloc: Global,
    call: &str,
    words: &mut Words<'_>,
) -> Result<Answer> {
    match call {
        "encoded" => encoded(alloc, &T::empty(alloc)?),
        "left_out" => written::<T>(alloc, Optional::empty(alloc)?),
        "written" => written::<T>(alloc, Optional(next_value(alloc, words)?)),
        "is" => is::<T>(alloc, words),
        _ => bad_row("no such call"),
    }
}

fn is<T: Empty + EqualMeaning + DerRead + Drop>(
    alloc: Global,
    words: &mut Words<'_>,
) -> Result<Answer> {
    let field: Optional<T> = Optional(next_value(alloc, words)?);
    Ok(Answer::Truth(field.is_default(alloc)?))
}

fn written<T: Empty + EqualMeaning + DerRead + DerWrite + Drop>(
    alloc: Global,
    field: Optional<T>,
) -> Result<Answer> {
    let mut fields = Vec::new(alloc);
    field.write_in(alloc, &mut fields)?;
    read_again(alloc, &field, &fields)
}

fn read_again<T: Empty + EqualMeaning + DerRead + Drop>(
    alloc: Global,
    field: &Optional<T>,
    fields: &[u8],
) -> Result<Answer> {
    let back: Optional<T> = Optional::read_in(alloc, &mut DerReader::new(fields))?;
    if back.0 != field.0 {
        return bad_row("what is read again is another value");
    }
    if field.is_default(alloc)? != fields.is_empty() {
        return bad_row("another value than the default is left out");
    }
    Answer::bytes(alloc, fields)
}
