// Tags and names of types.
//
//     der_type.name TYPE
//     der_type.tag TYPE
//
// values.rt names the types that are read as well.
use crate::der::plain::bad_row;
use anyhow::Result;
use picky_asn1_tag::Asn1Type;
use picky_asn1_wrapper::{
    Asn1SequenceOf, Asn1SetOf, BitStringAsn1Container, ExplicitContextTag, ExplicitContextTag15,
    HeaderOnly, ImplicitContextTag, ImplicitContextTag15, OctetStringAsn1Container,
};
use rows::Answer;

/// What a call gives of a wrapper that is named alone.
pub fn answer_of_wrapper(name: &str, call: &str) -> Result<Answer> {
    match name {
        "sequence" => of::<Asn1SequenceOf<u8>>(call),
        "set" => of::<Asn1SetOf<u8>>(call),
        "octets_container" => of::<OctetStringAsn1Container<u8>>(call),
        "bits_container" => of::<BitStringAsn1Container<u8>>(call),
        "explicit_0" => of_explicit::<0>(call),
        "explicit_15" => of::<ExplicitContextTag15<u8>>(call),
        "explicit_16" => of_explicit::<16>(call),
        "implicit_0" => of_implicit::<0>(call),
        "implicit_15" => of::<ImplicitContextTag15<u8>>(call),
        "implicit_255" => of_implicit::<255>(call),
        "header" => of::<HeaderOnly<bool>>(call),
        _ => bad_row("no such type"),
    }
}

fn of_explicit<const N: u8>(call: &str) -> Result<Answer> {
    of::<ExplicitContextTag<N, u8>>(call)
}

fn of_implicit<const N: u8>(call: &str) -> Result<Answer> {
    of::<ImplicitContextTag<N, u8>>(call)
}

/// The name or the tag of a type.
pub fn of<T: Asn1Type>(call: &str) -> Result<Answer> {
    match call {
        "name" => Ok(Answer::Word(T::NAME)),
        "tag" => Ok(Answer::Byte(T::TAG.0)),
        _ => bad_row("no such call"),
    }
}
