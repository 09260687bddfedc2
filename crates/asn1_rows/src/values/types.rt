// What the traits say of a type, which is named as in the source: `u8`, `OctetStringAsn1`.
//
//     type.tag TYPE         the byte of its tag
//     type.name TYPE
//     type.default TYPE     a copy of its default: bytes in hex, a number, or `true` or `false`
use crate::bad_row;
use anyhow::Result;
use picky_asn1::bit_string::BitString;
use picky_asn1::restricted_string::{BmpString, CharSet, Ia5String, RestrictedString, Utf8String};
use picky_asn1::wrapper::{IntegerAsn1, OctetStringAsn1};
use picky_asn1::{Asn1Type, CopyIn, Empty};
use rows::{Answer, Words};
use std::alloc::{AllocError, Global};

pub(crate) fn answer(alloc: Global, call: &str, words: &mut Words<'_>) -> Result<Answer> {
    match call {
        "tag" | "name" => described(call, words.next()),
        "default" => default(alloc, words.next()),
        _ => bad_row("no such call"),
    }
}

fn description<T: Asn1Type>(call: &str) -> Result<Answer> {
    match call {
        "tag" => Ok(Answer::Byte(T::TAG.0)),
        _ => Ok(Answer::Word(T::NAME)),
    }
}

fn described(call: &str, name: &str) -> Result<Answer> {
    match name {
        "()" => description::<()>(call),
        "bool" => description::<bool>(call),
        "u8" => description::<u8>(call),
        "u16" => description::<u16>(call),
        "u32" => description::<u32>(call),
        "u64" => description::<u64>(call),
        "u128" => description::<u128>(call),
        "String" => description::<String>(call),
        "IntegerAsn1" => description::<IntegerAsn1>(call),
        "OctetStringAsn1" => description::<OctetStringAsn1>(call),
        _ => bad_row("no such type"),
    }
}

fn default(alloc: Global, name: &str) -> Result<Answer> {
    match name {
        "bool" => Ok(Answer::Truth(default_of(alloc)?)),
        "u32" => Ok(Answer::Size(default_of::<u32>(alloc)? as usize)),
        "String" => default_text(alloc),
        "IntegerAsn1" => default_integer(alloc),
        "OctetStringAsn1" => default_octets(alloc),
        "BitString" => default_bits(alloc),
        "Utf8String" => string(alloc, default_of::<Utf8String>(alloc)),
        "Ia5String" => string(alloc, default_of::<Ia5String>(alloc)),
        "BmpString" => string(alloc, default_of::<BmpString>(alloc)),
        _ => bad_row("no such type"),
    }
}

fn default_of<T: Empty + CopyIn + Drop>(alloc: Global) -> Result<T, AllocError> {
    let default = T::empty(alloc)?;
    default.copy_in(alloc)
}

fn default_text(alloc: Global) -> Result<Answer> {
    Answer::bytes(alloc, default_of::<String>(alloc)?.as_bytes())
}

fn default_integer(alloc: Global) -> Result<Answer> {
    Answer::bytes(alloc, default_of::<IntegerAsn1>(alloc)?.0.as_slice())
}

fn default_octets(alloc: Global) -> Result<Answer> {
    Answer::bytes(alloc, default_of::<OctetStringAsn1>(alloc)?.0.as_slice())
}

fn default_bits(alloc: Global) -> Result<Answer> {
    Answer::bytes(alloc, default_of::<BitString>(alloc)?.as_bytes())
}

fn string<C: CharSet>(
    alloc: Global,
    string: Result<RestrictedString<C>, AllocError>,
) -> Result<Answer> {
    Answer::bytes(alloc, string?.as_bytes())
}
