// Any type, by its name.
//
//     der.read TYPE BYTES           what the value that is read is written as, or the fault; the value, its copy and what
//                                   is read of what was written are equal
//     der.comes_back TYPE BYTES     whether the bytes are read as a value that is written as them
//     der.says TYPE BYTES           the text of the fault
//     der.equal TYPE BYTES BYTES    whether the two values are equal
//     der.nested TYPE BYTES COUNT   the same as `read` of the value in so many SEQUENCEs, each the whole contents of the one
//                                   before it, by a reader nested in as many others
//
// The types are named once for these calls, those of a field with a default (defaults.rt) and those of tags and names (types.rt).
use crate::der::faults::{refusal, refused};
use crate::der::plain::{self, bad_row, encoding_of, next_value, value_of};
use crate::der::{defaults, types};
use anyhow::Result;
use picky_asn1_bits::{IntegerAsn1, OctetStringAsn1};
use picky_asn1_tag::{Asn1Type, CopyIn, Empty};
use picky_asn1_time::{GeneralizedTimeAsn1, UtcTimeAsn1};
use picky_asn1_wrapper::{
    Asn1SequenceOf, Asn1SetOf, BitStringAsn1, BitStringAsn1Container, BmpStringAsn1, EqualMeaning,
    ExplicitContextTag0, ExplicitContextTag1, GeneralStringAsn1, HeaderOnly, Ia5StringAsn1,
    ImplicitContextTag0, ImplicitContextTag2, NumericStringAsn1, ObjectIdentifierAsn1,
    OctetStringAsn1Container, PrintableStringAsn1, Utf8StringAsn1,
};
use picky_der::{Asn1RawDer, DerError, DerRead, DerReader, DerWrite};
use picky_fields::AlgorithmIdentifier;
use rows::{Answer, Words};
use std::alloc::Global;

pub fn answer(alloc: Global, call: &str, words: &mut Words<'_>) -> Result<Answer> {
    match words.next() {
        "null" => with_default::<()>(alloc, call, words),
        "boolean" => with_default::<bool>(alloc, call, words),
        "u64" => with_default::<u64>(alloc, call, words),
        "text" => with_default::<String>(alloc, call, words),
        "integer" => with_default::<IntegerAsn1>(alloc, call, words),
        "octets" => with_default::<OctetStringAsn1>(alloc, call, words),
        "bits" => with_default::<BitStringAsn1>(alloc, call, words),
        "ia5" => with_default::<Ia5StringAsn1>(alloc, call, words),
        "general" => with_default::<GeneralStringAsn1>(alloc, call, words),
        "bmp" => with_default::<BmpStringAsn1>(alloc, call, words),
        name => answer_of_tagged(alloc, name, call, words),
    }
}

fn answer_of_tagged(
    alloc: Global,
    name: &str,
    call: &str,
    words: &mut Words<'_>,
) -> Result<Answer> {
    match name {
        "u8" => tagged::<u8>(alloc, call, words),
        "identifier" => tagged::<ObjectIdentifierAsn1>(alloc, call, words),
        "utctime" => tagged::<UtcTimeAsn1>(alloc, call, words),
        "generalizedtime" => tagged::<GeneralizedTimeAsn1>(alloc, call, words),
        "utf8" => tagged::<Utf8StringAsn1>(alloc, call, words),
        "numeric" => tagged::<NumericStringAsn1>(alloc, call, words),
        "printable" => tagged::<PrintableStringAsn1>(alloc, call, words),
        "raw" => value::<Asn1RawDer>(alloc, call, words),
        "algorithm" => value::<AlgorithmIdentifier>(alloc, call, words),
        wrapper => answer_of_wrapper(alloc, wrapper, call, words),
    }
}

fn answer_of_wrapper(
    alloc: Global,
    name: &str,
    call: &str,
    words: &mut Words<'_>,
) -> Result<Answer> {
    match name {
        "sequence_of_u32" => value::<Asn1SequenceOf<u32>>(alloc, call, words),
        "set_of_u128" => value::<Asn1SetOf<u128>>(alloc, call, words),
        "set_of_boolean" => value::<Asn1SetOf<bool>>(alloc, call, words),
        "octets_of_numbers" => {
            value::<OctetStringAsn1Container<Asn1SequenceOf<u32>>>(alloc, call, words)
        }
        "bits_of_numbers" => {
            value::<BitStringAsn1Container<Asn1SequenceOf<u32>>>(alloc, call, words)
        }
        "bits_of_boolean" => value::<BitStringAsn1Container<bool>>(alloc, call, words),
        "explicit_0_u8" => value::<ExplicitContextTag0<u8>>(alloc, call, words),
        "explicit_1_boolean" => value::<ExplicitContextTag1<bool>>(alloc, call, words),
        "implicit_0_octets" => value::<ImplicitContextTag0<OctetStringAsn1>>(alloc, call, words),
        "implicit_2_boolean" => value::<ImplicitContextTag2<bool>>(alloc, call, words),
        "header_boolean" => value::<HeaderOnly<bool>>(alloc, call, words),
        _ => defaults::answer_of_wrapper(alloc, name, call, words),
    }
}

// The calls of a type with a tag and a default.
fn with_default<T: Asn1Type + Empty + EqualMeaning + DerRead + DerWrite + CopyIn + Drop>(
    alloc: Global,
    call: &str,
    words: &mut Words<'_>,
) -> Result<Answer> {
    match call {
        "encoded" | "left_out" | "written" | "is" => defaults::field::<T>(alloc, call, words),
        _ => tagged::<T>(alloc, call, words),
    }
}

// The calls of a type with a tag.
fn tagged<T: Asn1Type + DerRead + DerWrite + CopyIn + PartialEq + Drop>(
    alloc: Global,
    call: &str,
    words: &mut Words<'_>,
) -> Result<Answer> {
    match call {
        "name" | "tag" => types::of::<T>(call),
        _ => value::<T>(alloc, call, words),
    }
}

fn value<T: DerRead + DerWrite + CopyIn + PartialEq + Drop>(
    alloc: Global,
    call: &str,
    words: &mut Words<'_>,
) -> Result<Answer> {
    let bytes = words.bytes(alloc)?;
    of_bytes::<T>(alloc, call, &bytes, words)
}

fn of_bytes<T: DerRead + DerWrite + CopyIn + PartialEq + Drop>(
    alloc: Global,
    call: &str,
    bytes: &[u8],
    words: &mut Words<'_>,
) -> Result<Answer> {
    match call {
        "read" => read(alloc, value_of::<T>(alloc, bytes)),
        "comes_back" => comes_back::<T>(alloc, bytes),
        "says" => says::<T>(alloc, bytes),
        "equal" => equal::<T>(alloc, bytes, words),
        "nested" => nested::<T>(alloc, bytes, words),
        _ => bad_row("no such call"),
    }
}

/// What a value that is read or made is written as, or the fault.
pub fn read<T: DerRead + DerWrite + CopyIn + PartialEq + Drop>(
    alloc: Global,
    read: Result<T, DerError>,
) -> Result<Answer> {
    match read {
        Ok(value) => written(alloc, &value),
        Err(fault) => refusal(fault),
    }
}

/// What a value is written as, or the fault. Its copy and what is read of what was written are equal to it.
pub fn written<T: DerRead + DerWrite + CopyIn + PartialEq + Drop>(
    alloc: Global,
    value: &T,
) -> Result<Answer> {
    match encoding_of(alloc, value) {
        Ok(bytes) => compared(alloc, value, &bytes),
        Err(fault) => refusal(fault),
    }
}

fn compared<T: DerRead + CopyIn + PartialEq + Drop>(
    alloc: Global,
    value: &T,
    bytes: &[u8],
) -> Result<Answer> {
    let copy = value.copy_in(alloc)?;
    if copy != *value {
        return bad_row("the copy is another value");
    }
    if !is_read_of(alloc, value, bytes)? {
        return bad_row("what is read of what was written is another value");
    }
    Answer::bytes(alloc, bytes)
}

/// Whether the value is what is read of these bytes.
pub fn is_read_of<T: DerRead + PartialEq + Drop>(
    alloc: Global,
    value: &T,
    bytes: &[u8],
) -> Result<bool> {
    let back: T = value_of(alloc, bytes)?;
    Ok(back == *value)
}

/// Whether the bytes are read as a value that is written as them.
pub fn comes_back<T: DerRead + DerWrite + Drop>(alloc: Global, bytes: &[u8]) -> Result<Answer> {
    match value_of::<T>(alloc, bytes) {
        Ok(value) => Ok(Answer::Truth(encoding_of(alloc, &value)?.as_slice() == bytes)),
        Err(fault) => refused(fault, "false"),
    }
}

fn says<T: DerRead + Drop>(alloc: Global, bytes: &[u8]) -> Result<Answer> {
    match value_of::<T>(alloc, bytes) {
        Ok(value) => {
            drop(value);
            bad_row("the bytes are read")
        }
        Err(fault) => Answer::display(alloc, &fault),
    }
}

fn equal<T: DerRead + PartialEq + Drop>(
    alloc: Global,
    bytes: &[u8],
    words: &mut Words<'_>,
) -> Result<Answer> {
    let other: T = next_value(alloc, words)?;
    Ok(Answer::Truth(is_read_of(alloc, &other, bytes)?))
}

fn nested<T: DerRead + DerWrite + CopyIn + PartialEq + Drop>(
    alloc: Global,
    bytes: &[u8],
    words: &mut Words<'_>,
) -> Result<Answer> {
    let mut reader = DerReader::new(bytes);
    for _ in 0..words.size()? {
        reader = plain::nested(&mut reader)?;
    }
    read(alloc, plain::read::<T>(alloc, &mut reader))
}
