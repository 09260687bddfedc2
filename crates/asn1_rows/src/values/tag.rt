// Tags. A tag is given by its byte in hex, and so is the number of a constructor.
//
//     tag.constant NAME                           the byte of a constant, as `SEQUENCE`
//     tag.display TAG                             what `{}` prints
//     tag.debug TAG                               what `{:?}` prints
//     tag.inner TAG
//     tag.class TAG                               what `{}` prints of it; so do the next
//     tag.encoding TAG
//     tag.number TAG
//     tag.is_universal TAG
//     tag.is_application TAG
//     tag.is_context_specific TAG
//     tag.is_private TAG
//     tag.is_constructed TAG
//     tag.is_primitive TAG
//     tag.application_primitive NUMBER            the byte of the tag
//     tag.application_constructed NUMBER
//     tag.context_specific_primitive NUMBER
//     tag.context_specific_constructed NUMBER
//     tag.copy TAG                                the copy's byte
//     tag.copy_class TAG                          what `{}` prints of a copy
//     tag.copy_encoding TAG
use crate::bad_row;
use anyhow::Result;
use picky_asn1::CopyIn;
use picky_asn1::tag::Tag;
use rows::{Answer, Words};
use std::alloc::Global;
use std::fmt;

pub(crate) fn answer(alloc: Global, call: &str, words: &mut Words<'_>) -> Result<Answer> {
    match call {
        "constant" => constant(words.next()),
        _ => of_byte(alloc, call, words.byte()?),
    }
}

fn constant(name: &str) -> Result<Answer> {
    match name {
        "BOOLEAN" => Ok(Answer::Byte(Tag::BOOLEAN.0)),
        "INTEGER" => Ok(Answer::Byte(Tag::INTEGER.0)),
        "BIT_STRING" => Ok(Answer::Byte(Tag::BIT_STRING.0)),
        "OCTET_STRING" => Ok(Answer::Byte(Tag::OCTET_STRING.0)),
        "NULL" => Ok(Answer::Byte(Tag::NULL.0)),
        "OID" => Ok(Answer::Byte(Tag::OID.0)),
        "REAL" => Ok(Answer::Byte(Tag::REAL.0)),
        "UTF8_STRING" => Ok(Answer::Byte(Tag::UTF8_STRING.0)),
        "RELATIVE_OID" => Ok(Answer::Byte(Tag::RELATIVE_OID.0)),
        "NUMERIC_STRING" => Ok(Answer::Byte(Tag::NUMERIC_STRING.0)),
        "PRINTABLE_STRING" => Ok(Answer::Byte(Tag::PRINTABLE_STRING.0)),
        "TELETEX_STRING" => Ok(Answer::Byte(Tag::TELETEX_STRING.0)),
        "VIDEOTEX_STRING" => Ok(Answer::Byte(Tag::VIDEOTEX_STRING.0)),
        "IA5_STRING" => Ok(Answer::Byte(Tag::IA5_STRING.0)),
        "UTC_TIME" => Ok(Answer::Byte(Tag::UTC_TIME.0)),
        "GENERALIZED_TIME" => Ok(Answer::Byte(Tag::GENERALIZED_TIME.0)),
        "GENERAL_STRING" => Ok(Answer::Byte(Tag::GENERAL_STRING.0)),
        "BMP_STRING" => Ok(Answer::Byte(Tag::BMP_STRING.0)),
        "SEQUENCE" => Ok(Answer::Byte(Tag::SEQUENCE.0)),
        "SET" => Ok(Answer::Byte(Tag::SET.0)),
        _ => bad_row("no such tag"),
    }
}

fn of_byte(alloc: Global, call: &str, byte: u8) -> Result<Answer> {
    match call {
        "application_primitive" => Ok(Answer::Byte(Tag::application_primitive(byte).0)),
        "application_constructed" => Ok(Answer::Byte(Tag::application_constructed(byte).0)),
        "context_specific_primitive" => Ok(Answer::Byte(Tag::context_specific_primitive(byte).0)),
        "context_specific_constructed" => {
            Ok(Answer::Byte(Tag::context_specific_constructed(byte).0))
        }
        _ => of_tag(alloc, call, Tag::from(byte)),
    }
}

fn of_tag(alloc: Global, call: &str, tag: Tag) -> Result<Answer> {
    match call {
        "display" => Answer::display(alloc, &tag),
        "debug" => Answer::debug(alloc, &tag),
        "class" => Answer::display(alloc, &tag.class()),
        "encoding" => Answer::display(alloc, &tag.encoding()),
        "inner" => Ok(Answer::Byte(tag.inner())),
        "number" => Ok(Answer::Size(usize::from(tag.number()))),
        "copy" => Ok(Answer::Byte(tag.copy_in(alloc)?.0)),
        "copy_class" => printed_copy(alloc, &tag.class()),
        "copy_encoding" => printed_copy(alloc, &tag.encoding()),
        _ => test(call, tag),
    }
}

fn printed_copy<T: CopyIn + fmt::Display + Drop>(alloc: Global, value: &T) -> Result<Answer> {
    Answer::display(alloc, &value.copy_in(alloc)?)
}

fn test(call: &str, tag: Tag) -> Result<Answer> {
    match call {
        "is_universal" => Ok(Answer::Truth(tag.is_universal())),
        "is_application" => Ok(Answer::Truth(tag.is_application())),
        "is_context_specific" => Ok(Answer::Truth(tag.is_context_specific())),
        "is_private" => Ok(Answer::Truth(tag.is_private())),
        "is_constructed" => Ok(Answer::Truth(tag.is_constructed())),
        "is_primitive" => Ok(Answer::Truth(tag.is_primitive())),
        _ => bad_row("no such call"),
    }
}
