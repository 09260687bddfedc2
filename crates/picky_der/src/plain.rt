// NULL, BOOLEAN and UTF8String.
ghost use Rattle.std.specs.Prelude.{◌≡◌, List, ℕ, Bool, IfErr, string_bytes};
ghost use Rattle.picky_der.specs.Reading.{IsOfBytes, Answers, Reads};
ghost use Rattle.picky_der.specs.Primitive.{primitive_form, primitive_at};
ghost use Rattle.picky_der.specs.Plain.{null_of, null_contents, bool_of, bool_contents, utf8_of, utf8_contents};
ghost use Rattle.picky_der.specs.laws.Plain.{null_readable, null_writable, null_tagged, bool_readable, bool_writable, bool_tagged, utf8_readable, utf8_writable, utf8_tagged};

use crate::fault::DerError;
use crate::form::{DerForm, DerRead, DerTagged, DerWrite};
use crate::reader::DerReader;
use crate::writing::write_value;
use picky_asn1_tag::Tag;
use std::alloc::Global;

fn null_from(octets: &[u8]) -> Result<(), DerError>
    ensures answers { Answers (λ x. x) result (null_of octets.now) }
    ensures no_memory { IfErr result IsOfBytes }
{
    match octets {
        [] => Ok(()),
        [_, ..] => Err(DerError::BadValue),
    }
}

impl DerForm for () {
    ghost Abstract = { Unit {0} };

    ghost stands_for = { λ x. x };

    ghost form = { primitive_form (record { 0 = 5 }) null_contents };

    ghost same_value = { λ _ _ e. e };
}

impl DerRead for () {
    fn begins_with(tag: Tag) -> bool {
        tag == Tag::NULL
    }

    #[tactic(auto, unfolding(crate::specs::Primitive::primitive_at))]
    /// Takes no memory.
    fn read_der(_alloc: Global, reader: &mut DerReader<'_>) -> Result<(), DerError>
        ensures reads { Reads (λ x. x) (primitive_at (record { 0 = 5 }) null_of) reader.old result reader.new }
        ensures no_memory { IfErr result IsOfBytes }
    {
        let mut ahead = reader.fork();
        null_from(ahead.read_value(Tag::NULL)?)?;
        *reader = ahead;
        Ok(())
    }

    ghost readable = { null_readable };
}

impl DerWrite for () {
    fn write_der(&self, _alloc: Global, out: &mut Vec<u8>) -> Result<(), DerError> {
        write_value(out, Tag::NULL, &[])
    }

    ghost writable = { null_writable };
}

impl DerTagged for () {
    ghost tagged = { null_tagged };
}

fn bool_from(octets: &[u8]) -> Result<bool, DerError>
    ensures answers { Answers (λ x. x) result (bool_of octets.now) }
    ensures no_memory { IfErr result IsOfBytes }
{
    match octets {
        [octet] => match octet {
            0x00 => Ok(false),
            0xff => Ok(true),
            _ => Err(DerError::BadValue),
        },
        _ => Err(DerError::BadValue),
    }
}

impl DerForm for bool {
    ghost Abstract = { Bool };

    ghost stands_for = { λ x. x };

    ghost form = { primitive_form (record { 0 = 1 }) bool_contents };

    ghost same_value = { λ _ _ e. e };
}

impl DerRead for bool {
    fn begins_with(tag: Tag) -> bool {
        tag == Tag::BOOLEAN
    }

    #[tactic(auto, unfolding(crate::specs::Primitive::primitive_at))]
    /// Takes no memory.
    fn read_der(_alloc: Global, reader: &mut DerReader<'_>) -> Result<bool, DerError>
        ensures reads { Reads (λ x. x) (primitive_at (record { 0 = 1 }) bool_of) reader.old result reader.new }
        ensures no_memory { IfErr result IsOfBytes }
    {
        let mut ahead = reader.fork();
        let value = bool_from(ahead.read_value(Tag::BOOLEAN)?)?;
        *reader = ahead;
        Ok(value)
    }

    ghost readable = { bool_readable };
}

impl DerWrite for bool {
    fn write_der(&self, _alloc: Global, out: &mut Vec<u8>) -> Result<(), DerError> {
        write_value(out, Tag::BOOLEAN, &[if *self { 0xff } else { 0x00 }])
    }

    ghost writable = { bool_writable };
}

impl DerTagged for bool {
    ghost tagged = { bool_tagged };
}

fn utf8_from(octets: &[u8]) -> Result<&str, DerError>
    ensures { Answers (λ x. x.now) result (utf8_of octets.now) }
{
    match std::str::from_utf8(octets) {
        Ok(text) => Ok(text),
        Err(_) => Err(DerError::BadValue),
    }
}

impl DerForm for String {
    ghost Abstract = { List ℕ };

    ghost stands_for = { string_bytes };

    ghost form = { primitive_form (record { 0 = 12 }) utf8_contents };

    ghost same_value = { λ _ _ e. e };
}

impl DerRead for String {
    fn begins_with(tag: Tag) -> bool {
        tag == Tag::UTF8_STRING
    }

    #[tactic(auto, unfolding(crate::specs::Primitive::primitive_at))]
    fn read_der(alloc: Global, reader: &mut DerReader<'_>) -> Result<String, DerError> {
        let mut ahead = reader.fork();
        let value = String::from_str(alloc, utf8_from(ahead.read_value(Tag::UTF8_STRING)?)?)?;
        *reader = ahead;
        Ok(value)
    }

    ghost readable = { utf8_readable };
}

impl DerWrite for String {
    fn write_der(&self, _alloc: Global, out: &mut Vec<u8>) -> Result<(), DerError> {
        let text = self.as_str();
        write_value(out, Tag::UTF8_STRING, text.as_bytes())
    }

    ghost writable = { utf8_writable };
}

impl DerTagged for String {
    ghost tagged = { utf8_tagged };
}
