// A field of a type with a default of its own: a number that is left out where it is 10.
//
//     der_ten.read BYTES            the number that a SEQUENCE of this field is, or the fault
//     der_ten.write N               what it is written as
//     der_ten.is_default N          whether the number is the default
//     der_ten.write_two N N         a SEQUENCE of this field and of a number under [0]
//     der_ten.read_two BYTES
ghost use Rattle.std.specs.Prelude.{◌≡◌, ◌<◌, ◌^◌, ℕ};
ghost use Rattle.std.proofs.Common.{arith};
ghost use Rattle.picky_asn1_tag.specs.Default.{one_default};
ghost use Rattle.picky_der.specs.Primitive.{primitive_form};
ghost use Rattle.picky_der.specs.Natural.{natural_contents};
ghost use Rattle.picky_der.specs.laws.Natural.{natural_readable, natural_writable};
ghost use Rattle.picky_asn1_wrapper.specs.laws.Equal.{nat_equal};

use crate::der::faults::refusal;
use crate::der::plain::{self, bad_row, nested, sequence_of};
use anyhow::Result;
use picky_asn1_tag::{Asn1Value, Empty, Tag};
use picky_asn1_wrapper::{EqualMeaning, ExplicitContextTag0, Optional};
use picky_der::{DerError, DerForm, DerRead, DerReader, DerWrite};
use rows::{Answer, Words};
use std::alloc::{AllocError, Global};

// A number whose default is 10.
#[derive(Drop, PartialEq)]
struct Ten(u8);

impl Asn1Value for Ten {
    ghost Meaning = { ℕ };

    ghost meaning = { λ t. t.0 };
}

impl Empty for Ten {
    ghost IsDefault = { λ t. t.0 ≡ 10 };

    fn empty(_alloc: Global) -> Result<Ten, AllocError> {
        Ok(Ten(10))
    }

    ghost one_default = { λ x y. one_default 10 x.0 y.0 };
}

impl EqualMeaning for Ten {
    ghost equal_meaning = { λ x y. nat_equal x.0 y.0 };
}

impl DerForm for Ten {
    ghost Abstract = { ℕ };

    ghost stands_for = { λ t. t.0 };

    ghost form = { primitive_form (record { 0 = 2 }) (natural_contents (2 ^ 8)) };

    ghost same_value = { λ _ _ e. e };
}

impl DerRead for Ten {
    fn begins_with(tag: Tag) -> bool {
        u8::begins_with(tag)
    }

    fn read_der(alloc: Global, reader: &mut DerReader<'_>) -> Result<Ten, DerError> {
        Ok(Ten(u8::read_der(alloc, reader)?))
    }

    ghost readable = { natural_readable (2 ^ 8) (Prim.omega arith) };
}

impl DerWrite for Ten {
    fn write_der(&self, alloc: Global, out: &mut Vec<u8>) -> Result<(), DerError> {
        self.0.write_der(alloc, out)
    }

    ghost writable = { natural_writable (2 ^ 8) (Prim.omega arith) };
}

pub fn answer(alloc: Global, call: &str, words: &mut Words<'_>) -> Result<Answer> {
    match call {
        "read" => read(alloc, words),
        "write" => Answer::bytes(alloc, &sequence_of(alloc, &write_next(alloc, words)?)?),
        "is_default" => Ok(Answer::Truth(Optional(Ten(words.parsed()?)).is_default(alloc)?)),
        "write_two" => write_two(alloc, words),
        "read_two" => read_two(alloc, words),
        _ => bad_row("no such call"),
    }
}

// The field of the next number.
fn write_next(alloc: Global, words: &mut Words<'_>) -> Result<Vec<u8>> {
    let field = Optional(Ten(words.parsed()?));
    let mut fields = Vec::new(alloc);
    field.write_in(alloc, &mut fields)?;
    Ok(fields)
}

fn write_two(alloc: Global, words: &mut Words<'_>) -> Result<Answer> {
    let mut fields = write_next(alloc, words)?;
    let tagged: u8 = words.parsed()?;
    plain::write(alloc, &ExplicitContextTag0::from(tagged), &mut fields)?;
    Answer::bytes(alloc, &sequence_of(alloc, &fields)?)
}

fn one(alloc: Global, bytes: &[u8]) -> Result<u8, DerError> {
    let mut reader = DerReader::new(bytes);
    let mut fields = nested(&mut reader)?;
    let Optional(Ten(number)) = Optional::read_in(alloc, &mut fields)?;
    fields.end()?;
    reader.end()?;
    Ok(number)
}

fn read(alloc: Global, words: &mut Words<'_>) -> Result<Answer> {
    let bytes = words.bytes(alloc)?;
    match one(alloc, &bytes) {
        Ok(number) => Ok(Answer::Size(number as usize)),
        Err(fault) => refusal(fault),
    }
}

fn two(alloc: Global, bytes: &[u8]) -> Result<(u8, u8), DerError> {
    let mut fields = nested(&mut DerReader::new(bytes))?;
    let Optional(Ten(number)) = Optional::read_in(alloc, &mut fields)?;
    let tagged: ExplicitContextTag0<u8> = plain::read(alloc, &mut fields)?;
    fields.end()?;
    Ok((number, tagged.0))
}

fn read_two(alloc: Global, words: &mut Words<'_>) -> Result<Answer> {
    let bytes = words.bytes(alloc)?;
    match two(alloc, &bytes) {
        Ok((number, tagged)) => Answer::numbers(alloc, &[number as u64, tagged as u64]),
        Err(fault) => refusal(fault),
    }
}
