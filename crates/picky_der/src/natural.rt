// INTEGERs of an unsigned type.
ghost use Rattle.std.specs.Prelude.{◌≡◌, ℕ, ◌+◌, ◌<◌, ◌≤◌, ◌^◌, [], OnOk, IfOk, IfErr, MatchOption};
ghost use Rattle.std.proofs.Common.{arith};
ghost use Rattle.picky_asn1_bits.specs.Integer.{unsigned_of};
ghost use Rattle.picky_der.specs.Reading.{IsOfBytes, Answers, Moves, Reads};
ghost use Rattle.picky_der.specs.Primitive.{SpellsPrimitive, primitive_at, primitive_form};
ghost use Rattle.picky_der.specs.Form.{Writes};
ghost use Rattle.picky_der.specs.Natural.{IsNatural, redundant, natural_of, natural_contents};
ghost use Rattle.picky_der.specs.laws.Natural.{natural_readable, natural_writable, natural_tagged};

use crate::fault::DerError;
use crate::form::{DerForm, DerRead, DerTagged, DerWrite};
use crate::reader::DerReader;
use crate::writing::write_value;
use picky_asn1_tag::Tag;
use std::alloc::{AllocError, Global};

fn number_of(octets: &[u8]) -> Option<u128>
    ensures { MatchOption result (2 ^ 128 ≤ unsigned_of octets.now) (λ n. n ≡ unsigned_of octets.now) }
{
    let mut number: u128 = 0;
    for octet in octets {
        if u128::MAX / 256 < number {
            return None;
        }
        number = number * 256 + *octet as u128;
    }
    Some(number)
}

fn redundant(first: u8, rest: &[u8]) -> bool
    ensures { result ≡ redundant first rest.now }
{
    match rest {
        [] => false,
        [second, ..] => first == 0 && *second < 128,
    }
}

fn natural_from(octets: &[u8], greatest: u128) -> Result<u128, DerError>
    ensures answers { Answers (λ n. n) result (natural_of (greatest + 1) octets.now) }
    ensures within { IfOk result (λ n. n ≤ greatest) }
    ensures no_memory { IfErr result IsOfBytes }
{
    match octets {
        [] => Err(DerError::BadValue),
        [first, rest @ ..] => {
            if 128 <= *first || redundant(*first, rest) {
                return Err(DerError::BadValue);
            }
            match number_of(octets) {
                Some(number) if number <= greatest => Ok(number),
                _ => Err(DerError::BadValue),
            }
        }
    }
}

#[tactic(auto, using(crate::specs::laws::Natural::natural_start, crate::specs::laws::Natural::natural_next))]
fn put_octets(octets: &mut Vec<u8>, number: u128) -> Result<(), AllocError>
    requires { octets.old.items ≡ [] }
    ensures { OnOk result (IsNatural octets.new.items number) }
{
    if number < 128 {
        octets.push(number as u8)?;
        return Ok(());
    }
    put_octets(octets, number / 256)?;
    octets.push((number % 256) as u8)?;
    Ok(())
}

#[tactic(auto, unfolding(crate::specs::Primitive::primitive_at))]
fn read_natural(reader: &mut DerReader<'_>, greatest: u128) -> Result<u128, DerError>
    ensures reads { Moves (λ n. n) (primitive_at (record { 0 = 2 }) (natural_of (greatest + 1))) reader.old result reader.new }
    ensures within { IfOk result (λ n. n ≤ greatest) }
    ensures no_memory { IfErr result IsOfBytes }
{
    let mut ahead = reader.fork();
    let number = natural_from(ahead.read_value(Tag::INTEGER)?, greatest)?;
    *reader = ahead;
    Ok(number)
}

fn write_natural(alloc: Global, number: u128, out: &mut Vec<u8>) -> Result<(), DerError>
    ensures { Writes (λ s. SpellsPrimitive (record { 0 = 2 }) IsNatural s number) ⊥ result out.old.items out.new.items }
{
    let mut octets = Vec::new(alloc);
    put_octets(&mut octets, number)?;
    write_value(out, Tag::INTEGER, &octets)
}

impl DerForm for u8 {
    ghost Abstract = { ℕ };

    ghost stands_for = { λ x. x };

    ghost form = { primitive_form (record { 0 = 2 }) (natural_contents (2 ^ 8)) };

    ghost same_value = { λ _ _ e. e };
}

impl DerRead for u8 {
    fn begins_with(tag: Tag) -> bool {
        tag == Tag::INTEGER
    }

    /// Takes no memory.
    fn read_der(_alloc: Global, reader: &mut DerReader<'_>) -> Result<u8, DerError>
        ensures reads { Reads (λ x. x) (primitive_at (record { 0 = 2 }) (natural_of (2 ^ 8))) reader.old result reader.new }
        ensures no_memory { IfErr result IsOfBytes }
    {
        Ok(read_natural(reader, u8::MAX as u128)? as u8)
    }

    ghost readable = { natural_readable (2 ^ 8) (Prim.omega arith) };
}

impl DerWrite for u8 {
    fn write_der(&self, alloc: Global, out: &mut Vec<u8>) -> Result<(), DerError> {
        write_natural(alloc, *self as u128, out)
    }

    ghost writable = { natural_writable (2 ^ 8) (Prim.omega arith) };
}

impl DerTagged for u8 {
    ghost tagged = { natural_tagged (2 ^ 8) };
}

impl DerForm for u16 {
    ghost Abstract = { ℕ };

    ghost stands_for = { λ x. x };

    ghost form = { primitive_form (record { 0 = 2 }) (natural_contents (2 ^ 16)) };

    ghost same_value = { λ _ _ e. e };
}

impl DerRead for u16 {
    fn begins_with(tag: Tag) -> bool {
        tag == Tag::INTEGER
    }

    /// Takes no memory.
    fn read_der(_alloc: Global, reader: &mut DerReader<'_>) -> Result<u16, DerError>
        ensures reads { Reads (λ x. x) (primitive_at (record { 0 = 2 }) (natural_of (2 ^ 16))) reader.old result reader.new }
        ensures no_memory { IfErr result IsOfBytes }
    {
        Ok(read_natural(reader, u16::MAX as u128)? as u16)
    }

    ghost readable = { natural_readable (2 ^ 16) (Prim.omega arith) };
}

impl DerWrite for u16 {
    fn write_der(&self, alloc: Global, out: &mut Vec<u8>) -> Result<(), DerError> {
        write_natural(alloc, *self as u128, out)
    }

    ghost writable = { natural_writable (2 ^ 16) (Prim.omega arith) };
}

impl DerTagged for u16 {
    ghost tagged = { natural_tagged (2 ^ 16) };
}

impl DerForm for u32 {
    ghost Abstract = { ℕ };

    ghost stands_for = { λ x. x };

    ghost form = { primitive_form (record { 0 = 2 }) (natural_contents (2 ^ 32)) };

    ghost same_value = { λ _ _ e. e };
}

impl DerRead for u32 {
    fn begins_with(tag: Tag) -> bool {
        tag == Tag::INTEGER
    }

    /// Takes no memory.
    fn read_der(_alloc: Global, reader: &mut DerReader<'_>) -> Result<u32, DerError>
        ensures reads { Reads (λ x. x) (primitive_at (record { 0 = 2 }) (natural_of (2 ^ 32))) reader.old result reader.new }
        ensures no_memory { IfErr result IsOfBytes }
    {
        Ok(read_natural(reader, u32::MAX as u128)? as u32)
    }

    ghost readable = { natural_readable (2 ^ 32) (Prim.omega arith) };
}

impl DerWrite for u32 {
    fn write_der(&self, alloc: Global, out: &mut Vec<u8>) -> Result<(), DerError> {
        write_natural(alloc, *self as u128, out)
    }

    ghost writable = { natural_writable (2 ^ 32) (Prim.omega arith) };
}

impl DerTagged for u32 {
    ghost tagged = { natural_tagged (2 ^ 32) };
}

impl DerForm for u64 {
    ghost Abstract = { ℕ };

    ghost stands_for = { λ x. x };

    ghost form = { primitive_form (record { 0 = 2 }) (natural_contents (2 ^ 64)) };

    ghost same_value = { λ _ _ e. e };
}

impl DerRead for u64 {
    fn begins_with(tag: Tag) -> bool {
        tag == Tag::INTEGER
    }

    /// Takes no memory.
    fn read_der(_alloc: Global, reader: &mut DerReader<'_>) -> Result<u64, DerError>
        ensures reads { Reads (λ x. x) (primitive_at (record { 0 = 2 }) (natural_of (2 ^ 64))) reader.old result reader.new }
        ensures no_memory { IfErr result IsOfBytes }
    {
        Ok(read_natural(reader, u64::MAX as u128)? as u64)
    }

    ghost readable = { natural_readable (2 ^ 64) (Prim.omega arith) };
}

impl DerWrite for u64 {
    fn write_der(&self, alloc: Global, out: &mut Vec<u8>) -> Result<(), DerError> {
        write_natural(alloc, *self as u128, out)
    }

    ghost writable = { natural_writable (2 ^ 64) (Prim.omega arith) };
}

impl DerTagged for u64 {
    ghost tagged = { natural_tagged (2 ^ 64) };
}

impl DerForm for u128 {
    ghost Abstract = { ℕ };

    ghost stands_for = { λ x. x };

    ghost form = { primitive_form (record { 0 = 2 }) (natural_contents (2 ^ 128)) };

    ghost same_value = { λ _ _ e. e };
}

impl DerRead for u128 {
    fn begins_with(tag: Tag) -> bool {
        tag == Tag::INTEGER
    }

    /// Takes no memory.
    fn read_der(_alloc: Global, reader: &mut DerReader<'_>) -> Result<u128, DerError>
        ensures reads { Reads (λ x. x) (primitive_at (record { 0 = 2 }) (natural_of (2 ^ 128))) reader.old result reader.new }
        ensures no_memory { IfErr result IsOfBytes }
    {
        Ok(read_natural(reader, u128::MAX)?)
    }

    ghost readable = { natural_readable (2 ^ 128) (Prim.omega arith) };
}

impl DerWrite for u128 {
    fn write_der(&self, alloc: Global, out: &mut Vec<u8>) -> Result<(), DerError> {
        write_natural(alloc, *self, out)
    }

    ghost writable = { natural_writable (2 ^ 128) (Prim.omega arith) };
}

impl DerTagged for u128 {
    ghost tagged = { natural_tagged (2 ^ 128) };
}
