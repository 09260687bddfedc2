// INTEGERs of any size.
ghost use Rattle.std.specs.Prelude.{◌≡◌, ◌↔◌, List, ℕ, IsTrue};
ghost use Rattle.picky_asn1_bits.specs.Integer.{IsShortest, repeats_sign};
ghost use Rattle.picky_der.specs.Reading.{Answers};
ghost use Rattle.picky_der.specs.Primitive.{primitive_form, primitive_at};
ghost use Rattle.picky_der.specs.Strings.{is_shortest, integer_of, integer_contents};
ghost use Rattle.picky_der.specs.laws.Strings.{integer_readable, integer_writable, integer_tagged};

use crate::fault::DerError;
use crate::form::{DerForm, DerRead, DerTagged, DerWrite};
use crate::reader::DerReader;
use crate::writing::write_value;
use picky_asn1_bits::IntegerAsn1;
use picky_asn1_tag::Tag;
use picky_contract::Bytes;
use std::alloc::Global;

// Whether all bits of an octet are the sign of the next.
fn repeats_sign(octet: u8, next: u8) -> bool
    ensures { result ≡ repeats_sign octet next }
{
    if octet == 0 {
        next < 128
    } else {
        octet == 255 && 128 <= next
    }
}

// Whether the octets are the fewest of their number.
fn is_shortest(octets: &[u8]) -> bool
    ensures { result ≡ is_shortest octets.now }
{
    match octets {
        [] => false,
        [_] => true,
        [first, second, ..] => !repeats_sign(*first, *second),
    }
}

fn integer_from(octets: &[u8]) -> Result<&[u8], DerError>
    ensures { Answers (λ x. x.now) result (integer_of octets.now) }
{
    if !is_shortest(octets) {
        return Err(DerError::BadValue);
    }
    Ok(octets)
}

/// In form are the shortest spellings of numbers.
impl DerForm for IntegerAsn1 {
    ghost Abstract = { List ℕ };

    ghost stands_for = { λ x. x.0 };

    ghost form = { primitive_form (record { 0 = 2 }) integer_contents };

    ghost same_value = { λ _ _ e. e };
}

impl DerRead for IntegerAsn1 {
    fn begins_with(tag: Tag) -> bool {
        tag == Tag::INTEGER
    }

    #[tactic(auto, unfolding(crate::specs::Primitive::primitive_at))]
    fn read_der(alloc: Global, reader: &mut DerReader<'_>) -> Result<IntegerAsn1, DerError> {
        let mut ahead = reader.fork();
        let octets = integer_from(ahead.read_value(Tag::INTEGER)?)?;
        let value = IntegerAsn1(Bytes::new(Vec::from_slice(alloc, octets)?));
        *reader = ahead;
        Ok(value)
    }

    ghost readable = { integer_readable };
}

impl DerWrite for IntegerAsn1 {
    fn write_der(&self, _alloc: Global, out: &mut Vec<u8>) -> Result<(), DerError> {
        let octets = self.0.as_slice();
        if !is_shortest(octets) {
            return Err(DerError::BadValue);
        }
        write_value(out, Tag::INTEGER, octets)
    }

    ghost writable = { integer_writable };
}

impl DerTagged for IntegerAsn1 {
    ghost tagged = { integer_tagged };
}
