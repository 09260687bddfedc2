// Bit strings under their tag.
ghost use Rattle.std.specs.Prelude.{◌≡◌, ◌≤◌, ◌<◌, ◌*◌, ℕ, List, [], ◌∷◌, length, IfOk};
ghost use Rattle.std.proofs.Common.{arith};
ghost use Rattle.picky_asn1_tag.specs.Default.{one_default};
ghost use Rattle.picky_der.specs.Reading.{Answers, Gives};
ghost use Rattle.picky_der.specs.Primitive.{primitive_form, primitive_at};
ghost use Rattle.picky_asn1_simple.specs.Sets.{tested_of};
ghost use Rattle.picky_asn1_simple.specs.Bits.{is_counted, bits_of, bits_contents};
ghost use Rattle.picky_asn1_simple.specs.laws.Bits.{bits_readable, bits_writable, bits_tagged};

use picky_asn1_bits::BitString;
use picky_asn1_tag::{Asn1Type, Asn1Value, CopyIn, Empty, Tag};
use picky_der::{DerError, DerForm, DerRead, DerReader, DerTagged, DerWrite, write_value};
use std::alloc::{AllocError, Global};
use std::ops::{Deref, DerefMut};

/// A BIT STRING under its tag: its contents are the count of unused bits and the payload (X.690 section 8.6.2).
///
/// Reading answers `BadValue` exactly where the contents are empty, the count is above 7, or it isn't 0 and no octet
/// follows; 2^64 bits or more are answered as want of memory. Unused bits are read as they stand and written as they
/// are held.
#[derive(Debug, Drop, PartialEq, Eq)]
pub struct BitStringAsn1(pub BitString);

impl From<BitString> for BitStringAsn1 {
    ghost from_gives = { λ bits wrapped. wrapped.0 ≡ bits };

    fn from(bits: BitString) -> BitStringAsn1 {
        BitStringAsn1(bits)
    }
}

impl From<BitStringAsn1> for BitString {
    ghost from_gives = { λ wrapped bits. bits ≡ wrapped.0 };

    fn from(wrapped: BitStringAsn1) -> BitString {
        let BitStringAsn1(bits) = wrapped;
        bits
    }
}

impl Deref for BitStringAsn1 {
    type Target = BitString;

    ghost deref_gives = { λ wrapped bits. bits ≡ wrapped.0 };

    fn deref(&self) -> &BitString {
        &self.0
    }
}

impl DerefMut for BitStringAsn1 {
    ghost use Rattle.std.specs.Prelude.{◌≡◌};
    ghost use Rattle.std.specs.Borrow.{Lends, sem};
    ghost use Rattle.picky_asn1_bits.specs.contracts.bit_string.BitString as bits;
    ghost use Rattle.picky_asn1_simple.specs.contracts.bit_string.BitStringAsn1.{the_row};

    ghost deref_mut_gives = { λ wrapped bits. bits ≡ wrapped.0 };

    /// The bits, to be changed in place.
    fn deref_mut(&mut self) -> &mut BitString
        ensures* writes_back { sem 𝓛 (Lends the_row bits.the_row self.entry result (λ b. record { 0 = b })) }
        ensures shows { result.now ≡ self.old.0 }
    {
        &mut self.0
    }
}

impl BitStringAsn1 {
    /// A copy, in memory of its own.
    pub fn clone(&self, alloc: Global) -> Result<BitStringAsn1, AllocError>
        ensures { IfOk result (λ copy. copy ≡ self.now) }
    {
        Ok(BitStringAsn1(self.0.clone(alloc)?))
    }
}

impl Asn1Type for BitStringAsn1 {
    ghost TAG = { record { 0 = 3 } };

    const TAG: Tag = Tag::BIT_STRING;

    const NAME: &'static str = "BitStringAsn1";

    ghost one_byte = { λ h. absurd (Prim.omega arith) };
}

impl Asn1Value for BitStringAsn1 {
    ghost Meaning = { List ℕ };

    ghost meaning = { λ wrapped. wrapped.0 };
}

impl CopyIn for BitStringAsn1 {
    fn copy_in(&self, alloc: Global) -> Result<BitStringAsn1, AllocError> {
        self.clone(alloc)
    }
}

/// No bits.
impl Empty for BitStringAsn1 {
    ghost IsDefault = { λ wrapped. wrapped.0 ≡ 0 ∷ [] };

    fn empty(alloc: Global) -> Result<BitStringAsn1, AllocError> {
        Ok(BitStringAsn1(BitString::empty(alloc)?))
    }

    ghost one_default = { λ x y. one_default (0 ∷ []) x.0 y.0 };
}

impl DerForm for BitStringAsn1 {
    ghost Abstract = { List ℕ };

    ghost stands_for = { λ wrapped. wrapped.0 };

    ghost form = { primitive_form (record { 0 = 3 }) bits_contents };

    ghost same_value = { λ _ _ e. e };
}

// The count of unused bits and the payload.
fn parts(octets: &[u8]) -> Result<(u8, &[u8]), DerError>
    ensures answers { Answers (λ x. x.0 ∷ x.1.now) result (tested_of is_counted octets.now) }
    ensures few { IfOk result (λ x. x.0 < 8) }
    ensures enough { IfOk result (λ x. x.0 ≤ 8 * length x.1.now) }
{
    match octets {
        [count, payload @ ..] if *count == 0 || (*count < 8 && !payload.is_empty()) => {
            Ok((*count, payload))
        }
        _ => Err(DerError::BadValue),
    }
}

// The bits for which the octets stand.
fn bits_of(alloc: Global, octets: &[u8]) -> Result<BitString, DerError>
    ensures { Gives (λ bits. bits) result (bits_of octets.now) }
{
    let (count, payload) = parts(octets)?;
    let Ok(num_bits) = usize::try_from(8 * payload.len() as u128 - count as u128) else {
        return Err(DerError::OutOfMemory);
    };
    let payload = Vec::from_slice(alloc, payload)?;
    Ok(BitString::with_bytes_and_len(alloc, payload, num_bits)?)
}

impl DerRead for BitStringAsn1 {
    fn begins_with(tag: Tag) -> bool {
        tag == Tag::BIT_STRING
    }

    #[tactic(auto, unfolding(picky_der::specs::Primitive::primitive_at))]
    fn read_der(alloc: Global, reader: &mut DerReader<'_>) -> Result<BitStringAsn1, DerError> {
        let mut ahead = reader.fork();
        let bits = bits_of(alloc, ahead.read_value(Tag::BIT_STRING)?)?;
        *reader = ahead;
        Ok(BitStringAsn1(bits))
    }

    ghost readable = { bits_readable };
}

impl DerWrite for BitStringAsn1 {
    fn write_der(&self, _alloc: Global, out: &mut Vec<u8>) -> Result<(), DerError> {
        write_value(out, Tag::BIT_STRING, self.0.as_bytes())
    }

    ghost writable = { bits_writable };
}

impl DerTagged for BitStringAsn1 {
    ghost tagged = { bits_tagged };
}
