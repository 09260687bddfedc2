// ECDSA signatures: the pair in DER, and its form of fixed size.
#![tactic(auto, unfolding(crate::specs::Ecdsa::ecdsa_pair, picky_fields::specs::Fields::enclosed_at, picky_fields::specs::Fields::run_at))]

ghost use Rattle.std.specs.Prelude.{◌≡◌, ◌≤◌, ◌<◌, ◌^◌, ◌↔◌, length, IfOk, IsTrue};
ghost use Rattle.picky_asn1_bits.specs.Integer.{IsShortest, unsigned_spelling};
ghost use Rattle.picky_der.specs.Strings.{is_shortest};
ghost use Rattle.picky_contract.specs.Refusals.{Meets, OkOrMemory};
ghost use Rattle.picky_key_der.specs.declared.ecdsa.EcdsaSignatureValue.{EcdsaSignatureValue as Pair};
ghost use Rattle.picky_key_der.specs.Ecdsa.{PairValue, pair_value, ecdsa_pair_lawful, ecdsa_pair, padded, Fits, IsNumber, ArePadded, AreHalves, signature_fault, halves_table, number_table, fixed_table, fixed_of};

use crate::SignatureError;
use picky_asn1_bits::IntegerAsn1;
use picky_asn1_tag::{Asn1Value, CopyIn, Tag};
use picky_der::{DerError, DerForm, DerRead, DerReader, DerWrite, write_value};
use std::alloc::{AllocError, Global};

/// An ECDSA signature: a SEQUENCE of the INTEGERs r and s (RFC 5480 appendix A; RFC 3279 section 2.2.3).
#[derive(Debug, Drop, PartialEq, Eq)]
pub struct EcdsaSignatureValue {
    /// The number r.
    pub r: IntegerAsn1,
    /// The number s.
    pub s: IntegerAsn1,
}

// The number of these bytes, in its shortest spelling.
fn number(alloc: Global, bytes: &[u8]) -> Result<IntegerAsn1, AllocError>
    ensures { IfOk result (λ i. i.0 ≡ unsigned_spelling bytes.now) }
{
    IntegerAsn1::from_bytes_be_unsigned(alloc, Vec::from_slice(alloc, bytes)?)
}

// Whether there is a byte, and the first nine bits aren't all alike.
#[tactic(auto, using(crate::specs::laws::Ecdsa::shortest_to, crate::specs::laws::Ecdsa::shortest_back))]
fn is_shortest(octets: &[u8]) -> bool
    ensures value { result ≡ is_shortest octets.now }
    ensures means { IsTrue result ↔ IsShortest octets.now }
{
    match octets {
        [] => false,
        [_] => true,
        [first, second, ..] => {
            if *first == 0 {
                return 128 <= *second;
            }
            *first != 255 || *second < 128
        }
    }
}

// Whether the number is at least zero, and in its shortest spelling.
fn is_number(number: &IntegerAsn1) -> bool
    ensures { IsTrue result ↔ IsNumber number.now.0 }
{
    number.is_positive() && is_shortest(number.0.as_slice())
}

// The bytes with as many 00 in front as make up the size.
pub(crate) fn padded(alloc: Global, bytes: &[u8], size: usize) -> Result<Vec<u8>, AllocError>
    requires { length bytes.now ≤ size }
    ensures value { IfOk result (λ v. v.items ≡ padded size bytes.now) }
    ensures sized { IfOk result (λ v. length v.items ≡ size) }
{
    let mut out = vec![in alloc; 0u8; size - bytes.len()]?;
    out.extend_from_slice(bytes)?;
    Ok(out)
}

// The bytes of a number, of this size.
#[tactic(auto, unfolding(crate::specs::Ecdsa::number_table))]
fn fixed(alloc: Global, number: &IntegerAsn1, size: usize) -> Result<Vec<u8>, SignatureError>
    ensures { Meets (λ v. v.items) signature_fault result (number_table size number.now.0) }
{
    let bytes = number.as_unsigned_bytes_be();
    if bytes.len() > size {
        return Err(SignatureError::Ec {
            expected: size,
            got: bytes.len(),
        });
    }
    Ok(padded(alloc, bytes, size)?)
}

// The bytes of both numbers, each of this size.
#[tactic(auto, unfolding(crate::specs::Ecdsa::fixed_table))]
fn fixed_pair(
    alloc: Global,
    pair: &EcdsaSignatureValue,
    size: usize,
) -> Result<Vec<u8>, SignatureError>
    ensures { Meets (λ v. v.items) signature_fault result (fixed_table size pair.now) }
{
    let mut out = fixed(alloc, &pair.r, size)?;
    let s = fixed(alloc, &pair.s, size)?;
    out.extend_from_slice(&s)?;
    Ok(out)
}

impl EcdsaSignatureValue {
    /// The pair whose numbers are the two halves, big-endian, each in its shortest spelling.
    ///
    /// The size of one half is 32, 48 or 66 bytes for the curves P-256, P-384 and P-521. `Ec` exactly where the length
    /// isn't twice the size.
    #[tactic(auto, unfolding(crate::specs::Ecdsa::halves_table))]
    pub fn from_fixed(
        alloc: Global,
        bytes: &[u8],
        size: usize,
    ) -> Result<EcdsaSignatureValue, SignatureError>
        requires some { 0 < size }
        requires few { size < 2 ^ 63 }
        ensures found { IfOk result (AreHalves size bytes.now) }
        ensures every { (pair : Pair) → AreHalves size bytes.now pair → OkOrMemory (λ p. p) signature_fault result pair }
        ensures first { Meets (λ p. p) signature_fault result (halves_table size bytes.now) }
    {
        if bytes.len() != 2 * size {
            return Err(SignatureError::Ec {
                expected: 2 * size,
                got: bytes.len(),
            });
        }
        let (r, s) = bytes.split_at(size);
        Ok(EcdsaSignatureValue {
            r: number(alloc, r)?,
            s: number(alloc, s)?,
        })
    }

    /// Whether both numbers are at least zero and in their shortest spelling, as `to_fixed` asks; without taking memory.
    pub fn is_proper(&self) -> bool
        ensures { IsTrue result ↔ (IsNumber self.now.r.0 × IsNumber self.now.s.0) }
    {
        is_number(&self.r) && is_number(&self.s)
    }

    /// The bytes of r and then those of s, big-endian, each with as many 00 in front as make up the size.
    ///
    /// Both numbers are at least zero and in their shortest spelling (`is_proper`). `Ec` exactly where r, or else s, has more bytes than
    /// the size.
    pub fn to_fixed(&self, alloc: Global, size: usize) -> Result<Vec<u8>, SignatureError>
        requires r { IsNumber self.now.r.0 }
        requires s { IsNumber self.now.s.0 }
        ensures found { IfOk result (λ v. ArePadded size self.now v.items) }
        ensures every { Fits size self.now → OkOrMemory (λ v. v.items) signature_fault result (fixed_of size self.now) }
        ensures first { Meets (λ v. v.items) signature_fault result (fixed_table size self.now) }
    {
        fixed_pair(alloc, self, size)
    }

    /// A copy, in memory of its own.
    pub fn clone(&self, alloc: Global) -> Result<EcdsaSignatureValue, AllocError>
        ensures { IfOk result (λ copy. copy ≡ self.now) }
    {
        Ok(EcdsaSignatureValue {
            r: self.r.clone(alloc)?,
            s: self.s.clone(alloc)?,
        })
    }
}

impl Asn1Value for EcdsaSignatureValue {
    ghost Meaning = { PairValue };

    ghost meaning = { pair_value };
}

impl CopyIn for EcdsaSignatureValue {
    fn copy_in(&self, alloc: Global) -> Result<EcdsaSignatureValue, AllocError> {
        self.clone(alloc)
    }
}

/// In form are pairs of shortest spellings of numbers, which may be below zero. Each is spelled one way.
impl DerForm for EcdsaSignatureValue {
    ghost Abstract = { PairValue };

    ghost stands_for = { pair_value };

    ghost form = { ecdsa_pair };

    ghost same_value = { λ _ _ e. e };
}

impl DerRead for EcdsaSignatureValue {
    fn begins_with(tag: Tag) -> bool {
        tag == Tag::SEQUENCE
    }

    fn read_der(
        alloc: Global,
        reader: &mut DerReader<'_>,
    ) -> Result<EcdsaSignatureValue, DerError> {
        let mut ahead = reader.fork();
        let mut fields = ahead.nested(Tag::SEQUENCE)?;
        let r = IntegerAsn1::read_der(alloc, &mut fields)?;
        let s = IntegerAsn1::read_der(alloc, &mut fields)?;
        fields.end()?;
        *reader = ahead;
        Ok(EcdsaSignatureValue { r, s })
    }

    ghost readable = { ecdsa_pair_lawful.readable };
}

impl DerWrite for EcdsaSignatureValue {
    fn write_der(&self, alloc: Global, out: &mut Vec<u8>) -> Result<(), DerError> {
        let mut fields = Vec::new(alloc);
        self.r.write_der(alloc, &mut fields)?;
        self.s.write_der(alloc, &mut fields)?;
        write_value(out, Tag::SEQUENCE, &fields)
    }

    ghost writable = { ecdsa_pair_lawful.writable };
}
