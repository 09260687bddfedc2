// Whole numbers.
ghost use Rattle.std.specs.Prelude.{◌≡◌, ◌≢◌, ◌↔◌, pos, ◌≤ℤ◌, ◌<ℤ◌, ◌++◌, ◌<◌, ◌≤◌, length, drop, [], IsTrue, IfOk, Some, codes};
ghost use Rattle.picky_asn1_tag.specs.Hex.{hex_text};
ghost use Rattle.picky_asn1_bits.specs.Integer.{int_of, unsigned_of, IsShortest, some_bytes, without_sign_byte, shortened, repeats_sign, unsigned_spelling};

use picky_asn1_tag::HexBytes;
use picky_contract::Bytes;
use std::alloc::{AllocError, Global};
use std::fmt;
use std::ops::{Deref, DerefMut};

/// A whole number of any size, as the two's complement bytes of an INTEGER; zero where there is no byte.
#[derive(Drop, PartialEq, Eq, PartialOrd, Hash)]
pub struct IntegerAsn1(pub Bytes);

impl IntegerAsn1 {
    /// Whether the number is at least zero.
    pub fn is_positive(&self) -> bool
        ensures { IsTrue result ↔ (pos 0 ≤ℤ int_of self.now.0) }
    {
        is_nonnegative(self.0.as_slice())
    }

    /// Whether the number is below zero.
    pub fn is_negative(&self) -> bool
        ensures { IsTrue result ↔ (int_of self.now.0 <ℤ pos 0) }
    {
        !self.is_positive()
    }

    /// The bytes without one leading 00 of a longer value, and 00 for none: for a number that is at least zero, its
    /// big-endian bytes.
    pub fn as_unsigned_bytes_be(&self) -> &[u8]
        ensures value { result.now ≡ without_sign_byte self.now.0 }
        ensures number { pos 0 ≤ℤ int_of self.now.0 → pos (unsigned_of result.now) ≡ int_of self.now.0 }
    {
        unsigned_bytes(self.0.as_slice())
    }

    /// The bytes, and 00 for none.
    pub fn as_signed_bytes_be(&self) -> &[u8]
        ensures value { result.now ≡ some_bytes self.now.0 }
        ensures number { int_of result.now ≡ int_of self.now.0 }
    {
        match self.0.as_slice() {
            [] => &[0],
            bytes => bytes,
        }
    }

    /// The number of these two's complement bytes, without redundant bytes in front. Takes no memory.
    pub fn from_bytes_be_signed(bytes: Vec<u8>) -> IntegerAsn1
        ensures value { result.0 ≡ shortened bytes.items }
        ensures number { int_of result.0 ≡ int_of bytes.items }
        ensures shortest { bytes.items ≢ [] → IsShortest result.0 }
    {
        let start = redundant_len(&bytes);
        IntegerAsn1(Bytes::new(without_front(bytes, start)))
    }

    /// The number of these big-endian bytes. For nonempty bytes it is the shortest spelling; no byte stays no byte.
    /// Refused for want of memory alone.
    pub fn from_bytes_be_unsigned(_alloc: Global, bytes: Vec<u8>) -> Result<IntegerAsn1, AllocError>
        ensures value { IfOk result (λ i. i.0 ≡ unsigned_spelling bytes.items) }
        ensures number { IfOk result (λ i. int_of i.0 ≡ pos (unsigned_of bytes.items)) }
        ensures shortest { bytes.items ≢ [] → IfOk result (λ i. IsShortest i.0) }
        ensures none { bytes.items ≡ [] → IfOk result (λ i. i.0 ≡ []) }
    {
        let mut bytes = bytes;
        if let Some(first) = bytes.first()
            && *first >= 128
        {
            bytes.insert(0, 0)?;
        }
        Ok(IntegerAsn1::from_bytes_be_signed(bytes))
    }

    /// A copy, in memory of its own.
    pub fn clone(&self, alloc: Global) -> Result<IntegerAsn1, AllocError>
        ensures { IfOk result (λ copy. copy ≡ self.now) }
    {
        Ok(IntegerAsn1(self.0.clone(alloc)?))
    }
}

// Whether the number of these bytes is at least zero.
fn is_nonnegative(bytes: &[u8]) -> bool
    ensures { IsTrue result ↔ (pos 0 ≤ℤ int_of bytes.now) }
{
    match bytes {
        [first, ..] => *first < 128,
        [] => true,
    }
}

// The bytes without one leading 00 of a longer value, and 00 for none.
fn unsigned_bytes(bytes: &[u8]) -> &[u8]
    ensures value { result.now ≡ without_sign_byte bytes.now }
    ensures number { pos 0 ≤ℤ int_of bytes.now → pos (unsigned_of result.now) ≡ int_of bytes.now }
{
    match bytes {
        [] => &[0],
        [0, rest @ ..] if !rest.is_empty() => rest,
        _ => bytes,
    }
}

// Whether all bits of a byte are the sign of the next.
fn repeats_sign(byte: u8, next: u8) -> bool
    ensures { result ≡ repeats_sign byte next }
{
    if byte == 0 {
        next < 128
    } else {
        byte == 255 && 128 <= next
    }
}

// How many bytes in front repeat the sign of the next.
fn redundant_len(bytes: &[u8]) -> usize
    ensures within { result ≤ length bytes.now }
    ensures rest { drop result bytes.now ≡ shortened bytes.now }
{
    let mut start = 0;
    while start + 1 < bytes.len() && repeats_sign(bytes[start], bytes[start + 1]) {
        start += 1;
    }
    start
}

// The bytes without so many in front.
fn without_front(bytes: Vec<u8>, count: usize) -> Vec<u8>
    requires { count ≤ length bytes.items }
    ensures { result.items ≡ drop count bytes.items }
{
    let mut bytes = bytes;
    bytes.drain(..count);
    bytes
}

impl fmt::Debug for IntegerAsn1 {
    ghost debug_output = { λ i. Some (codes "Integer(" ++ hex_text i.0 ++ codes ")") };

    fn fmt<W: fmt::Write>(&self, f: &mut fmt::Formatter<W>) -> fmt::Result {
        write!(f, "Integer({})", HexBytes(self.0.as_slice()))
    }
}

impl From<Vec<u8>> for IntegerAsn1 {
    ghost from_gives = { λ v i. i.0 ≡ v.items };

    fn from(bytes: Vec<u8>) -> IntegerAsn1 {
        IntegerAsn1(Bytes::new(bytes))
    }
}

impl From<IntegerAsn1> for Vec<u8> {
    ghost from_gives = { λ i v. v.items ≡ i.0 };

    fn from(integer: IntegerAsn1) -> Vec<u8> {
        let IntegerAsn1(bytes) = integer;
        bytes.into_vec()
    }
}

impl Deref for IntegerAsn1 {
    type Target = Vec<u8>;

    ghost deref_gives = { λ i v. v.items ≡ i.0 };

    fn deref(&self) -> &Vec<u8> {
        self.0.deref()
    }
}

impl DerefMut for IntegerAsn1 {
    ghost use Rattle.std.specs.Prelude.{◌≡◌};
    ghost use Rattle.std.specs.Borrow.{Lends, sem};
    ghost use Rattle.picky_contract.specs.Rows.{bytes_row};
    ghost use Rattle.picky_asn1_bits.specs.contracts.integer.IntegerAsn1.{the_row};

    ghost deref_mut_gives = { λ i v. v.items ≡ i.0 };

    /// The bytes, to be changed in place.
    fn deref_mut(&mut self) -> &mut Vec<u8>
        ensures* writes_back { sem 𝓛 (Lends the_row bytes_row self.entry result (λ v. record { 0 = v.items })) }
        ensures shows { result.now.items ≡ self.old.0 }
    {
        self.0.deref_mut()
    }
}
