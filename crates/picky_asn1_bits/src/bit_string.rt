// Bit strings.
ghost use Rattle.std.specs.Prelude.{◌≡◌, ◌<◌, ◌≤◌, ◌+◌, ◌*◌, ◌-◌, ◌↔◌, ◌%◌, ℕ, ◌∷◌, length, IsTrue, IfOk, OnOk, OnErr, slice_index, slice_set, Some, nat_eq};
ghost use Rattle.std.proofs.Common.{rules};
ghost use Rattle.std.specs.Ordering.{nat_cmp, as_partial_cmp};
ghost use Rattle.std.specs.Cmp.Lexicographic.{slice_cmp, pointwise};
ghost use Rattle.std.specs.Cmp.{partial_order_from_own_ties};
ghost use Rattle.std.specs.Cmp.Rules.{comparing, hashing};
ghost use Rattle.std.specs.Hash as fed;
ghost use Rattle.std.specs.Int.{bit_at};
ghost use Rattle.picky_asn1_tag.specs.Hex.{hex_text};
ghost use Rattle.picky_asn1_bits.specs.Bits.{unused, payload, bit_count, bit, bit_of, IsBitString, SetsBit, Resizes};

use picky_asn1_tag::HexBytes;
use std::alloc::{AllocError, Global};
use std::cmp::Ordering;
use std::fmt;
use std::hash::{Hash, Hasher};
use std::marker::Model;

/// A count byte and a payload: the count says how many low bits of the payload's last byte are unused.
///
/// Bit 0 is the bit of value 128 in the first byte of the payload. Unused bits are kept as they are
/// held; equality, order and hash look at the bytes.
#[derive(Drop)]
pub struct BitString {
    data: Vec<u8>,
}

impl Model for BitString {
    ghost use Rattle.std.specs.Prelude.{ℕ, List};
    ghost use Rattle.picky_asn1_bits.specs.Bits.{IsBitString};

    ghost Value = { List ℕ };

    ghost view = { λ b. b.data.items };

    ghost invariant = { λ b. IsBitString b.data.items };
}

// How many bits of the last byte are unused where there are so many bits.
fn unused_after(num_bits: usize) -> u8
    ensures below { result < 8 }
    ensures whole { (num_bits + result) % 8 ≡ 0 }
{
    ((8 - num_bits % 8) % 8) as u8
}

// The byte with this many low bits cleared.
fn without_low_bits(byte: u8, count: usize) -> u8
    requires { count < 8 }
    ensures cleared { (k : ℕ) → k < count → bit_at result k ≡ 0 }
    ensures kept { (k : ℕ) → count ≤ k → bit_at result k ≡ bit_at byte k }
{
    byte & (u8::MAX << count)
}

impl BitString {
    ghost use Rattle.std.specs.Borrow.{sem};
    ghost use Rattle.picky_asn1_bits.specs.Lends.{LendsBucket, LendsPayload};

    /// So many bits, all 0. Refused for want of memory alone.
    pub fn with_len(alloc: Global, num_bits: usize) -> Result<BitString, AllocError>
        ensures counted { IfOk result (λ b. bit_count b ≡ num_bits) }
        ensures cleared { IfOk result (λ b. (i : ℕ) → bit b i ≡ 0) }
    {
        let mut data = vec![in alloc; 0u8; num_bits.div_ceil(8) + 1]?;
        data[0] = unused_after(num_bits);
        Ok(BitString { data })
    }

    /// The first so many bits of these bytes; at most seven bits of the last byte are left unused, and kept as
    /// they are. Refused for want of memory alone.
    pub fn with_bytes_and_len(
        _alloc: Global,
        bytes: Vec<u8>,
        num_bits: usize,
    ) -> Result<BitString, AllocError>
        requires enough { num_bits ≤ 8 * length bytes.items }
        requires few_unused { 8 * length bytes.items < num_bits + 8 }
        ensures { IfOk result (λ b. b ≡ (8 * length bytes.items - num_bits) ∷ bytes.items) }
    {
        let mut data = bytes;
        data.insert(0, unused_after(num_bits))?;
        Ok(BitString { data })
    }

    /// All bits of these bytes. Refused for want of memory, also where there are 2^64 bits or more.
    pub fn with_bytes(_alloc: Global, bytes: Vec<u8>) -> Result<BitString, AllocError>
        ensures { IfOk result (λ b. b ≡ 0 ∷ bytes.items) }
    {
        if bytes.len() > usize::MAX / 8 {
            return Err(AllocError);
        }
        let mut data = bytes;
        data.insert(0, 0)?;
        Ok(BitString { data })
    }

    /// A copy, in memory of its own.
    pub fn clone(&self, alloc: Global) -> Result<BitString, AllocError>
        ensures { IfOk result (λ copy. copy ≡ self.now) }
    {
        let data = Vec::from_slice(alloc, &self.data)?;
        Ok(BitString { data })
    }

    /// The count and the payload, the contents of a BIT STRING.
    pub fn as_bytes(&self) -> &[u8]
        ensures bytes { result.now ≡ self.now }
        ensures bit_string { IsBitString result.now }
    {
        self.data.as_slice()
    }

    /// The payload.
    pub fn payload_view(&self) -> &[u8]
        ensures { result.now ≡ payload self.now }
    {
        &self.data[1..]
    }

    /// The payload, to be changed in place. The count and the length stay.
    pub fn payload_view_mut(&mut self) -> &mut [u8]
        ensures* writes_back { sem 𝓛 (LendsPayload self.entry result) }
        ensures value { result.now ≡ payload self.old }
    {
        // Of an index by a range it isn't known what the `Vec` holds afterwards.
        self.data.slice_mut(1..)
    }

    /// The payload, without taking memory.
    pub fn into_payload(self) -> Vec<u8>
        ensures { result.items ≡ payload self }
    {
        let BitString { mut data } = self;
        data.remove(0);
        data
    }

    /// How many bits there are.
    pub fn get_num_bits(&self) -> usize
        ensures { result ≡ bit_count self.now }
    {
        match self.get_num_buckets() {
            0 => 0,
            buckets => (buckets - 1) * 8 + (8 - self.data[0]) as usize,
        }
    }

    /// How many low bits of the payload's last byte are unused, 0 to 7.
    pub fn get_num_unused_bits(&self) -> u8
        ensures value { result ≡ unused self.now }
        ensures below { result < 8 }
    {
        self.data[0]
    }

    /// How many bytes the payload has.
    pub fn get_num_buckets(&self) -> usize
        ensures { result ≡ length (payload self.now) }
    {
        self.data.len() - 1
    }

    /// Cuts or fills to so many bits: bits below both lengths stay, and all others, unused ones too, are 0.
    /// Refused for want of memory alone, and then nothing changes.
    pub fn set_num_bits(&mut self, num_bits: usize) -> Result<(), AllocError>
        ensures ok { OnOk result (Resizes self.old self.new num_bits) }
        ensures err { OnErr result (self.new ≡ self.old) }
    {
        let kept = self.get_num_bits().min(num_bits);
        self.data.resize(num_bits.div_ceil(8) + 1, 0)?;
        self.data[0] = unused_after(num_bits);
        if kept % 8 != 0 {
            let last = self.data[1 + kept / 8];
            self.data[1 + kept / 8] = without_low_bits(last, 8 - kept % 8);
        }
        Ok(())
    }

    /// Whether bit `i` is 1. A bit at or past the length isn't.
    pub fn is_set(&self, i: usize) -> bool
        ensures { IsTrue result ↔ ((i < bit_count self.now) × (bit self.now i ≡ 1)) }
    {
        i < self.get_num_bits() && (self.data[1 + i / 8] >> (7 - i % 8)) & 1 == 1
    }

    /// Sets bit `i`. At or past the length nothing changes.
    pub fn set(&mut self, i: usize, val: bool)
        ensures inside { i < bit_count self.old → SetsBit self.old self.new i (bit_of val) }
        ensures outside { bit_count self.old ≤ i → self.new ≡ self.old }
    {
        if i < self.get_num_bits() {
            let byte = &mut self.data[1 + i / 8];
            let mask = 1u8 << (7 - i % 8);
            if val {
                *byte |= mask;
            } else {
                *byte &= !mask;
            }
        }
    }

    /// Byte `i` of the payload.
    pub fn get_bucket(&self, i: usize) -> u8
        requires { i < length (payload self.now) }
        ensures { result ≡ slice_index (payload self.now) i }
    {
        self.data[1 + i]
    }

    /// Byte `i` of the payload, to be changed in place.
    pub fn get_bucket_mut(&mut self, i: usize) -> &mut u8
        requires { i < length (payload self.old) }
        ensures* writes_back { sem 𝓛 (LendsBucket self.entry i result) }
        ensures value { result.now ≡ slice_index (payload self.old) i }
    {
        &mut self.data[1 + i]
    }

    /// Sets byte `i` of the payload.
    pub fn set_bucket(&mut self, i: usize, value: u8)
        requires { i < length (payload self.old) }
        ensures { self.new ≡ slice_set self.old (1 + i) value }
    {
        self.data[1 + i] = value;
    }
}

impl fmt::Debug for BitString {
    ghost debug_output = { λ b. Some (hex_text b) };

    fn fmt<W: fmt::Write>(&self, f: &mut fmt::Formatter<W>) -> fmt::Result {
        write!(f, "{}", HexBytes(self.as_bytes()))
    }
}

impl From<BitString> for Vec<u8> {
    ghost from_gives = { λ b v. v.items ≡ payload b };

    fn from(bits: BitString) -> Vec<u8> {
        bits.into_payload()
    }
}

impl PartialEq for BitString {
    ghost eq = { pointwise nat_eq };

    ghost laws = { Prim.search (comparing, rules) };

    fn eq(&self, other: &BitString) -> bool {
        self.as_bytes() == other.as_bytes()
    }
}

impl Eq for BitString {
    ghost laws = { Prim.search (comparing, rules) };
}

impl Ord for BitString {
    ghost cmp = { slice_cmp nat_cmp };

    ghost total = { Prim.search (comparing, rules) };

    ghost matches_partial_cmp = { Prim.search (comparing, rules) };

    ghost matches_eq = { Prim.search (comparing, rules) };

    fn cmp(&self, other: &BitString) -> Ordering {
        self.as_bytes().cmp(other.as_bytes())
    }
}

impl PartialOrd for BitString {
    ghost partial_cmp = { as_partial_cmp (slice_cmp nat_cmp) };

    ghost laws = { partial_order_from_own_ties (Prim.search (comparing, rules)) (Prim.search (comparing, rules)) };

    fn partial_cmp(&self, other: &BitString) -> Option<Ordering> {
        Some(self.cmp(other))
    }
}

impl Hash for BitString {
    ghost hash_input = { fed.slice fed.u8 };

    ghost respects_eq = { Prim.search (hashing, rules) };

    fn hash<H: Hasher>(&self, state: &mut H) {
        self.as_bytes().hash(state);
    }
}
