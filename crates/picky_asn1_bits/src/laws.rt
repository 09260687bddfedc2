//! What is proved of bit strings, integers and octet strings beside their calls.
ghost use Rattle.std.specs.Prelude.{◌≡◌, ◌≢◌, ◌↔◌, ℕ, ◌<◌, ◌≤◌, List, [], ◌∷◌, length, All, pos, Some, IsTrue};
ghost use Rattle.std.specs.declared.cmp.Ordering.TheVariants.{Equal};
ghost use Rattle.picky_asn1_bits.specs.Bits.{unused, payload, with_payload};
ghost use Rattle.picky_asn1_bits.specs.Integer.{int_of, unsigned_of, unsigned_spelling, IsShortest};

use crate::bit_string::BitString;
use crate::integer::IntegerAsn1;
use crate::octet_string::OctetStringAsn1;
use std::hash::Hash;

/// What `IntegerAsn1::from_bytes_be_unsigned` gives has the number of the bytes, and for nonempty bytes it is the
/// shortest spelling.
pub fn unsigned_integers_keep_their_number(bytes: &[u8])
    ensures number { int_of (unsigned_spelling bytes.now) ≡ pos (unsigned_of bytes.now) }
    ensures shortest { bytes.now ≢ [] → IsShortest (unsigned_spelling bytes.now) }
{}

/// A shortest spelling is the only one of its number, and no spelling of the number in one byte or more has fewer
/// bytes (X.690 sections 8.3.1 and 8.3.2).
pub fn shortest_integers_are_unique()
    ensures one { (s t : List ℕ) → All (λ b. b < 256) s → All (λ b. b < 256) t → IsShortest s → IsShortest t
        → int_of s ≡ int_of t → s ≡ t }
    ensures fewest { (s t : List ℕ) → All (λ b. b < 256) s → All (λ b. b < 256) t → IsShortest s → t ≢ []
        → int_of s ≡ int_of t → length s ≤ length t }
{}

/// Bytes of the payload's length, written through `BitString::payload_view_mut`, are the payload, behind the same
/// count.
pub fn written_payloads_follow_the_count(bits: &BitString, bytes: &[u8])
    ensures { length bytes.now ≡ length (payload bits.now)
        → with_payload bits.now bytes.now ≡ unused bits.now ∷ bytes.now }
{}

/// Bit strings are equal where they are the same. Equal ones hash equally, and order and equality agree.
pub fn bit_strings_compare(bits: &BitString, other: &BitString)
    ensures same { IsTrue (⟦<BitString as PartialEq>⟧.eq bits.now other.now) ↔ (bits.now ≡ other.now) }
    ensures hash { IsTrue (⟦<BitString as PartialEq>⟧.eq bits.now other.now)
        → ⟦<BitString as Hash>⟧.hash_input bits.now ≡ ⟦<BitString as Hash>⟧.hash_input other.now }
    ensures order { IsTrue (⟦<BitString as PartialEq>⟧.eq bits.now other.now)
        ↔ (⟦<BitString as Ord>⟧.cmp bits.now other.now ≡ Equal) }
{}

/// Integers are equal where their bytes are the same. Equal ones hash equally, and order and equality agree.
pub fn integers_compare(integer: &IntegerAsn1, other: &IntegerAsn1)
    ensures same { IsTrue (⟦<IntegerAsn1 as PartialEq>⟧.eq integer.now other.now) ↔ (integer.now ≡ other.now) }
    ensures hash { IsTrue (⟦<IntegerAsn1 as PartialEq>⟧.eq integer.now other.now)
        → ⟦<IntegerAsn1 as Hash>⟧.hash_input integer.now ≡ ⟦<IntegerAsn1 as Hash>⟧.hash_input other.now }
    ensures order { IsTrue (⟦<IntegerAsn1 as PartialEq>⟧.eq integer.now other.now)
        ↔ (⟦<IntegerAsn1 as PartialOrd>⟧.partial_cmp integer.now other.now ≡ Some Equal) }
{}

/// Octet strings are equal where their bytes are the same. Equal ones hash equally, and order and equality agree.
pub fn octet_strings_compare(octets: &OctetStringAsn1, other: &OctetStringAsn1)
    ensures same { IsTrue (⟦<OctetStringAsn1 as PartialEq>⟧.eq octets.now other.now) ↔ (octets.now ≡ other.now) }
    ensures hash { IsTrue (⟦<OctetStringAsn1 as PartialEq>⟧.eq octets.now other.now)
        → ⟦<OctetStringAsn1 as Hash>⟧.hash_input octets.now ≡ ⟦<OctetStringAsn1 as Hash>⟧.hash_input other.now }
    ensures order { IsTrue (⟦<OctetStringAsn1 as PartialEq>⟧.eq octets.now other.now)
        ↔ (⟦<OctetStringAsn1 as PartialOrd>⟧.partial_cmp octets.now other.now ≡ Some Equal) }
{}
