// Types whose `==` tells values of different meaning apart.
ghost use Rattle.std.specs.Prelude.{◌≡◌, ◌↔◌, IsTrue, string_bytes, refl};
ghost use Rattle.std.specs.Cmp.Lexicographic.{bytes_decides};
ghost use Rattle.picky_asn1_wrapper.specs.laws.Equal.{nat_equal, bool_equal, bytes_equal, strings_equal, lists_equal};

use crate::container::{BitStringAsn1Container, OctetStringAsn1Container};
use crate::explicit::ExplicitContextTag;
use crate::header_only::HeaderOnly;
use crate::implicit::ImplicitContextTag;
use crate::lists::{Asn1SequenceOf, Asn1SetOf};
use crate::optional::Optional;
use picky_asn1_bits::{BitString, IntegerAsn1, OctetStringAsn1};
use picky_asn1_oid::ObjectIdentifier;
use picky_asn1_simple::{BitStringAsn1, ObjectIdentifierAsn1, StringAsn1};
use picky_asn1_tag::{Asn1Type, Asn1Value};
use picky_asn1_text::{CharSet, RestrictedString};
use picky_der::Asn1RawDer;

/// A type whose `==` tells values of different meaning apart, and no others.
pub trait EqualMeaning: Asn1Value + PartialEq {
    /// Values are equal exactly where they mean the same.
    ghost equal_meaning: { (x y : Self) → (IsTrue (Self.eq x y)) ↔ (Self.meaning x ≡ Self.meaning y) };
}

impl EqualMeaning for () {
    ghost equal_meaning = { λ _ _. (λ _. refl, λ _. refl) };
}

impl EqualMeaning for bool {
    ghost equal_meaning = { bool_equal };
}

impl EqualMeaning for u8 {
    ghost equal_meaning = { nat_equal };
}

impl EqualMeaning for u16 {
    ghost equal_meaning = { nat_equal };
}

impl EqualMeaning for u32 {
    ghost equal_meaning = { nat_equal };
}

impl EqualMeaning for u64 {
    ghost equal_meaning = { nat_equal };
}

impl EqualMeaning for u128 {
    ghost equal_meaning = { nat_equal };
}

impl<const N: u8, T: EqualMeaning> EqualMeaning for ExplicitContextTag<N, T> {
    ghost equal_meaning = { λ x y. T.equal_meaning x.0 y.0 };
}

impl<const N: u8, T: EqualMeaning> EqualMeaning for ImplicitContextTag<N, T> {
    ghost equal_meaning = { λ x y. T.equal_meaning x.0 y.0 };
}

impl<T: EqualMeaning> EqualMeaning for OctetStringAsn1Container<T> {
    ghost equal_meaning = { λ x y. T.equal_meaning x.0 y.0 };
}

impl<T: EqualMeaning> EqualMeaning for BitStringAsn1Container<T> {
    ghost equal_meaning = { λ x y. T.equal_meaning x.0 y.0 };
}

impl EqualMeaning for String {
    ghost equal_meaning = { λ x y. bytes_decides (string_bytes x) (string_bytes y) };
}

impl EqualMeaning for IntegerAsn1 {
    ghost equal_meaning = { λ x y. bytes_decides x.0 y.0 };
}

impl EqualMeaning for OctetStringAsn1 {
    ghost equal_meaning = { λ x y. bytes_decides x.0 y.0 };
}

impl EqualMeaning for Asn1RawDer {
    ghost equal_meaning = { bytes_decides };
}

impl EqualMeaning for ObjectIdentifier {
    ghost equal_meaning = { bytes_decides };
}

impl EqualMeaning for BitString {
    ghost equal_meaning = { bytes_decides };
}

impl<C: CharSet + PartialEq> EqualMeaning for RestrictedString<C> {
    ghost equal_meaning = { bytes_equal };
}

impl EqualMeaning for BitStringAsn1 {
    ghost equal_meaning = { λ x y. bytes_decides x.0 y.0 };
}

impl EqualMeaning for ObjectIdentifierAsn1 {
    ghost equal_meaning = { λ x y. bytes_decides x.0 y.0 };
}

impl<K: Asn1Type + PartialEq, C: CharSet + PartialEq> EqualMeaning for StringAsn1<K, C> {
    ghost equal_meaning = { λ x y. strings_equal x.string y.string };
}

impl<T: EqualMeaning> EqualMeaning for Asn1SequenceOf<T> {
    ghost equal_meaning = { lists_equal T.eq T.meaning T.equal_meaning };
}

impl<T: EqualMeaning> EqualMeaning for Asn1SetOf<T> {
    ghost equal_meaning = { lists_equal T.eq T.meaning T.equal_meaning };
}

impl<T: Asn1Type + PartialEq> EqualMeaning for HeaderOnly<T> {
    ghost equal_meaning = { λ _ _. (λ _. refl, λ _. refl) };
}

impl<T: EqualMeaning> EqualMeaning for Optional<T> {
    ghost equal_meaning = { λ x y. T.equal_meaning x.0 y.0 };
}
