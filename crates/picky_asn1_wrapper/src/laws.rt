//! What is proved of wrappers beside their calls.
ghost use Rattle.std.specs.Prelude.{◌≡◌, ◌↔◌, ℕ, ◌+◌, Some, IsTrue, map};
ghost use Rattle.std.specs.Cmp.Lexicographic.{pointwise};
ghost use Rattle.std.specs.declared.cmp.Ordering.TheVariants.{Equal};
ghost use Rattle.picky_der.specs.Form.{IsWrittenInForm, NestsAtMost};

use crate::container::{BitStringAsn1Container, OctetStringAsn1Container};
use crate::equal_meaning::EqualMeaning;
use crate::explicit::ExplicitContextTag;
use crate::header_only::HeaderOnly;
use crate::implicit::ImplicitContextTag;
use crate::lists::{Asn1SequenceOf, Asn1SetOf};
use crate::optional::Optional;
use picky_asn1_tag::{Asn1Type, Empty};
use picky_der::{DerForm, DerRead, DerTagged, DerWrite};
use std::hash::Hash;

/// Values of a type with `EqualMeaning` are equal exactly where they mean the same.
pub fn equal_values_mean_the_same<T: EqualMeaning>(value: &T, other: &T)
    ensures { IsTrue (T.eq value.now other.now) ↔ (T.meaning value.now ≡ T.meaning other.now) }
{}

/// All headers of a type are equal, and order and equality agree.
pub fn headers_compare<T: Asn1Type + PartialOrd>(header: &HeaderOnly<T>, other: &HeaderOnly<T>)
    ensures one { IsTrue (⟦<HeaderOnly<T> as PartialEq>⟧.eq header.now other.now) }
    ensures order { IsTrue (⟦<HeaderOnly<T> as PartialEq>⟧.eq header.now other.now)
        ↔ (⟦<HeaderOnly<T> as PartialOrd>⟧.partial_cmp header.now other.now ≡ Some Equal) }
{}

/// All headers of a type hash equally.
pub fn headers_hash<T: Asn1Type + PartialEq + Hash>(header: &HeaderOnly<T>, other: &HeaderOnly<T>)
    ensures equal { ⟦<HeaderOnly<T> as Hash>⟧.hash_input header.now ≡ ⟦<HeaderOnly<T> as Hash>⟧.hash_input other.now }
{}

/// Octet string containers are compared and ordered as the values in them, and order and equality agree.
pub fn octet_string_containers_compare<T: PartialOrd>(
    container: &OctetStringAsn1Container<T>,
    other: &OctetStringAsn1Container<T>,
)
    ensures inner { ⟦<OctetStringAsn1Container<T> as PartialEq>⟧.eq container.now other.now ≡ T.eq container.now.0 other.now.0 }
    ensures inner_order { ⟦<OctetStringAsn1Container<T> as PartialOrd>⟧.partial_cmp container.now other.now ≡ T.partial_cmp container.now.0 other.now.0 }
    ensures order { IsTrue (⟦<OctetStringAsn1Container<T> as PartialEq>⟧.eq container.now other.now)
        ↔ (⟦<OctetStringAsn1Container<T> as PartialOrd>⟧.partial_cmp container.now other.now ≡ Some Equal) }
{}

/// Octet string containers are hashed as the values in them, and equal ones hash equally.
pub fn octet_string_containers_hash<T: PartialEq + Hash>(
    container: &OctetStringAsn1Container<T>,
    other: &OctetStringAsn1Container<T>,
)
    ensures inner { ⟦<OctetStringAsn1Container<T> as Hash>⟧.hash_input container.now ≡ T.hash_input container.now.0 }
    ensures equal { IsTrue (⟦<OctetStringAsn1Container<T> as PartialEq>⟧.eq container.now other.now)
        → ⟦<OctetStringAsn1Container<T> as Hash>⟧.hash_input container.now ≡ ⟦<OctetStringAsn1Container<T> as Hash>⟧.hash_input other.now }
{}

/// Bit string containers are compared and ordered as the values in them, and order and equality agree.
pub fn bit_string_containers_compare<T: PartialOrd>(
    container: &BitStringAsn1Container<T>,
    other: &BitStringAsn1Container<T>,
)
    ensures inner { ⟦<BitStringAsn1Container<T> as PartialEq>⟧.eq container.now other.now ≡ T.eq container.now.0 other.now.0 }
    ensures inner_order { ⟦<BitStringAsn1Container<T> as PartialOrd>⟧.partial_cmp container.now other.now ≡ T.partial_cmp container.now.0 other.now.0 }
    ensures order { IsTrue (⟦<BitStringAsn1Container<T> as PartialEq>⟧.eq container.now other.now)
        ↔ (⟦<BitStringAsn1Container<T> as PartialOrd>⟧.partial_cmp container.now other.now ≡ Some Equal) }
{}

/// Bit string containers are hashed as the values in them, and equal ones hash equally.
pub fn bit_string_containers_hash<T: PartialEq + Hash>(
    container: &BitStringAsn1Container<T>,
    other: &BitStringAsn1Container<T>,
)
    ensures inner { ⟦<BitStringAsn1Container<T> as Hash>⟧.hash_input container.now ≡ T.hash_input container.now.0 }
    ensures equal { IsTrue (⟦<BitStringAsn1Container<T> as PartialEq>⟧.eq container.now other.now)
        → ⟦<BitStringAsn1Container<T> as Hash>⟧.hash_input container.now ≡ ⟦<BitStringAsn1Container<T> as Hash>⟧.hash_input other.now }
{}

/// Optional fields are compared and ordered as the values in them, and order and equality agree.
pub fn optional_fields_compare<T: PartialOrd>(optional: &Optional<T>, other: &Optional<T>)
    ensures inner { ⟦<Optional<T> as PartialEq>⟧.eq optional.now other.now ≡ T.eq optional.now.0 other.now.0 }
    ensures inner_order { ⟦<Optional<T> as PartialOrd>⟧.partial_cmp optional.now other.now ≡ T.partial_cmp optional.now.0 other.now.0 }
    ensures order { IsTrue (⟦<Optional<T> as PartialEq>⟧.eq optional.now other.now)
        ↔ (⟦<Optional<T> as PartialOrd>⟧.partial_cmp optional.now other.now ≡ Some Equal) }
{}

/// Optional fields are hashed as the values in them, and equal ones hash equally.
pub fn optional_fields_hash<T: PartialEq + Hash>(optional: &Optional<T>, other: &Optional<T>)
    ensures inner { ⟦<Optional<T> as Hash>⟧.hash_input optional.now ≡ T.hash_input optional.now.0 }
    ensures equal { IsTrue (⟦<Optional<T> as PartialEq>⟧.eq optional.now other.now)
        → ⟦<Optional<T> as Hash>⟧.hash_input optional.now ≡ ⟦<Optional<T> as Hash>⟧.hash_input other.now }
{}

/// Optional fields that hold the default stand for one value, so what `write_in` leaves out is what `read_in` gives back.
pub fn defaults_stand_for_one_value<T: Empty + DerRead>(optional: &Optional<T>, other: &Optional<T>)
    ensures { T.IsDefault optional.now.0 → T.IsDefault other.now.0 → T.stands_for optional.now.0 ≡ T.stands_for other.now.0 }
{}

/// Lists under SEQUENCE are equal where they are as long and each item equals that at its place.
pub fn sequences_compare<T: PartialEq>(list: &Asn1SequenceOf<T>, other: &Asn1SequenceOf<T>)
    ensures { ⟦<Asn1SequenceOf<T> as PartialEq>⟧.eq list.now other.now ≡ pointwise T.eq list.now other.now }
{}

/// Where `==` tells the items' meanings apart, lists under SEQUENCE are equal exactly where their items mean the same, one after
/// another.
pub fn equal_sequences_mean_the_same<T: EqualMeaning>(
    list: &Asn1SequenceOf<T>,
    other: &Asn1SequenceOf<T>,
)
    ensures { IsTrue (⟦<Asn1SequenceOf<T> as PartialEq>⟧.eq list.now other.now) ↔ (map T.meaning list.now ≡ map T.meaning other.now) }
{}

/// Lists under SET are equal where they are as long and each item equals that at its place.
pub fn sets_compare<T: PartialEq>(list: &Asn1SetOf<T>, other: &Asn1SetOf<T>)
    ensures { ⟦<Asn1SetOf<T> as PartialEq>⟧.eq list.now other.now ≡ pointwise T.eq list.now other.now }
{}

/// Where `==` tells the items' meanings apart, lists under SET are equal exactly where their items mean the same, one after
/// another.
pub fn equal_sets_mean_the_same<T: EqualMeaning>(list: &Asn1SetOf<T>, other: &Asn1SetOf<T>)
    ensures { IsTrue (⟦<Asn1SetOf<T> as PartialEq>⟧.eq list.now other.now) ↔ (map T.meaning list.now ≡ map T.meaning other.now) }
{}

/// Explicit tags are equal where the values under them are.
pub fn explicit_tags_compare<const N: u8, T: PartialEq>(
    tagged: &ExplicitContextTag<N, T>,
    other: &ExplicitContextTag<N, T>,
)
    ensures { ⟦<ExplicitContextTag<N, T> as PartialEq>⟧.eq tagged.now other.now ≡ T.eq tagged.now.0 other.now.0 }
{}

/// Where `==` tells the values' meanings apart, explicit tags are equal exactly where the values under them mean the
/// same.
pub fn equal_explicit_tags_mean_the_same<const N: u8, T: EqualMeaning>(
    tagged: &ExplicitContextTag<N, T>,
    other: &ExplicitContextTag<N, T>,
)
    ensures { IsTrue (⟦<ExplicitContextTag<N, T> as PartialEq>⟧.eq tagged.now other.now) ↔ (T.meaning tagged.now.0 ≡ T.meaning other.now.0) }
{}

/// Implicit tags are equal where the values under them are.
pub fn implicit_tags_compare<const N: u8, T: PartialEq>(
    tagged: &ImplicitContextTag<N, T>,
    other: &ImplicitContextTag<N, T>,
)
    ensures { ⟦<ImplicitContextTag<N, T> as PartialEq>⟧.eq tagged.now other.now ≡ T.eq tagged.now.0 other.now.0 }
{}

/// Where `==` tells the values' meanings apart, implicit tags are equal exactly where the values under them mean the
/// same.
pub fn equal_implicit_tags_mean_the_same<const N: u8, T: EqualMeaning>(
    tagged: &ImplicitContextTag<N, T>,
    other: &ImplicitContextTag<N, T>,
)
    ensures { IsTrue (⟦<ImplicitContextTag<N, T> as PartialEq>⟧.eq tagged.now other.now) ↔ (T.meaning tagged.now.0 ≡ T.meaning other.now.0) }
{}

/// Where each value that a type writes is in form, each that is written of its lists and containers is.
pub fn written_wrappers_are_in_form<T: DerWrite>()
    ensures sequence { IsWrittenInForm T.form → IsWrittenInForm ⟦<Asn1SequenceOf<T> as DerForm>⟧.form }
    ensures set { IsWrittenInForm T.form → IsWrittenInForm ⟦<Asn1SetOf<T> as DerForm>⟧.form }
    ensures octets { IsWrittenInForm T.form → IsWrittenInForm ⟦<OctetStringAsn1Container<T> as DerForm>⟧.form }
    ensures bits { IsWrittenInForm T.form → IsWrittenInForm ⟦<BitStringAsn1Container<T> as DerForm>⟧.form }
{}

/// The same of its tags.
pub fn written_tags_are_in_form<const N: u8, T: DerTagged>()
    ensures explicit { IsWrittenInForm T.form → IsWrittenInForm ⟦<ExplicitContextTag<N, T> as DerForm>⟧.form }
    ensures implicit { IsWrittenInForm T.form → IsWrittenInForm ⟦<ImplicitContextTag<N, T> as DerForm>⟧.form }
{}

/// A header that is written is in form.
pub fn written_headers_are_in_form<T: Asn1Type>()
    ensures { IsWrittenInForm ⟦<HeaderOnly<T> as DerForm>⟧.form }
{}

/// Where no spelling of a type's values nests more readers than a number, none of its lists and containers nests more than
/// one beyond it.
pub fn wrappers_nest_one_reader_more<T: DerForm>()
    ensures sequence { (most : ℕ) → NestsAtMost most T.form → NestsAtMost (1 + most) ⟦<Asn1SequenceOf<T> as DerForm>⟧.form }
    ensures set { (most : ℕ) → NestsAtMost most T.form → NestsAtMost (1 + most) ⟦<Asn1SetOf<T> as DerForm>⟧.form }
    ensures octets { (most : ℕ) → NestsAtMost most T.form → NestsAtMost (1 + most) ⟦<OctetStringAsn1Container<T> as DerForm>⟧.form }
    ensures bits { (most : ℕ) → NestsAtMost most T.form → NestsAtMost (1 + most) ⟦<BitStringAsn1Container<T> as DerForm>⟧.form }
{}

/// An explicit tag nests one reader, an implicit one none.
pub fn tags_nest_readers<const N: u8, T: DerTagged>()
    ensures explicit { (most : ℕ) → NestsAtMost most T.form → NestsAtMost (1 + most) ⟦<ExplicitContextTag<N, T> as DerForm>⟧.form }
    ensures implicit { (most : ℕ) → NestsAtMost most T.form → NestsAtMost most ⟦<ImplicitContextTag<N, T> as DerForm>⟧.form }
{}

/// A header nests no reader.
pub fn headers_nest_no_reader<T: Asn1Type>()
    ensures { NestsAtMost 0 ⟦<HeaderOnly<T> as DerForm>⟧.form }
{}
