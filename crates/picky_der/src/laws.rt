//! What is proved of DER beside its calls.
ghost use Rattle.std.specs.Prelude.{◌≡◌, ◌↔◌, ℕ, List, IsTrue};
ghost use Rattle.std.specs.declared.cmp.Ordering.TheVariants.{Equal};
ghost use Rattle.picky_der.specs.Length.{SpellsLength, length_of};
ghost use Rattle.picky_der.specs.Form.{ReadsBack, IsWrittenInForm, IsReadWithinHeight, NestsAtMost, CutIsTruncated, FaultsStay};

use crate::form::{DerForm, DerRead, DerWrite};
use crate::raw::Asn1RawDer;
use crate::reader::TagPeeker;
use picky_asn1_bits::{IntegerAsn1, OctetStringAsn1};
use picky_asn1_oid::ObjectIdentifier;
use std::hash::Hash;

/// Peeked tags are equal where they are the same. Equal ones hash equally, and order and equality agree.
pub fn tag_peekers_compare(peeker: TagPeeker, other: TagPeeker)
    ensures same { IsTrue (⟦<TagPeeker as PartialEq>⟧.eq peeker other) ↔ (peeker ≡ other) }
    ensures hash { IsTrue (⟦<TagPeeker as PartialEq>⟧.eq peeker other) → ⟦<TagPeeker as Hash>⟧.hash_input peeker ≡ ⟦<TagPeeker as Hash>⟧.hash_input other }
    ensures order { IsTrue (⟦<TagPeeker as PartialEq>⟧.eq peeker other) ↔ (⟦<TagPeeker as Ord>⟧.cmp peeker other ≡ Equal) }
{}

/// Values that mean the same, as a value and its copy, have the same encoding.
pub fn values_of_one_meaning_are_written_alike<T: DerWrite>(value: &T, other: &T)
    ensures { T.meaning value.now ≡ T.meaning other.now → T.form.encoding (T.stands_for value.now) ≡ T.form.encoding (T.stands_for other.now) }
{}

/// What is written of a value in form is a spelling of it and one value, and where it stands it is read back, whatever
/// bytes follow: a value of height h at a depth of at most 256 - h, and nowhere deeper.
pub fn what_is_written_reads_back<T: DerRead + DerWrite>()
    ensures { ReadsBack T.form }
{}

/// Each value that one of these types writes is in form. Types of other crates may write more than their values in form.
pub fn values_are_written_in_form()
    ensures null { IsWrittenInForm ⟦<() as DerForm>⟧.form }
    ensures boolean { IsWrittenInForm ⟦<bool as DerForm>⟧.form }
    ensures u8_ { IsWrittenInForm ⟦<u8 as DerForm>⟧.form }
    ensures u16_ { IsWrittenInForm ⟦<u16 as DerForm>⟧.form }
    ensures u32_ { IsWrittenInForm ⟦<u32 as DerForm>⟧.form }
    ensures u64_ { IsWrittenInForm ⟦<u64 as DerForm>⟧.form }
    ensures u128_ { IsWrittenInForm ⟦<u128 as DerForm>⟧.form }
    ensures text { IsWrittenInForm ⟦<String as DerForm>⟧.form }
    ensures integer { IsWrittenInForm ⟦<IntegerAsn1 as DerForm>⟧.form }
    ensures octets { IsWrittenInForm ⟦<OctetStringAsn1 as DerForm>⟧.form }
    ensures identifier { IsWrittenInForm ⟦<ObjectIdentifier as DerForm>⟧.form }
    ensures raw { IsWrittenInForm ⟦<Asn1RawDer as DerForm>⟧.form }
{}

/// Where a spelling of a value in form stands, it is read exactly where depth and height are at most 256 together; above that
/// it is `TooDeep`.
pub fn values_are_read_within_their_height<T: DerRead>()
    ensures { IsReadWithinHeight T.form }
{}

/// No spelling of one of these types nests a reader.
pub fn simple_values_nest_no_reader()
    ensures null { NestsAtMost 0 ⟦<() as DerForm>⟧.form }
    ensures boolean { NestsAtMost 0 ⟦<bool as DerForm>⟧.form }
    ensures u8_ { NestsAtMost 0 ⟦<u8 as DerForm>⟧.form }
    ensures u16_ { NestsAtMost 0 ⟦<u16 as DerForm>⟧.form }
    ensures u32_ { NestsAtMost 0 ⟦<u32 as DerForm>⟧.form }
    ensures u64_ { NestsAtMost 0 ⟦<u64 as DerForm>⟧.form }
    ensures u128_ { NestsAtMost 0 ⟦<u128 as DerForm>⟧.form }
    ensures text { NestsAtMost 0 ⟦<String as DerForm>⟧.form }
    ensures integer { NestsAtMost 0 ⟦<IntegerAsn1 as DerForm>⟧.form }
    ensures octets { NestsAtMost 0 ⟦<OctetStringAsn1 as DerForm>⟧.form }
    ensures identifier { NestsAtMost 0 ⟦<ObjectIdentifier as DerForm>⟧.form }
    ensures raw { NestsAtMost 0 ⟦<Asn1RawDer as DerForm>⟧.form }
{}

/// A proper prefix of a spelling of a value is `Truncated`.
pub fn cut_values_are_truncated<T: DerRead>()
    ensures { CutIsTruncated T.form }
{}

/// A fault other than `Truncated` is the fault whatever bytes follow.
pub fn faults_stay<T: DerRead>()
    ensures { FaultsStay T.form }
{}

/// Each length below 2^64 is spelled by its one spelling.
pub fn lengths_are_spelled(len: u64)
    ensures spelled { SpellsLength (length_of len) len }
    ensures one { (bytes : List ℕ) → SpellsLength bytes len → bytes ≡ length_of len }
{}
