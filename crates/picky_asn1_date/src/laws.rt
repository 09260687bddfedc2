//! What is proved of dates beside their calls.
ghost use Rattle.std.specs.Prelude.{◌≡◌, ◌↔◌, List, ℕ, IsTrue};
ghost use Rattle.std.specs.declared.cmp.Ordering.TheVariants.{Equal};
ghost use Rattle.picky_asn1_date.specs.DateText.{utc_text, IsUtcYear, generalized_text, IsGeneralizedYear, IsDigitsAndZ};
ghost use Rattle.picky_asn1_date.specs.Moment.{Moment, IsMoment};
ghost use Rattle.picky_asn1_date.specs.Reading.{IsSpelled};

use crate::date::Date;
use crate::repr::{GeneralizedTimeRepr, UTCTimeRepr};
use std::hash::Hash;

/// UTCTime texts and dates of 1950 to 2049 correspond one to one: the text of a date is twelve digits and `Z`,
/// two dates with one text are the same, and each twelve digits and `Z` are the digits of six numbers in these years.
pub fn utc_times_are_dates()
    ensures text { (m : Moment) → IsMoment m → IsUtcYear m.year → IsDigitsAndZ 12 (utc_text m) }
    ensures one { (m n : Moment) → IsUtcYear m.year → IsUtcYear n.year → utc_text m ≡ utc_text n → m ≡ n }
    ensures every { (bytes : List ℕ) → (IsDigitsAndZ 12 bytes ↔ ((m : Moment) × IsSpelled IsUtcYear utc_text bytes m)) }
{}

/// GeneralizedTime texts and dates of the years 0 to 9999 correspond one to one: the text of a date is fourteen
/// digits and `Z`, two dates with one text are the same, and each fourteen digits and `Z` are the digits of six
/// numbers in these years.
pub fn generalized_times_are_dates()
    ensures text { (m : Moment) → IsMoment m → IsGeneralizedYear m.year → IsDigitsAndZ 14 (generalized_text m) }
    ensures one { (m n : Moment) → generalized_text m ≡ generalized_text n → m ≡ n }
    ensures every { (bytes : List ℕ) → (IsDigitsAndZ 14 bytes ↔ ((m : Moment) × IsSpelled IsGeneralizedYear generalized_text bytes m)) }
{}

/// Dates are equal where their six numbers are. Equal ones hash equally, and order and equality agree.
pub fn dates_compare<TR: Ord + Hash>(date: Date<TR>, other: Date<TR>)
    ensures same { IsTrue (⟦<Date<TR> as PartialEq>⟧.eq date other) ↔ (date ≡ other) }
    ensures hash { IsTrue (⟦<Date<TR> as PartialEq>⟧.eq date other) → ⟦<Date<TR> as Hash>⟧.hash_input date ≡ ⟦<Date<TR> as Hash>⟧.hash_input other }
    ensures order { IsTrue (⟦<Date<TR> as PartialEq>⟧.eq date other) ↔ (⟦<Date<TR> as Ord>⟧.cmp date other ≡ Equal) }
{}

/// The two forms have one value each, equal to itself.
pub fn forms_compare(
    utc: UTCTimeRepr,
    other: UTCTimeRepr,
    generalized: GeneralizedTimeRepr,
    another: GeneralizedTimeRepr,
)
    ensures utc { IsTrue (⟦<UTCTimeRepr as PartialEq>⟧.eq utc other) × (⟦<UTCTimeRepr as Ord>⟧.cmp utc other ≡ Equal) × (⟦<UTCTimeRepr as Hash>⟧.hash_input utc ≡ ⟦<UTCTimeRepr as Hash>⟧.hash_input other) }
    ensures generalized { IsTrue (⟦<GeneralizedTimeRepr as PartialEq>⟧.eq generalized another) × (⟦<GeneralizedTimeRepr as Ord>⟧.cmp generalized another ≡ Equal) × (⟦<GeneralizedTimeRepr as Hash>⟧.hash_input generalized ≡ ⟦<GeneralizedTimeRepr as Hash>⟧.hash_input another) }
{}
