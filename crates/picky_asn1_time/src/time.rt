// Dates under a tag.
ghost use Rattle.std.specs.Prelude.{◌≡◌, ◌⊎◌, ℕ, List, Bool, IfOk, IfErr};
ghost use Rattle.std.specs.Bool.{Decides};
ghost use Rattle.std.proofs.Common.{arith};
ghost use Rattle.picky_asn1_date.specs.Moment.{Moment, IsMoment};
ghost use Rattle.picky_der.specs.declared.fault.DerError.TheVariants.{OutOfMemory, BadValue};
ghost use Rattle.picky_der.specs.Reading.{IsOfBytes, Answers, Reads};
ghost use Rattle.picky_der.specs.Primitive.{primitive_form, primitive_at};
ghost use Rattle.picky_asn1_time.specs.Times.{time_of, time_contents, utc_numbers, is_utc_year, generalized_numbers, is_generalized_year};
ghost use Rattle.picky_asn1_time.specs.laws.Equal.{dates_equal};
ghost use Rattle.picky_asn1_time.specs.laws.Times.{utc_decides, utc_reads, generalized_decides, generalized_reads, time_readable, time_writable, time_tagged};

use picky_asn1_date::{Date, DateError, GeneralizedTimeRepr, TimeRepr, UTCTimeRepr};
use picky_asn1_tag::{Asn1Type, Asn1Value, CopyIn, Tag};
use picky_asn1_wrapper::EqualMeaning;
use picky_der::{DerError, DerForm, DerRead, DerReader, DerTagged, DerWrite, write_value};
use std::alloc::{AllocError, Global};
use std::marker::PhantomData;
use std::ops::{Deref, DerefMut};

/// A form of text for dates whose years and numbers contracts can compute.
pub trait DecidedTime: TimeRepr {
    /// The test of the years.
    ghost is_year: { ℕ → Bool };

    /// The six numbers at their places in a text.
    ghost numbers: { List ℕ → Moment };

    /// The test passes exactly the years of the form.
    ghost decides: { (year : ℕ) → Decides (is_year year) (Self.IsYear year) };

    /// The numbers of the text of a date are those of the date.
    ghost reads: { (m : Moment) → Self.IsYear m.year → IsMoment m → numbers (Self.text m) ≡ m };
}

impl DecidedTime for UTCTimeRepr {
    ghost is_year = { is_utc_year };

    ghost numbers = { utc_numbers };

    ghost decides = { utc_decides };

    ghost reads = { utc_reads };
}

impl DecidedTime for GeneralizedTimeRepr {
    ghost is_year = { is_generalized_year };

    ghost numbers = { generalized_numbers };

    ghost decides = { generalized_decides };

    ghost reads = { generalized_reads };
}

/// A date in the form of text `TR` under the tag of the kind `K`.
///
/// The contents octets are the text of the date (X.690 sections 11.7 and 11.8). Reading answers `BadValue` exactly where
/// they are the text of no date with its year in the form and its other numbers in range; the day may not be in its
/// month. Writing a date whose year the form doesn't have is `BadValue`.
#[derive(Clone, Copy, Debug, PartialEq, Eq)]
pub struct DateAsn1<K: Asn1Type, TR: TimeRepr> {
    date: Date<TR>,
    kind: PhantomData<K>,
}

impl<K: Asn1Type, TR: TimeRepr> From<Date<TR>> for DateAsn1<K, TR> {
    ghost from_gives = { λ date wrapped. wrapped.date ≡ date };

    fn from(date: Date<TR>) -> DateAsn1<K, TR> {
        DateAsn1 {
            date,
            kind: PhantomData,
        }
    }
}

impl<K: Asn1Type, TR: TimeRepr> From<DateAsn1<K, TR>> for Date<TR> {
    ghost from_gives = { λ wrapped date. date ≡ wrapped.date };

    fn from(wrapped: DateAsn1<K, TR>) -> Date<TR> {
        let DateAsn1 { date, kind: _ } = wrapped;
        date
    }
}

impl<K: Asn1Type, TR: TimeRepr> Deref for DateAsn1<K, TR> {
    type Target = Date<TR>;

    ghost deref_gives = { λ wrapped date. date ≡ wrapped.date };

    fn deref(&self) -> &Date<TR> {
        &self.date
    }
}

impl<K: Asn1Type, TR: TimeRepr> DerefMut for DateAsn1<K, TR> {
    ghost use Rattle.std.specs.Prelude.{◌≡◌};
    ghost use Rattle.std.specs.Borrow.{Lends, sem};
    ghost use Rattle.picky_asn1_date.specs.contracts.date.Date as inner;
    ghost use Rattle.picky_asn1_time.specs.contracts.time.DateAsn1.{the_row};

    ghost deref_mut_gives = { λ wrapped date. date ≡ wrapped.date };

    /// The date, to be changed in place.
    fn deref_mut(&mut self) -> &mut Date<TR>
        ensures* writes_back { sem 𝓛 (Lends (the_row K.row TR.row) (inner.the_row TR.row) self.entry result (λ date. record self.old { date = date })) }
        ensures shows { result.now ≡ self.old.date }
    {
        &mut self.date
    }
}

impl<K: Asn1Type, TR: TimeRepr> Asn1Type for DateAsn1<K, TR> {
    ghost TAG = { K.TAG };

    const TAG: Tag = K::TAG;

    const NAME: &'static str = K::NAME;

    ghost one_byte = { K.one_byte };
}

impl<K: Asn1Type, TR: TimeRepr> Asn1Value for DateAsn1<K, TR> {
    ghost Meaning = { Moment };

    ghost meaning = { λ wrapped. wrapped.date };
}

impl<K: Asn1Type + PartialEq, TR: TimeRepr + PartialEq> EqualMeaning for DateAsn1<K, TR> {
    ghost equal_meaning = { λ x y. dates_equal x.date y.date };
}

impl<K: Asn1Type, TR: TimeRepr> CopyIn for DateAsn1<K, TR> {
    fn copy_in(&self, alloc: Global) -> Result<DateAsn1<K, TR>, AllocError> {
        Ok(DateAsn1::from(self.date.copy_in(alloc)?))
    }
}

impl<K: Asn1Type, TR: DecidedTime> DerForm for DateAsn1<K, TR> {
    ghost Abstract = { Moment };

    ghost stands_for = { λ wrapped. wrapped.date };

    ghost form = { primitive_form K.TAG (time_contents TR.IsYear TR.is_year TR.text TR.numbers) };

    ghost same_value = { λ _ _ e. e };
}

// The date whose text the octets are.
fn date_from<TR: DecidedTime>(octets: &[u8]) -> Result<Date<TR>, DerError>
    ensures answers { Answers (λ date. date) result (time_of TR.is_year TR.text TR.numbers octets.now) }
    ensures no_memory { IfErr result IsOfBytes }
{
    match Date::<TR>::read_text(octets) {
        Ok(date) => Ok(date),
        Err(_) => Err(DerError::BadValue),
    }
}

// The text of the date.
fn text_of<TR: TimeRepr>(alloc: Global, date: &Date<TR>) -> Result<Vec<u8>, DerError>
    ensures text { IfOk result (λ text. (TR.IsYear date.now.year × IsMoment date.now) × (text.items ≡ TR.text date.now)) }
    ensures refused { IfErr result (λ fault. (fault ≡ OutOfMemory) ⊎ ((fault ≡ BadValue) × (¬ (TR.IsYear date.now.year × IsMoment date.now)))) }
{
    // Each getter says that the numbers are in range.
    let _ = date.year();
    match date.write_text(alloc) {
        Ok(text) => Ok(text),
        Err(DateError::OutOfMemory) => Err(DerError::OutOfMemory),
        Err(_) => Err(DerError::BadValue),
    }
}

impl<K: Asn1Type, TR: DecidedTime> DerRead for DateAsn1<K, TR> {
    fn begins_with(tag: Tag) -> bool {
        tag == K::TAG
    }

    #[tactic(auto, unfolding(picky_der::specs::Primitive::primitive_at))]
    /// Takes no memory.
    fn read_der(_alloc: Global, reader: &mut DerReader<'_>) -> Result<DateAsn1<K, TR>, DerError>
        ensures reads { Reads (λ wrapped. wrapped.date) (primitive_at K.TAG (time_of TR.is_year TR.text TR.numbers)) reader.old result reader.new }
        ensures no_memory { IfErr result IsOfBytes }
    {
        let mut ahead = reader.fork();
        let date = date_from::<TR>(ahead.read_value(K::TAG)?)?;
        *reader = ahead;
        Ok(DateAsn1::from(date))
    }

    ghost readable = { time_readable TR.IsYear TR.is_year TR.text TR.numbers TR.decides TR.reads K.TAG };
}

impl<K: Asn1Type, TR: DecidedTime> DerWrite for DateAsn1<K, TR> {
    fn write_der(&self, alloc: Global, out: &mut Vec<u8>) -> Result<(), DerError> {
        let text = text_of(alloc, &self.date)?;
        write_value(out, K::TAG, &text)
    }

    ghost writable = { time_writable TR.IsYear TR.is_year TR.text TR.numbers TR.decides TR.reads K.TAG K.one_byte };
}

impl<K: Asn1Type, TR: DecidedTime> DerTagged for DateAsn1<K, TR> {
    ghost tagged = { time_tagged K.TAG TR.IsYear TR.is_year TR.text TR.numbers };
}

/// The kind of `UtcTimeAsn1`.
#[derive(Clone, Copy, Debug, PartialEq, Eq)]
pub struct UtcTimeKind;

impl Asn1Type for UtcTimeKind {
    ghost TAG = { record { 0 = 23 } };

    const TAG: Tag = Tag::UTC_TIME;

    const NAME: &'static str = "UtcTimeAsn1";

    ghost one_byte = { λ h. absurd (Prim.omega arith) };
}

/// A UTCTime `YYMMDDHHMMSSZ` of the years 1950 to 2049 under its tag (X.690 section 11.8, RFC 5280 section 4.1.2.5.1).
pub type UtcTimeAsn1 = DateAsn1<UtcTimeKind, UTCTimeRepr>;

/// The kind of `GeneralizedTimeAsn1`.
#[derive(Clone, Copy, Debug, PartialEq, Eq)]
pub struct GeneralizedTimeKind;

impl Asn1Type for GeneralizedTimeKind {
    ghost TAG = { record { 0 = 24 } };

    const TAG: Tag = Tag::GENERALIZED_TIME;

    const NAME: &'static str = "GeneralizedTimeAsn1";

    ghost one_byte = { λ h. absurd (Prim.omega arith) };
}

/// A GeneralizedTime `YYYYMMDDHHMMSSZ` of the years 0 to 9999 under its tag (X.690 section 11.7, RFC 5280 section 4.1.2.5.2).
pub type GeneralizedTimeAsn1 = DateAsn1<GeneralizedTimeKind, GeneralizedTimeRepr>;
