// The two forms of text.
ghost use Rattle.std.specs.Prelude.{◌≡◌, ◌<◌, ◌+◌, ◌*◌, ◌%◌, List, ℕ};
ghost use Rattle.picky_contract.specs.Refusals.{Meets};
ghost use Rattle.picky_asn1_date.specs.DateText.{utc_text, IsUtcYear, generalized_text, IsGeneralizedYear};
ghost use Rattle.picky_asn1_date.specs.Faults.{any_fault, date_fault};
ghost use Rattle.picky_asn1_date.specs.Moment.{Moment};
ghost use Rattle.picky_asn1_date.specs.Reading.{reading_table, writing_table};

use crate::date::Date;
use crate::error::DateError;
use crate::text::{read_pairs, write_pairs};
use std::alloc::Global;

/// A form of text for dates.
pub trait TimeRepr {
    /// The years that the form has.
    ghost IsYear: { ℕ → Type 0 };

    /// The text of a date of these years.
    ghost text: { Moment → List ℕ };

    /// The text of the date; [`DateError::YearOutOfRange`] exactly where the form doesn't have its year.
    fn write_text(alloc: Global, date: &Date<Self>) -> Result<Vec<u8>, DateError>
        ensures { Meets (λ text. text.items) date_fault result (writing_table IsYear text date.now) };

    /// The date whose text this is; [`DateError::BadDateText`] where it isn't digits and `Z` of the form, else
    /// [`DateError::NoSuchDate`] where its parts are out of range.
    fn read_text(bytes: &[u8]) -> Result<Date<Self>, DateError>
        ensures { Meets (λ d. d) any_fault result (reading_table IsYear text bytes.now) };
}

/// The form `YYMMDDHHMMSSZ`, years 1950 to 2049: YY from 50 means 19YY, below 50 it means 20YY (RFC 5280, 4.1.2.5.1).
#[derive(Clone, Copy, Debug, PartialEq, Eq, PartialOrd, Ord, Hash)]
pub struct UTCTimeRepr;

impl TimeRepr for UTCTimeRepr {
    ghost IsYear = { IsUtcYear };

    ghost text = { utc_text };

    #[tactic(auto, unfolding(crate::specs::Reading::writing_table))]
    fn write_text(alloc: Global, date: &Date<UTCTimeRepr>) -> Result<Vec<u8>, DateError> {
        let year = date.year();
        if !(1950..=2049).contains(&year) {
            return Err(DateError::YearOutOfRange);
        }
        let numbers = [
            (year % 100) as u8,
            date.month(),
            date.day(),
            date.hour(),
            date.minute(),
            date.second(),
        ];
        Ok(write_pairs(alloc, &numbers)?)
    }

    fn read_text(bytes: &[u8]) -> Result<Date<UTCTimeRepr>, DateError> {
        let Some(numbers) = read_pairs::<6>(bytes) else {
            return Err(DateError::BadDateText);
        };
        let [year, month, day, hour, minute, second] = numbers;
        Date::new(utc_year(year), month, day, hour, minute, second).ok_or(DateError::NoSuchDate)
    }
}

/// The year of two digits: 19YY from 50, 20YY below (RFC 5280, 4.1.2.5.1).
fn utc_year(places: u8) -> u16
    requires { places < 100 }
    ensures covered { IsUtcYear result }
    ensures places { result % 100 ≡ places }
{
    let century = if places < 50 { 2000 } else { 1900 };
    century + u16::from(places)
}

/// The form `YYYYMMDDHHMMSSZ`, years 0 to 9999 (RFC 5280, 4.1.2.5.2).
#[derive(Clone, Copy, Debug, PartialEq, Eq, PartialOrd, Ord, Hash)]
pub struct GeneralizedTimeRepr;

impl TimeRepr for GeneralizedTimeRepr {
    ghost IsYear = { IsGeneralizedYear };

    ghost text = { generalized_text };

    #[tactic(auto, unfolding(crate::specs::Reading::writing_table))]
    fn write_text(alloc: Global, date: &Date<GeneralizedTimeRepr>) -> Result<Vec<u8>, DateError> {
        let year = date.year();
        if 9999 < year {
            return Err(DateError::YearOutOfRange);
        }
        let numbers = [
            (year / 100) as u8,
            (year % 100) as u8,
            date.month(),
            date.day(),
            date.hour(),
            date.minute(),
            date.second(),
        ];
        Ok(write_pairs(alloc, &numbers)?)
    }

    fn read_text(bytes: &[u8]) -> Result<Date<GeneralizedTimeRepr>, DateError> {
        let Some(numbers) = read_pairs::<7>(bytes) else {
            return Err(DateError::BadDateText);
        };
        let [century, year, month, day, hour, minute, second] = numbers;
        Date::new(
            generalized_year(century, year),
            month,
            day,
            hour,
            minute,
            second,
        )
        .ok_or(DateError::NoSuchDate)
    }
}

/// The year of two times two digits.
fn generalized_year(century: u8, places: u8) -> u16
    requires century { century < 100 }
    requires places { places < 100 }
    ensures { result ≡ 100 * century + places }
{
    100 * u16::from(century) + u16::from(places)
}
