// Dates.
ghost use Rattle.std.specs.Prelude.{◌≡◌, ◌↔◌, ◌<◌, ◌≤◌, pos, ◌≤ℤ◌, List, ℕ, IsSome, IfSome, IfOk, Ok};
ghost use Rattle.jiff.specs.Words.{IsDate};
ghost use Rattle.picky_contract.specs.Refusals.{Meets, OkOrMemory};
ghost use Rattle.picky_asn1_date.specs.Civil.{civil_view, to_civil_table, from_civil_table};
ghost use Rattle.picky_asn1_date.specs.Faults.{any_fault, date_fault};
ghost use Rattle.picky_asn1_date.specs.Moment.{Moment, IsMoment};
ghost use Rattle.picky_asn1_date.specs.Reading.{DateReading, reading_table, writing_table};

use crate::error::DateError;
use crate::repr::{GeneralizedTimeRepr, TimeRepr, UTCTimeRepr};
use jiff::civil::DateTime;
use std::alloc::Global;
use std::marker::{Model, PhantomData};

/// A date and a time of day in the form of text `TR`.
///
/// The month is 1 to 12, the day 1 to 31 whatever the month, the hour below 24, minute and second below 60.
#[derive(Clone, Copy, Debug, PartialEq, Eq, PartialOrd, Ord, Hash)]
pub struct Date<TR> {
    year: u16,
    month: u8,
    day: u8,
    hour: u8,
    minute: u8,
    second: u8,
    repr: PhantomData<TR>,
}

impl<TR> Model for Date<TR> {
    ghost use Rattle.picky_asn1_date.specs.Moment.{Moment, IsMoment};

    ghost Value = { Moment };

    ghost view = { λ d. record { year = d.year; month = d.month; day = d.day; hour = d.hour; minute = d.minute; second = d.second } };

    ghost invariant = { λ d. IsMoment (record { year = d.year; month = d.month; day = d.day; hour = d.hour; minute = d.minute; second = d.second }) };

    ghost inverse = { λ m. record { year = m.year; month = m.month; day = m.day; hour = m.hour; minute = m.minute; second = m.second; repr = _ } };
}

/// A date that is written `YYMMDDHHMMSSZ`.
pub type UTCTime = Date<UTCTimeRepr>;

/// A date that is written `YYYYMMDDHHMMSSZ`.
pub type GeneralizedTime = Date<GeneralizedTimeRepr>;

impl<TR> Date<TR> {
    /// The date of these numbers; `None` exactly where one is out of range.
    pub fn new(year: u16, month: u8, day: u8, hour: u8, minute: u8, second: u8) -> Option<Date<TR>>
        ensures exactly { IsSome result ↔ IsMoment (record { year = year; month = month; day = day; hour = hour; minute = minute; second = second }) }
        ensures value { IfSome result (λ d. d ≡ record { year = year; month = month; day = day; hour = hour; minute = minute; second = second }) }
    {
        if !(1..=12).contains(&month)
            || !(1..=31).contains(&day)
            || 24 <= hour
            || 60 <= minute
            || 60 <= second
        {
            return None;
        }
        Some(Date::new_unchecked(year, month, day, hour, minute, second))
    }

    /// The date of these numbers, which are in range.
    pub fn new_unchecked(
        year: u16,
        month: u8,
        day: u8,
        hour: u8,
        minute: u8,
        second: u8,
    ) -> Date<TR>
        requires { IsMoment (record { year = year; month = month; day = day; hour = hour; minute = minute; second = second }) }
        ensures { result ≡ record { year = year; month = month; day = day; hour = hour; minute = minute; second = second } }
    {
        Date {
            year,
            month,
            day,
            hour,
            minute,
            second,
            repr: PhantomData,
        }
    }

    /// The year.
    pub fn year(&self) -> u16
        ensures value { result ≡ self.now.year }
        ensures in_range { IsMoment self.now }
    {
        self.year
    }

    /// The month, 1 to 12.
    pub fn month(&self) -> u8
        ensures value { result ≡ self.now.month }
        ensures in_range { IsMoment self.now }
    {
        self.month
    }

    /// The day, 1 to 31.
    pub fn day(&self) -> u8
        ensures value { result ≡ self.now.day }
        ensures in_range { IsMoment self.now }
    {
        self.day
    }

    /// The hour, 0 to 23.
    pub fn hour(&self) -> u8
        ensures value { result ≡ self.now.hour }
        ensures in_range { IsMoment self.now }
    {
        self.hour
    }

    /// The minute, 0 to 59.
    pub fn minute(&self) -> u8
        ensures value { result ≡ self.now.minute }
        ensures in_range { IsMoment self.now }
    {
        self.minute
    }

    /// The second, 0 to 59.
    pub fn second(&self) -> u8
        ensures value { result ≡ self.now.second }
        ensures in_range { IsMoment self.now }
    {
        self.second
    }

    /// The same date and time of the calendar.
    ///
    /// [`DateError::YearOutOfRange`] above 9999, else [`DateError::NoSuchDate`] where the month has no such day.
    pub fn to_civil(&self) -> Result<DateTime, DateError>
        ensures { Meets civil_view any_fault result (to_civil_table self.now) }
    {
        if 9999 < self.year() {
            return Err(DateError::YearOutOfRange);
        }
        self.on_calendar().ok_or(DateError::NoSuchDate)
    }

    /// The date of the calendar, where it has one.
    fn on_calendar(&self) -> Option<DateTime>
        requires { self.now.year ≤ 9999 }
        ensures exactly { IsSome result ↔ IsDate (pos self.now.year) (pos self.now.month) (pos self.now.day) }
        ensures year { IfSome result (λ dt. dt.date.year ≡ pos self.now.year) }
        ensures month { IfSome result (λ dt. dt.date.month ≡ self.now.month) }
        ensures day { IfSome result (λ dt. dt.date.day ≡ self.now.day) }
        ensures time { IfSome result (λ dt. (dt.time.hour ≡ self.now.hour) × (dt.time.minute ≡ self.now.minute) × (dt.time.second ≡ self.now.second) × (dt.time.subsec_nanosecond ≡ 0)) }
    {
        DateTime::new(
            self.year as i16,
            self.month as i8,
            self.day as i8,
            self.hour as i8,
            self.minute as i8,
            self.second as i8,
            0,
        )
        .ok()
    }

    /// The date and time of the calendar, without parts of a second; [`DateError::YearOutOfRange`] exactly where
    /// the year is negative.
    pub fn from_civil(dt: DateTime) -> Result<Date<TR>, DateError>
        ensures { Meets (λ d. d) any_fault result (from_civil_table (civil_view dt)) }
    {
        Date::of_calendar(dt).ok_or(DateError::YearOutOfRange)
    }

    /// The six numbers of a date of the calendar, where its year isn't negative.
    fn of_calendar(dt: DateTime) -> Option<Date<TR>>
        ensures exactly { IsSome result ↔ (pos 0 ≤ℤ dt.date.year) }
        ensures year { IfSome result (λ d. pos d.year ≡ dt.date.year) }
        ensures rest { IfSome result (λ d. (d.month ≡ dt.date.month) × (d.day ≡ dt.date.day) × (d.hour ≡ dt.time.hour) × (d.minute ≡ dt.time.minute) × (d.second ≡ dt.time.second)) }
    {
        let year = dt.year();
        if year < 0 {
            return None;
        }
        Some(Date::new_unchecked(
            year as u16,
            dt.month() as u8,
            dt.day() as u8,
            dt.hour() as u8,
            dt.minute() as u8,
            dt.second() as u8,
        ))
    }
}

impl<TR: TimeRepr> Date<TR> {
    /// The text of the date; [`DateError::YearOutOfRange`] exactly where the form doesn't have its year.
    pub fn write_text(&self, alloc: Global) -> Result<Vec<u8>, DateError>
        ensures found { IfOk result (λ text. TR.IsYear self.now.year × (text.items ≡ TR.text self.now)) }
        ensures every { TR.IsYear self.now.year → OkOrMemory (λ text. text.items) date_fault result (TR.text self.now) }
        ensures first { Meets (λ text. text.items) date_fault result (writing_table TR.IsYear TR.text self.now) }
    {
        TR::write_text(alloc, self)
    }

    /// The date whose text this is.
    ///
    /// [`DateError::BadDateText`] where the text isn't digits and `Z` of the form's length, else
    /// [`DateError::NoSuchDate`] where its parts are out of range.
    pub fn read_text(bytes: &[u8]) -> Result<Date<TR>, DateError>
        ensures found { IfOk result (DateReading TR.IsYear TR.text bytes.now) }
        ensures every { (m : Moment) → DateReading TR.IsYear TR.text bytes.now m → result ≡ Ok m }
        ensures first { Meets (λ d. d) any_fault result (reading_table TR.IsYear TR.text bytes.now) }
    {
        TR::read_text(bytes)
    }
}
