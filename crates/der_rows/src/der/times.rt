// Dates under their tags, made of their inner values and given back as such. A date is six numbers: year, month, day, hour,
// minute and second.
//
//     der_time.utc DATE                 what the UTCTime is written as, or the fault
//     der_time.generalized DATE         the GeneralizedTime
//     der_time.utc_changed DATE         the UTCTime 1950-01-01 00:00:00, changed in place to this date
//     der_time.date BYTES               the date of the UTCTime that the bytes are
//     der_time.civil BYTES              its day in the calendar, or the refusal
use crate::der::plain::{bad_row, next_value};
use crate::der::values::written;
use anyhow::Result;
use picky_asn1_date::{Date, DateError, UTCTime};
use picky_asn1_time::{GeneralizedTimeAsn1, UtcTimeAsn1};
use rows::{Answer, Words};
use std::alloc::Global;

pub fn answer(alloc: Global, call: &str, words: &mut Words<'_>) -> Result<Answer> {
    match call {
        "utc" => written(alloc, &UtcTimeAsn1::from(date(words)?)),
        "generalized" => written(alloc, &GeneralizedTimeAsn1::from(date(words)?)),
        "utc_changed" => changed(alloc, words),
        "date" => numbers(alloc, words),
        "civil" => civil(alloc, words),
        _ => bad_row("no such call"),
    }
}

fn date<TR>(words: &mut Words<'_>) -> Result<Date<TR>> {
    let (year, month, day) = (words.parsed()?, words.parsed()?, words.parsed()?);
    let (hour, minute, second) = (words.parsed()?, words.parsed()?, words.parsed()?);
    match Date::new(year, month, day, hour, minute, second) {
        Some(date) => Ok(date),
        None => bad_row("no such date"),
    }
}

fn changed(alloc: Global, words: &mut Words<'_>) -> Result<Answer> {
    let mut time = UtcTimeAsn1::from(UTCTime::new_unchecked(1950, 1, 1, 0, 0, 0));
    *time = date(words)?;
    written(alloc, &time)
}

fn numbers(alloc: Global, words: &mut Words<'_>) -> Result<Answer> {
    let time: UtcTimeAsn1 = next_value(alloc, words)?;
    let date = UTCTime::from(time);
    Answer::numbers(
        alloc,
        &[
            date.year() as u64,
            date.month() as u64,
            date.day() as u64,
            date.hour() as u64,
            date.minute() as u64,
            date.second() as u64,
        ],
    )
}

fn civil(alloc: Global, words: &mut Words<'_>) -> Result<Answer> {
    let time: UtcTimeAsn1 = next_value(alloc, words)?;
    match time.to_civil() {
        Ok(civil) => Answer::display(alloc, &civil),
        Err(DateError::NoSuchDate) => Ok(Answer::Word("NoSuchDate")),
        Err(_) => bad_row("another refusal"),
    }
}
