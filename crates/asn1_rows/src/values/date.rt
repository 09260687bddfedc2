// Dates. FORM is `utc` or `generalized`; a date is given and answered by its year, month, day, hour, minute and
// second. A refusal is answered by its name.
//
//     date.read_text FORM TEXT          the date
//     date.write_text FORM DATE         the text
//     date.copy FORM TEXT               the text of a copy of the date that is read
//     date.to_civil FORM DATE           the date of the calendar, as `2024-02-29T01:02:03`
//     date.from_civil FORM CIVIL        the date of one of the calendar
//     date.eq FORM DATE DATE
//     date.gt FORM DATE DATE
//     date.error NAME                   what `{}` prints of a refusal
use crate::bad_row;
use anyhow::Result;
use jiff::civil::DateTime;
use picky_asn1::CopyIn;
use picky_asn1::date::{Date, DateError, GeneralizedTimeRepr, TimeRepr, UTCTimeRepr};
use rows::{Answer, Words};
use std::alloc::Global;

pub(crate) fn answer(alloc: Global, call: &str, words: &mut Words<'_>) -> Result<Answer> {
    match words.next() {
        "utc" => of_form::<UTCTimeRepr>(alloc, call, words),
        "generalized" => of_form::<GeneralizedTimeRepr>(alloc, call, words),
        refusal if call == "error" => error(alloc, refusal),
        _ => bad_row("no such form"),
    }
}

fn error(alloc: Global, name: &str) -> Result<Answer> {
    match name {
        "YearOutOfRange" => Answer::display(alloc, &DateError::YearOutOfRange),
        "BadDateText" => Answer::display(alloc, &DateError::BadDateText),
        "NoSuchDate" => Answer::display(alloc, &DateError::NoSuchDate),
        "OutOfMemory" => Answer::display(alloc, &DateError::OutOfMemory),
        _ => bad_row("no such refusal"),
    }
}

fn refusal(error: &DateError) -> Answer {
    match error {
        DateError::YearOutOfRange => Answer::Word("YearOutOfRange"),
        DateError::BadDateText => Answer::Word("BadDateText"),
        DateError::NoSuchDate => Answer::Word("NoSuchDate"),
        DateError::OutOfMemory => Answer::Word("OutOfMemory"),
    }
}

fn of_form<TR: TimeRepr + Ord>(alloc: Global, call: &str, words: &mut Words<'_>) -> Result<Answer> {
    match call {
        "read_text" => numbers(alloc, Date::<TR>::read_text(words.rest().as_bytes())),
        "copy" => copied::<TR>(alloc, words.rest()),
        "write_text" => text(alloc, &date::<TR>(words)?),
        "to_civil" => to_civil::<TR>(alloc, words),
        "from_civil" => from_civil::<TR>(alloc, words.next()),
        "eq" | "gt" => compared::<TR>(call, words),
        _ => bad_row("no such call"),
    }
}

fn date<TR>(words: &mut Words<'_>) -> Result<Date<TR>> {
    let (year, month, day) = (words.parsed()?, words.parsed()?, words.parsed()?);
    let (hour, minute, second) = (words.parsed()?, words.parsed()?, words.parsed()?);
    match Date::new(year, month, day, hour, minute, second) {
        Some(date) => Ok(date),
        None => bad_row("a number is out of range"),
    }
}

fn from_civil<TR: TimeRepr>(alloc: Global, text: &str) -> Result<Answer> {
    match text.parse::<DateTime>() {
        Ok(civil) => numbers(alloc, Date::<TR>::from_civil(civil)),
        Err(_) => bad_row("no date"),
    }
}

fn numbers<TR>(alloc: Global, date: Result<Date<TR>, DateError>) -> Result<Answer> {
    match date {
        Ok(date) => printed(alloc, &date),
        Err(error) => Ok(refusal(&error)),
    }
}

fn printed<TR>(alloc: Global, date: &Date<TR>) -> Result<Answer> {
    Answer::numbers(
        alloc,
        &[
            date.year() as u64,
            date.month() as u64,
            date.day() as u64,
            date.hour() as u64,
            date.minute() as u64,
            date.second() as u64,
        ],
    )
}

fn text<TR: TimeRepr>(alloc: Global, date: &Date<TR>) -> Result<Answer> {
    match date.write_text(alloc) {
        Ok(text) => ascii(text),
        Err(error) => Ok(refusal(&error)),
    }
}

fn ascii(text: Vec<u8>) -> Result<Answer> {
    match String::from_utf8(text) {
        Ok(text) => Ok(Answer::Text(text)),
        Err(_) => bad_row("these bytes are no text"),
    }
}

fn copied<TR: TimeRepr>(alloc: Global, text: &str) -> Result<Answer> {
    let date = Date::<TR>::read_text(text.as_bytes())?;
    self::text(alloc, &date.copy_in(alloc)?)
}

fn to_civil<TR>(alloc: Global, words: &mut Words<'_>) -> Result<Answer> {
    let date = date::<TR>(words)?;
    match date.to_civil() {
        Ok(civil) => Answer::display(alloc, &civil),
        Err(error) => Ok(refusal(&error)),
    }
}

fn compared<TR: Ord>(call: &str, words: &mut Words<'_>) -> Result<Answer> {
    let one = date::<TR>(words)?;
    let other = date::<TR>(words)?;
    match call {
        "eq" => Ok(Answer::Truth(one == other)),
        _ => Ok(Answer::Truth(one > other)),
    }
}
