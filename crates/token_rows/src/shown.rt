// What rows have in common: values that libraries make, each shown in one way and dropped in one place.
use anyhow::{Context, Result};
use rows::Answer;
use std::alloc::Global;
use std::fmt;

// The value, or what is missing.
pub(crate) fn found<T: Drop>(value: Option<T>, missing: &'static str) -> Result<T> {
    value.context(missing)
}

// Both values.
pub(crate) fn both<T: Drop, U: Drop>(first: Result<T>, second: Result<U>) -> Result<(T, U)> {
    let first = first?;
    let second = second?;
    Ok((first, second))
}

// A way to show a value.
pub(crate) trait Shows<T> {
    fn show(alloc: Global, value: &T) -> Result<Answer>;
}

// The value, shown in the way of `W`, or the refusal as it is.
pub(crate) fn told<W: Shows<T>, T: Drop, E: fmt::Debug + Drop>(
    alloc: Global,
    value: Result<T, E>,
) -> Result<Answer> {
    match value {
        Ok(value) => W::show(alloc, &value),
        Err(error) => Answer::debug(alloc, &error),
    }
}

// `Ok`, or the refusal as it is.
pub(crate) fn outcome<T: Drop, E: fmt::Debug + Drop>(
    alloc: Global,
    outcome: Result<T, E>,
) -> Result<Answer> {
    match outcome {
        Ok(_) => Ok(Answer::Word("Ok")),
        Err(error) => Answer::debug(alloc, &error),
    }
}

// What the value is printed as.
pub(crate) fn printed<T: fmt::Display + Drop>(alloc: Global, value: Result<T>) -> Result<Answer> {
    let value = value?;
    Answer::display(alloc, &value)
}

// A text, in one line.
pub(crate) struct Text;

impl Shows<String> for Text {
    fn show(alloc: Global, text: &String) -> Result<Answer> {
        Answer::lines(alloc, text)
    }
}

// Bytes in hex.
pub(crate) struct Hex;

impl Shows<Vec<u8>> for Hex {
    fn show(alloc: Global, bytes: &Vec<u8>) -> Result<Answer> {
        Answer::bytes(alloc, bytes)
    }
}
