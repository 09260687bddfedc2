// What a call gives, and how it is printed.
use anyhow::Result;
use std::alloc::{AllocError, Global};
use std::fmt;

/// What a call gives.
#[derive(Drop)]
pub enum Answer {
    /// A text as it stands.
    Text(String),

    /// A word of the program's own, as the name of a refusal.
    Word(&'static str),

    /// A byte, in two digits of hex.
    Byte(u8),

    /// A size, a count or an index.
    Size(usize),

    /// A whole number.
    Number(i128),

    /// `true` or `false`.
    Truth(bool),
}

// The answer of a text that was made.
fn made(text: Result<String, AllocError>) -> Result<Answer> {
    Ok(Answer::Text(text?))
}

// Puts a character behind a line, where what would end or escape it is spelled.
fn push_spelled(line: &mut String, character: char) -> Result<(), AllocError> {
    match character {
        '\n' => line.push_str("\\n"),
        '\r' => line.push_str("\\r"),
        '\\' => line.push_str("\\\\"),
        other => line.push(other),
    }
}

// A text of many lines as one.
fn line_of(alloc: Global, text: &str) -> Result<String, AllocError> {
    let mut line = String::new(alloc);
    for character in text.chars() {
        push_spelled(&mut line, character)?;
    }
    Ok(line)
}

// Puts a number behind others.
fn push_number(alloc: Global, line: &mut String, number: u64) -> Result<(), AllocError> {
    if !line.is_empty() {
        line.push(' ')?;
    }
    line.push_str(&String::format(alloc, i128::from(number))?)
}

// Numbers, a space between two of them.
fn line_of_numbers(alloc: Global, numbers: &[u64]) -> Result<String, AllocError> {
    let mut line = String::new(alloc);
    for number in numbers {
        push_number(alloc, &mut line, *number)?;
    }
    Ok(line)
}

impl Answer {
    /// Bytes in hex, `-` for none.
    pub fn bytes(alloc: Global, bytes: &[u8]) -> Result<Answer> {
        if bytes.is_empty() {
            return Ok(Answer::Word("-"));
        }
        made(hex::encode(alloc, bytes))
    }

    /// A text as it stands.
    pub fn text(alloc: Global, text: &str) -> Result<Answer> {
        made(String::from_str(alloc, text))
    }

    /// A text of many lines as one: LF is `\n`, CR `\r` and a backslash `\\`; `-` is none.
    pub fn lines(alloc: Global, text: &str) -> Result<Answer> {
        if text.is_empty() {
            return Ok(Answer::Word("-"));
        }
        made(line_of(alloc, text))
    }

    /// Numbers, a space between two of them.
    pub fn numbers(alloc: Global, numbers: &[u64]) -> Result<Answer> {
        made(line_of_numbers(alloc, numbers))
    }

    /// Two answers, a space between them.
    pub fn pair(alloc: Global, first: Answer, second: Answer) -> Result<Answer> {
        made(format!(in alloc; "{first} {second}"))
    }

    /// What `{:?}` prints.
    pub fn debug<T: fmt::Debug>(alloc: Global, value: &T) -> Result<Answer> {
        made(format!(in alloc; "{value:?}"))
    }

    /// What `{}` prints.
    pub fn display<T: fmt::Display>(alloc: Global, value: &T) -> Result<Answer> {
        made(String::format(alloc, value))
    }
}

impl fmt::Display for Answer {
    fn fmt<W: fmt::Write>(&self, f: &mut fmt::Formatter<W>) -> fmt::Result {
        match self {
            Answer::Text(text) => f.write_str(text),
            Answer::Word(word) => f.write_str(word),
            Answer::Byte(byte) => write!(f, "{byte:02x}"),
            Answer::Size(size) => (*size as i128).fmt(f),
            Answer::Number(number) => number.fmt(f),
            Answer::Truth(truth) => f.write_str(if *truth { "true" } else { "false" }),
        }
    }
}
