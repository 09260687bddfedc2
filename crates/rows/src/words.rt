// The arguments of a row.
use anyhow::{Error, Result, bail};
use std::alloc::Global;
use std::str::FromStr;

/// What is left of a row: words with a space between two of them.
#[derive(Drop)]
pub struct Words<'a> {
    rest: &'a str,
}

/// The refusal of a row, by its cause.
pub fn refused<T>(cause: &'static str) -> Result<T> {
    Err(Error::msg(cause))
}

// What stands before the first such text and what stands behind it, which is nothing where there is none.
pub(crate) fn cut<'a>(text: &'a str, end: &str) -> (&'a str, &'a str) {
    text.split_once(end).unwrap_or((text, ""))
}

/// What is there, or the refusal of a row, by its cause.
pub fn present<T>(value: Option<T>, cause: &'static str) -> Result<T> {
    match value {
        Some(value) => Ok(value),
        None => refused(cause),
    }
}

// What stands for a character behind a backslash.
fn escape(character: char) -> Result<char> {
    match character {
        'n' => Ok('\n'),
        'r' => Ok('\r'),
        '\\' => Ok('\\'),
        _ => refused("no such escape"),
    }
}

// Puts what a character means behind a text, and says whether it escapes the next one.
fn push_meant(text: &mut String, escaped: bool, character: char) -> Result<bool> {
    if !escaped && character == '\\' {
        return Ok(true);
    }
    text.push(if escaped {
        escape(character)?
    } else {
        character
    })?;
    Ok(false)
}

// The text of many lines that a line spells.
fn unescaped(alloc: Global, line: &str) -> Result<String> {
    let mut text = String::new(alloc);
    let mut escaped = false;
    for character in line.chars() {
        escaped = push_meant(&mut text, escaped, character)?;
    }
    if escaped {
        return refused("a backslash stands last");
    }
    Ok(text)
}

impl<'a> Words<'a> {
    /// The words of a text.
    pub fn new(text: &'a str) -> Words<'a> {
        Words { rest: text }
    }

    /// The next word, an empty one where none is left.
    pub fn next(&mut self) -> &'a str {
        let (word, rest) = cut(self.rest, " ");
        self.rest = rest;
        word
    }

    /// All that is left, as one text.
    pub fn rest(&mut self) -> &'a str {
        let rest = self.rest;
        self.rest = "";
        rest
    }

    /// All that is left, as a text of many lines: `\n` is LF, `\r` CR and `\\` a backslash.
    pub fn lines(&mut self, alloc: Global) -> Result<String> {
        unescaped(alloc, self.rest())
    }

    /// Bytes in hex, `-` for none.
    pub fn bytes(&mut self, alloc: Global) -> Result<Vec<u8>> {
        match self.next() {
            "" => refused("bytes are missing"),
            "-" => Ok(Vec::new(alloc)),
            word => Ok(hex::decode(alloc, word)?),
        }
    }

    /// A text given by its bytes in hex, `-` for none.
    pub fn text(&mut self, alloc: Global) -> Result<String> {
        match String::from_utf8(self.bytes(alloc)?) {
            Ok(text) => Ok(text),
            Err(_) => refused("these bytes are no text"),
        }
    }

    /// A byte, in hex.
    pub fn byte(&mut self) -> Result<u8> {
        present(
            u8::from_str_radix(self.next(), 16).ok(),
            "a byte is missing",
        )
    }

    /// A word as the text of a value, as of a number in decimal.
    pub fn parsed<T: FromStr + Drop>(&mut self) -> Result<T>
    where
        T::Err: Drop,
    {
        present(self.next().parse::<T>().ok(), "a number is missing")
    }

    /// A size, a count or an index, in decimal.
    pub fn size(&mut self) -> Result<usize> {
        self.parsed()
    }

    /// A whole number, in decimal.
    pub fn number(&mut self) -> Result<i128> {
        self.parsed()
    }

    /// `true` or `false`.
    pub fn truth(&mut self) -> Result<bool> {
        match self.next() {
            "true" => Ok(true),
            "false" => Ok(false),
            _ => refused("true or false is missing"),
        }
    }

    /// An error where something is left.
    pub fn end(&self) -> Result<()> {
        match self.rest {
            "" => Ok(()),
            rest => bail!("'{rest}' is too much"),
        }
    }
}
