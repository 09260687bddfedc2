// Header texts as they are printed.
ghost use Rattle.std.specs.Prelude.{◌≡◌, ◌++◌, Some, IfOk, map, option_map, string_bytes};
ghost use Rattle.std.specs.Fmt.{decimal, WritesOnOk};
ghost use Rattle.picky_http.specs.Algorithms.{algorithm_view};
ghost use Rattle.picky_http.specs.Parts.{part_of};
ghost use Rattle.picky_http.specs.Printing.{printed, quoted, quoted_algorithm, list_text, optional_item, behind};
ghost use Rattle.picky_http.specs.Reading.{reading_of, algorithm_key};
ghost use Rattle.picky_http.specs.Signing.{part_text, space};
ghost use Rattle.picky_http_text.specs.Items.{comma};

use crate::algorithm::HttpSigAlgorithm;
use crate::header::Header;
use crate::signature::HttpSignature;
use std::alloc::{AllocError, Global};
use std::fmt;

impl HttpSignature {
    /// The header text (section 4.1): the word `Signature`, a space, and the items `keyId`, `algorithm`, `created`,
    /// `expires`, `headers` and `signature` in this order, joined by commas. Values stand between double quotes, but
    /// for numbers, which are decimal; `headers` are joined by single spaces. What is absent is left out, but for
    /// `headers`. Where the signature's form is unpadded base64url, no quotes are written and no algorithm.
    ///
    /// `Err` wants memory.
    pub fn to_signing_string(&self, alloc: Global) -> Result<String, AllocError>
        ensures { IfOk result (λ s. string_bytes s ≡ printed (reading_of self.now)) }
    {
        match self.to_string(alloc) {
            Ok(text) => Ok(text),
            Err(_) => Err(AllocError),
        }
    }
}

impl fmt::Display for HttpSignature {
    ghost output = { λ s. Some (printed (reading_of s)) };

    fn fmt<W: fmt::Write>(&self, f: &mut fmt::Formatter<W>) -> fmt::Result {
        let legacy = self.legacy;
        let algorithm = AlgorithmItem {
            algorithm: &self.algorithm,
            legacy,
        };
        let created = NumberItem {
            key: "created",
            number: self.created,
        };
        let expires = NumberItem {
            key: "expires",
            number: self.expires,
        };
        write!(
            f,
            "Signature keyId={}{algorithm}{created}{expires},headers={},signature={}",
            Quoted {
                text: &self.key_id,
                legacy
            },
            QuotedList {
                parts: &self.headers,
                legacy
            },
            Quoted {
                text: &self.signature,
                legacy
            },
        )
    }
}

// A text between double quotes, or as it is.
#[derive(Clone, Copy)]
struct Quoted<'a> {
    text: &'a str,
    legacy: bool,
}

impl fmt::Display for Quoted<'_> {
    ghost output = { λ q. Some (quoted q.legacy q.text.now) };

    fn fmt<W: fmt::Write>(&self, f: &mut fmt::Formatter<W>) -> fmt::Result {
        if self.legacy {
            f.write_str(self.text)
        } else {
            write!(f, "\"{}\"", self.text)
        }
    }
}

// Parts, joined by single spaces.
#[derive(Clone, Copy)]
struct PartList<'a>(&'a [Header]);

impl fmt::Display for PartList<'_> {
    ghost output = { λ l. Some (list_text (map part_of l.0.now)) };

    fn fmt<W: fmt::Write>(&self, f: &mut fmt::Formatter<W>) -> fmt::Result {
        match self.0 {
            [first, more @ ..] => write_list(first, more, f),
            [] => Ok(()),
        }
    }
}

// A part, and more parts, each behind a space.
fn write_list<W: fmt::Write>(
    first: &Header,
    more: &[Header],
    f: &mut fmt::Formatter<W>,
) -> fmt::Result
    ensures { WritesOnOk W.write_str_gives f.old result (part_text (part_of first.now) ++ behind space (map part_text (map part_of more.now))) f.new }
{
    write!(f, "{first}")?;
    write_more(more, f)
}

// Parts, each behind a space.
fn write_more<W: fmt::Write>(parts: &[Header], f: &mut fmt::Formatter<W>) -> fmt::Result
    ensures { WritesOnOk W.write_str_gives f.old result (behind space (map part_text (map part_of parts.now))) f.new }
{
    for part in parts {
        write!(f, " {part}")?;
    }
    Ok(())
}

// Parts, joined by single spaces, between double quotes or as they are.
#[derive(Clone, Copy)]
struct QuotedList<'a> {
    parts: &'a [Header],
    legacy: bool,
}

impl fmt::Display for QuotedList<'_> {
    ghost output = { λ l. Some (quoted l.legacy (list_text (map part_of l.parts.now))) };

    fn fmt<W: fmt::Write>(&self, f: &mut fmt::Formatter<W>) -> fmt::Result {
        let list = PartList(self.parts);
        if self.legacy {
            write!(f, "{list}")
        } else {
            write!(f, "\"{list}\"")
        }
    }
}

// The algorithm behind a comma, where it is written.
#[derive(Clone, Copy)]
struct AlgorithmItem<'a> {
    algorithm: &'a Option<HttpSigAlgorithm>,
    legacy: bool,
}

impl fmt::Display for AlgorithmItem<'_> {
    ghost output = { λ a. Some (behind comma (optional_item algorithm_key (quoted_algorithm a.legacy (option_map algorithm_view a.algorithm.now)))) };

    fn fmt<W: fmt::Write>(&self, f: &mut fmt::Formatter<W>) -> fmt::Result {
        match self.algorithm {
            Some(algorithm) if !self.legacy => write!(f, ",algorithm=\"{}\"", algorithm.as_str()),
            _ => Ok(()),
        }
    }
}

// A number behind a comma, where it is there.
#[derive(Clone, Copy)]
struct NumberItem {
    key: &'static str,
    number: Option<u64>,
}

impl fmt::Display for NumberItem {
    ghost output = { λ n. Some (behind comma (optional_item n.key.now (option_map decimal n.number))) };

    fn fmt<W: fmt::Write>(&self, f: &mut fmt::Formatter<W>) -> fmt::Result {
        match self.number {
            Some(number) => write!(f, ",{}={number}", self.key),
            None => Ok(()),
        }
    }
}
