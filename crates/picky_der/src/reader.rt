// A reader of values in a slice.
ghost use Rattle.std.specs.Prelude.{◌≡◌, ◌++◌, ◌≤◌, ◌+◌, ◌↔◌, ℕ, List, [], Ok, length, IfOk, IfErr, IsTrue};
ghost use Rattle.picky_asn1_bits.specs.Integer.{unsigned_of};
ghost use Rattle.picky_der.specs.Length.{SpellsLength};
ghost use Rattle.picky_der.specs.Form.{OkIs, IsOneValue};
ghost use Rattle.picky_der.specs.declared.reader.TagPeeker.{TagPeeker as Peeker};
ghost use Rattle.picky_der.specs.Reading.{IsOfBytes, Answers, Moves, long_at, length_at, contents_at, rest_at, after_tag, value_at, raw_at, whole_bytes, nested_at, nested_bits_at, end_at, tag_at};

use crate::fault::DerError;
use picky_asn1_tag::{Asn1Value, CopyIn, Tag};
use std::alloc::{AllocError, Global};
use std::marker::Model;

/// The tag that stands next.
#[derive(Clone, Copy, Debug, PartialEq, Eq, PartialOrd, Ord, Hash)]
pub struct TagPeeker {
    /// The tag.
    pub next_tag: Tag,
}

impl Asn1Value for TagPeeker {
    ghost Meaning = { Peeker };

    ghost meaning = { λ peeker. peeker };
}

impl CopyIn for TagPeeker {
    fn copy_in(&self, _alloc: Global) -> Result<TagPeeker, AllocError> {
        Ok(*self)
    }
}

/// Reads values one after another from a slice, and copies nothing: what it answers are slices of its input.
///
/// After a refusal it stands where it stood. Contracts see it as a `Place`: the bytes that are left, and the
/// number of readers that it is nested in, at most 256.
#[derive(Debug, Drop)]
pub struct DerReader<'a> {
    left: &'a [u8],
    depth: u16,
}

impl<'a> Model for DerReader<'a> {
    ghost use Rattle.std.specs.Prelude.{◌≤◌};
    ghost use Rattle.picky_der.specs.View.{Place};

    ghost Value = { Place };

    ghost view = { λ r. record { left = r.left.now; depth = r.depth } };

    ghost invariant = { λ r. r.depth ≤ 256 };
}

// The most readers in which one may be nested.
const DEEPEST: u16 = 256;

fn number_of(bytes: &[u8]) -> u64
    requires { length bytes.now ≤ 8 }
    ensures { result ≡ unsigned_of bytes.now }
{
    let mut number: u64 = 0;
    for byte in bytes {
        number = number * 256 + *byte as u64;
    }
    number
}

#[tactic(auto, unfolding(crate::specs::Reading::long_at))]
fn long_length(count: usize, bytes: &[u8]) -> Result<(u64, &[u8]), DerError>
    ensures answers { Answers (λ x. (x.0, x.1.now)) result (long_at count bytes.now) }
    ensures no_memory { IfErr result IsOfBytes }
{
    if bytes.len() < count {
        return Err(DerError::Truncated);
    }
    if count == 0 || 8 < count {
        return Err(DerError::BadLength);
    }
    let (digits, rest) = bytes.split_at(count);
    let number = number_of(digits);
    if digits[0] == 0 || number < 128 {
        return Err(DerError::BadLength);
    }
    Ok((number, rest))
}

#[tactic(auto, unfolding(crate::specs::Reading::length_at))]
fn any_length(bytes: &[u8]) -> Result<(u64, &[u8]), DerError>
    ensures answers { Answers (λ x. (x.0, x.1.now)) result (length_at bytes.now) }
    ensures no_memory { IfErr result IsOfBytes }
{
    match bytes {
        [] => Err(DerError::Truncated),
        [first, rest @ ..] => {
            if *first < 128 {
                return Ok((*first as u64, rest));
            }
            long_length((*first - 128) as usize, rest)
        }
    }
}

/// Reads the length that stands in front of the bytes: the length, and the bytes after it (X.690 section 8.1.3).
///
/// `Truncated` where a length byte is missing, else `BadLength` where the bytes in front spell no length.
pub fn read_length(bytes: &[u8]) -> Result<(u64, &[u8]), DerError>
    ensures first { Answers (λ x. (x.0, x.1.now)) result (length_at bytes.now) }
    ensures found { IfOk result (λ x. (front : List ℕ) × SpellsLength front x.0 × (bytes.now ≡ front ++ x.1.now)) }
    ensures every { (front rest : List ℕ) (n : ℕ) → SpellsLength front n → bytes.now ≡ front ++ rest → OkIs {Y = ℕ × List ℕ} (λ x. (x.0, x.1.now)) result (n, rest) }
    ensures no_memory { IfErr result IsOfBytes }
{
    any_length(bytes)
}

#[tactic(auto, unfolding(crate::specs::Reading::contents_at))]
fn contents(len: u64, bytes: &[u8]) -> Result<(&[u8], &[u8]), DerError>
    ensures answers { Answers (λ x. (x.0.now, x.1.now)) result (contents_at len bytes.now) }
    ensures no_memory { IfErr result IsOfBytes }
{
    if (bytes.len() as u64) < len {
        return Err(DerError::Truncated);
    }
    Ok(bytes.split_at(len as usize))
}

#[tactic(auto, unfolding(crate::specs::Reading::rest_at, crate::specs::Reading::after_tag))]
fn after_tag(tag: u8, bytes: &[u8]) -> Result<(&[u8], &[u8]), DerError>
    ensures first { Answers (λ x. (x.0.now, x.1.now)) result (after_tag tag bytes.now) }
    ensures shorter { IfOk result (λ x. length x.1.now ≤ length bytes.now) }
    ensures no_memory { IfErr result IsOfBytes }
{
    if tag % 32 == 31 {
        return Err(DerError::BadValue);
    }
    let (len, rest) = any_length(bytes)?;
    contents(len, rest)
}

#[tactic(auto, unfolding(crate::specs::Reading::value_at))]
fn value(tag: Tag, bytes: &[u8]) -> Result<(&[u8], &[u8]), DerError>
    ensures answers { Answers (λ x. (x.0.now, x.1.now)) result (value_at tag bytes.now) }
    ensures no_memory { IfErr result IsOfBytes }
{
    match bytes {
        [] => Err(DerError::Truncated),
        [first, rest @ ..] => {
            if *first != tag.0 {
                return Err(DerError::WrongTag {
                    expected: tag,
                    got: Tag(*first),
                });
            }
            after_tag(*first, rest)
        }
    }
}

#[tactic(auto, unfolding(crate::specs::Reading::raw_at))]
fn raw_value(bytes: &[u8]) -> Result<(&[u8], &[u8]), DerError>
    ensures answers { Answers (λ x. (x.0.now, x.1.now)) result (raw_at bytes.now) }
    ensures no_memory { IfErr result IsOfBytes }
{
    match bytes {
        [] => Err(DerError::Truncated),
        [first, rest @ ..] => {
            let (_, left) = after_tag(*first, rest)?;
            let (raw, _) = bytes.split_at(bytes.len() - left.len());
            Ok((raw, left))
        }
    }
}

fn one_value(bytes: &[u8]) -> Result<(&[u8], &[u8]), DerError>
    ensures first { Answers (λ x. (x.0.now, x.1.now)) result (raw_at bytes.now) }
    ensures one { IfOk result (λ x. IsOneValue x.0.now) }
    ensures no_memory { IfErr result IsOfBytes }
{
    raw_value(bytes)
}

#[tactic(auto, unfolding(crate::specs::Reading::whole_bytes))]
fn whole_bytes(contents: &[u8]) -> Result<&[u8], DerError>
    ensures answers { Answers (λ x. x.now) result (whole_bytes contents.now) }
    ensures no_memory { IfErr result IsOfBytes }
{
    match contents {
        [0, bytes @ ..] => Ok(bytes),
        _ => Err(DerError::BadValue),
    }
}

impl<'a> DerReader<'a> {
    /// A reader of these bytes, nested in none.
    pub fn new(bytes: &'a [u8]) -> DerReader<'a>
        ensures { result ≡ record { left = bytes.now; depth = 0 } }
    {
        DerReader {
            left: bytes,
            depth: 0,
        }
    }

    /// A second reader at the same place.
    pub fn fork(&self) -> DerReader<'a>
        ensures { result ≡ self.now }
    {
        DerReader {
            left: self.left,
            depth: self.depth,
        }
    }

    /// A reader of other bytes at the same depth.
    pub fn with_bytes<'b>(&self, bytes: &'b [u8]) -> DerReader<'b>
        ensures { result ≡ record { left = bytes.now; depth = self.now.depth } }
    {
        DerReader {
            left: bytes,
            depth: self.depth,
        }
    }

    /// Whether nothing is left.
    pub fn is_empty(&self) -> bool
        ensures { IsTrue result ↔ (self.now.left ≡ []) }
    {
        self.left.is_empty()
    }

    /// The next tag. `Truncated` where nothing is left. The reader stays where it is.
    #[tactic(auto, unfolding(crate::specs::Reading::tag_at))]
    pub fn peek_tag(&self) -> Result<TagPeeker, DerError>
        ensures answers { Answers (λ x. x.next_tag.0) result (tag_at self.now.left) }
        ensures no_memory { IfErr result IsOfBytes }
    {
        match self.left {
            [] => Err(DerError::Truncated),
            [first, ..] => Ok(TagPeeker {
                next_tag: Tag(*first),
            }),
        }
    }

    /// The contents of the next value, which has this tag; the reader then stands just past the value.
    ///
    /// The first of: `Truncated` where nothing is left; `WrongTag`; `BadValue` where the tag's number is 31;
    /// `Truncated` where a length byte is missing; `BadLength`; `Truncated` where the contents are cut.
    pub fn read_value(&mut self, tag: Tag) -> Result<&'a [u8], DerError>
        ensures reads { Moves (λ x. x.now) (λ _ bytes. value_at tag bytes) self.old result self.new }
        ensures no_memory { IfErr result IsOfBytes }
    {
        let (contents, left) = value(tag, self.left)?;
        self.left = left;
        Ok(contents)
    }

    /// The whole next value, tag and length too; the reader then stands just past it.
    ///
    /// The faults are those of `read_value` for the tag that stands there.
    pub fn read_raw(&mut self) -> Result<&'a [u8], DerError>
        ensures reads { Moves (λ x. x.now) (λ _ bytes. raw_at bytes) self.old result self.new }
        ensures one { IfOk result (λ x. IsOneValue x.now) }
        ensures no_memory { IfErr result IsOfBytes }
    {
        let (raw, left) = one_value(self.left)?;
        self.left = left;
        Ok(raw)
    }

    /// A reader of the contents of the next value, which has this tag; this reader then stands just past the value.
    ///
    /// The faults of `read_value`, and then `TooDeep` where this reader is nested in 256 others.
    #[tactic(auto, unfolding(crate::specs::Reading::nested_at, crate::specs::Reading::deeper))]
    pub fn nested(&mut self, tag: Tag) -> Result<DerReader<'a>, DerError>
        ensures reads { Moves (λ x. x.left) (nested_at tag) self.old result self.new }
        ensures depth { IfOk result (λ x. x.depth ≡ self.old.depth + 1) }
        ensures no_memory { IfErr result IsOfBytes }
    {
        let (contents, left) = value(tag, self.left)?;
        if DEEPEST <= self.depth {
            return Err(DerError::TooDeep);
        }
        self.left = left;
        Ok(DerReader {
            left: contents,
            depth: self.depth + 1,
        })
    }

    /// A reader of the bytes that the next value holds, a BIT STRING of whole bytes; this reader then stands just past
    /// the value.
    ///
    /// The faults of `read_value`, then `BadValue` where the contents don't begin with a count 00 of unused bits, and
    /// then `TooDeep` where this reader is nested in 256 others.
    #[tactic(auto, unfolding(crate::specs::Reading::nested_bits_at, crate::specs::Reading::deeper))]
    pub fn nested_bits(&mut self, tag: Tag) -> Result<DerReader<'a>, DerError>
        ensures reads { Moves (λ x. x.left) (nested_bits_at tag) self.old result self.new }
        ensures depth { IfOk result (λ x. x.depth ≡ self.old.depth + 1) }
        ensures no_memory { IfErr result IsOfBytes }
    {
        let (contents, left) = value(tag, self.left)?;
        let bytes = whole_bytes(contents)?;
        if DEEPEST <= self.depth {
            return Err(DerError::TooDeep);
        }
        self.left = left;
        Ok(DerReader {
            left: bytes,
            depth: self.depth + 1,
        })
    }

    /// Nothing is left, else `TrailingBytes`.
    #[tactic(auto, unfolding(crate::specs::Reading::end_at))]
    pub fn end(&self) -> Result<(), DerError>
        ensures answers { Answers (λ x. x) result (end_at self.now.left) }
        ensures no_memory { IfErr result IsOfBytes }
    {
        match self.left {
            [] => Ok(()),
            [_, ..] => Err(DerError::TrailingBytes),
        }
    }
}
