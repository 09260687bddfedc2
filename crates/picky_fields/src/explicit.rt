// Explicit tags.
ghost use Rattle.std.specs.Prelude.{◌≡◌, ◌+◌, ◌<◌, ◌==◌, List, ℕ};
ghost use Rattle.std.specs.Option.{option_map};
ghost use Rattle.picky_der.specs.Reading.{Reads};
ghost use Rattle.picky_der.specs.Form.{Writes};
ghost use Rattle.picky_fields.specs.Fields.{stands_next, SpellsOptional, OptionalRefused, optional, explicit};

use picky_asn1_tag::Tag;
use picky_der::{DerError, DerRead, DerReader, DerWrite, write_value};
use std::alloc::Global;

/// The value that stands next, alone in an explicit tag with this number; the reader then stands just past the tag's
/// value.
///
/// A refusal is the fault at the first bad place, or `OutOfMemory`, and leaves the reader where it stood.
#[tactic(auto, unfolding(crate::specs::Fields::explicit, crate::specs::Fields::enclosed_at, crate::specs::Fields::run_at))]
pub fn read_explicit<T: DerRead + Drop>(
    alloc: Global,
    number: u8,
    reader: &mut DerReader<'_>,
) -> Result<T, DerError>
    requires { number < 16 }
    ensures { Reads T.stands_for (explicit number T.form).reading reader.old result reader.new }
{
    let mut ahead = reader.fork();
    let mut inner = ahead.nested(Tag(160 + number))?;
    let value = T::read_der(alloc, &mut inner)?;
    inner.end()?;
    *reader = ahead;
    Ok(value)
}

#[tactic(auto, unfolding(picky_der::specs::Reading::tag_at))]
fn explicit_stands_next(number: u8, reader: &DerReader<'_>) -> bool
    requires { number < 16 }
    ensures { result ≡ stands_next (λ b. b == 160 + number) reader.now.left }
{
    match reader.peek_tag() {
        Ok(peeker) => peeker.next_tag.0 == 160 + number,
        Err(_) => false,
    }
}

/// The same where that tag stands next; else nothing, and the reader stays.
#[tactic(auto, unfolding(crate::specs::Fields::optional_at, crate::specs::Fields::explicit))]
pub fn read_optional_explicit<T: DerRead + Drop>(
    alloc: Global,
    number: u8,
    reader: &mut DerReader<'_>,
) -> Result<Option<T>, DerError>
    requires { number < 16 }
    ensures { Reads (option_map T.stands_for) (optional (explicit number T.form)).reading reader.old result reader.new }
{
    if !explicit_stands_next(number, reader) {
        return Ok(None);
    }
    Ok(Some(read_explicit(alloc, number, reader)?))
}

/// Adds the encoding of the value in an explicit tag with this number at the end.
///
/// `BadValue` where the value has no encoding; a refusal changes nothing.
#[tactic(auto, unfolding(crate::specs::Fields::explicit))]
pub fn write_explicit<T: DerWrite>(
    alloc: Global,
    number: u8,
    value: &T,
    out: &mut Vec<u8>,
) -> Result<(), DerError>
    requires { number < 16 }
    ensures { Writes (λ s. (explicit number T.form).Encodes s (T.stands_for value.now)) ((explicit number T.form).Refused (T.stands_for value.now)) result out.old.items out.new.items }
{
    let mut contents = Vec::new(alloc);
    value.write_der(alloc, &mut contents)?;
    write_value(out, Tag(160 + number), &contents)
}

/// The same, or nothing where there is no value.
#[tactic(auto, unfolding(crate::specs::Fields::explicit))]
pub fn write_optional_explicit<T: DerWrite>(
    alloc: Global,
    number: u8,
    value: &Option<T>,
    out: &mut Vec<u8>,
) -> Result<(), DerError>
    requires { number < 16 }
    ensures { Writes (λ s. SpellsOptional (explicit number T.form).Encodes s (option_map T.stands_for value.now)) (OptionalRefused (explicit number T.form).Refused (option_map T.stands_for value.now)) result out.old.items out.new.items }
{
    match value {
        Some(value) => write_explicit(alloc, number, value, out),
        None => Ok(()),
    }
}
