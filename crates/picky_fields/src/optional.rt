// Fields that may be left out.
ghost use Rattle.std.specs.Prelude.{◌≡◌, IfOk};
ghost use Rattle.std.specs.Option.{option_map};
ghost use Rattle.picky_der.specs.Reading.{Reads};
ghost use Rattle.picky_der.specs.Form.{Writes};
ghost use Rattle.picky_fields.specs.Fields.{stands_next, any_tag, SpellsOptional, OptionalRefused, optional_at};

use picky_asn1_tag::CopyIn;
use picky_der::{DerError, DerRead, DerReader, DerWrite};
use std::alloc::{AllocError, Global};

#[tactic(auto, unfolding(picky_der::specs::Reading::tag_at))]
pub fn stands_next<T: DerRead>(reader: &DerReader<'_>) -> bool
    ensures { result ≡ stands_next T.form.begins reader.now.left }
{
    match reader.peek_tag() {
        Ok(peeker) => T::begins_with(peeker.next_tag),
        Err(_) => false,
    }
}

#[tactic(auto, unfolding(picky_der::specs::Reading::tag_at))]
pub fn more_stands_next(reader: &DerReader<'_>) -> bool
    ensures { result ≡ stands_next any_tag reader.now.left }
{
    match reader.peek_tag() {
        Ok(_) => true,
        Err(_) => false,
    }
}

/// The value that stands next, where T begins with the next tag; else nothing, and the reader stays.
///
/// The faults are those of T, and leave the reader where it stood.
#[tactic(auto, unfolding(crate::specs::Fields::optional_at))]
pub fn read_optional<T: DerRead + Drop>(
    alloc: Global,
    reader: &mut DerReader<'_>,
) -> Result<Option<T>, DerError>
    ensures { Reads (option_map T.stands_for) (optional_at T.form.begins T.form.reading) reader.old result reader.new }
{
    if !stands_next::<T>(reader) {
        return Ok(None);
    }
    Ok(Some(T::read_der(alloc, reader)?))
}

/// The value that stands next, where a byte is left; else nothing.
///
/// The faults are those of T, and leave the reader where it stood.
#[tactic(auto, unfolding(crate::specs::Fields::optional_at))]
pub fn read_last<T: DerRead + Drop>(
    alloc: Global,
    reader: &mut DerReader<'_>,
) -> Result<Option<T>, DerError>
    ensures { Reads (option_map T.stands_for) (optional_at any_tag T.form.reading) reader.old result reader.new }
{
    if !more_stands_next(reader) {
        return Ok(None);
    }
    Ok(Some(T::read_der(alloc, reader)?))
}

/// Adds the encoding of the value at the end, or nothing where there is none.
///
/// `BadValue` where the value has no encoding; a refusal changes nothing.
pub fn write_optional<T: DerWrite>(
    alloc: Global,
    value: &Option<T>,
    out: &mut Vec<u8>,
) -> Result<(), DerError>
    ensures { Writes (λ s. SpellsOptional T.form.Encodes s (option_map T.stands_for value.now)) (OptionalRefused T.form.Refused (option_map T.stands_for value.now)) result out.old.items out.new.items }
{
    match value {
        Some(value) => value.write_der(alloc, out),
        None => Ok(()),
    }
}

/// A copy of the value, where there is one, in memory of its own: it means the same.
pub fn copy_optional<T: CopyIn>(alloc: Global, value: &Option<T>) -> Result<Option<T>, AllocError>
    ensures { IfOk result (λ copy. option_map T.meaning copy ≡ option_map T.meaning value.now) }
{
    match value {
        Some(value) => Ok(Some(value.copy_in(alloc)?)),
        None => Ok(None),
    }
}
