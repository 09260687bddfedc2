// Fields with a default.
ghost use Rattle.std.specs.Prelude.{◌≡◌, []};
ghost use Rattle.picky_der.specs.Reading.{Reads};
ghost use Rattle.picky_der.specs.Form.{Writes};
ghost use Rattle.picky_fields.specs.Fields.{Unless, default_at};

use crate::optional::stands_next;
use picky_der::{DerError, DerRead, DerReader, DerWrite};
use std::alloc::Global;

/// The value that stands next, where T begins with the next tag; else the default, and the reader stays.
///
/// The faults are those of T, and leave the reader where it stood.
#[tactic(auto, unfolding(crate::specs::Fields::default_at))]
pub fn read_default<T: DerRead + Drop>(
    alloc: Global,
    default: T,
    reader: &mut DerReader<'_>,
) -> Result<T, DerError>
    ensures { Reads T.stands_for (default_at (T.stands_for default) T.form.begins T.form.reading) reader.old result reader.new }
{
    if !stands_next::<T>(reader) {
        return Ok(default);
    }
    T::read_der(alloc, reader)
}

/// Adds the encoding of the value at the end, or nothing where it is the default.
///
/// `BadValue` where the value has no encoding; a refusal changes nothing.
pub fn write_default<T: DerWrite>(
    alloc: Global,
    value: &T,
    is_default: bool,
    out: &mut Vec<u8>,
) -> Result<(), DerError>
    ensures { Writes (λ s. Unless is_default (s ≡ []) (T.form.Encodes s (T.stands_for value.now))) (Unless is_default ⊥ (T.form.Refused (T.stands_for value.now))) result out.old.items out.new.items }
{
    if is_default {
        return Ok(());
    }
    value.write_der(alloc, out)
}
