// NULL parameters, which may be absent.
ghost use Rattle.std.specs.Prelude.{◌≡◌};
ghost use Rattle.picky_der.specs.Reading.{Reads};
ghost use Rattle.picky_fields.specs.Fields.{null_or_none};

use crate::optional::more_stands_next;
use picky_der::{DerError, DerRead, DerReader};
use std::alloc::Global;

/// Reads NULL, where a byte is left.
#[tactic(auto, unfolding(crate::specs::Fields::default_at))]
pub fn read_null_or_none(alloc: Global, reader: &mut DerReader<'_>) -> Result<(), DerError>
    ensures { Reads (λ x. x) null_or_none.reading reader.old result reader.new }
{
    if !more_stands_next(reader) {
        return Ok(());
    }
    <()>::read_der(alloc, reader)
}
