// Counts.
#![tactic(auto, unfolding(crate::specs::Counts::count))]

ghost use Rattle.std.specs.Prelude.{◌≡◌};
ghost use Rattle.picky_der.specs.Reading.{Reads};
ghost use Rattle.picky_fields.specs.Fields.{optional};
ghost use Rattle.picky_x509_algorithms.specs.Counts.{count};

use picky_der::{DerError, DerRead, DerReader};
use picky_fields::read_optional;
use std::alloc::Global;

/// The INTEGER of 32 bits without a sign that stands next; the reader then stands just past it.
///
/// A refusal is the fault at the first bad place, or `OutOfMemory`, and leaves the reader where it stood.
pub fn read_count(alloc: Global, reader: &mut DerReader<'_>) -> Result<u32, DerError>
    ensures { Reads (λ n. n) count.reading reader.old result reader.new }
{
    u32::read_der(alloc, reader)
}

/// The same where an INTEGER stands next; else nothing, and the reader stays.
pub fn read_optional_count(
    alloc: Global,
    reader: &mut DerReader<'_>,
) -> Result<Option<u32>, DerError>
    ensures { Reads (λ o. o) (optional count).reading reader.old result reader.new }
{
    read_optional(alloc, reader)
}
