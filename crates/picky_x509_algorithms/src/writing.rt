// Writing what an algorithm's SEQUENCE holds into an empty vector, which is left anyhow after a refusal.
ghost use Rattle.std.specs.Prelude.{◌≡◌, []};
ghost use Rattle.picky_der.specs.Raw.{raw_form};
ghost use Rattle.picky_fields.specs.Algorithm.{parts_of};
ghost use Rattle.picky_fields.specs.Fields.{identifier, null, one, optional_last, ◌and◌};
ghost use Rattle.picky_fields.specs.Records.{WritesFields};
ghost use Rattle.picky_x509_algorithms.specs.Identifiers.{arcs};

use crate::known_identifier::KnownIdentifier;
use picky_der::{DerError, DerWrite};
use picky_fields::{AlgorithmIdentifier, write_optional};
use std::alloc::Global;

// The identifier and NULL.
pub fn write_with_null(
    alloc: Global,
    known: KnownIdentifier,
    out: &mut Vec<u8>,
) -> Result<(), DerError>
    requires { out.old.items ≡ [] }
    ensures { WritesFields (one identifier and one null) (arcs known, tt) result out.new.items }
{
    known.write(out)?;
    ().write_der(alloc, out)
}

// Any algorithm.
pub fn write_algorithm(
    alloc: Global,
    algorithm: &AlgorithmIdentifier,
    out: &mut Vec<u8>,
) -> Result<(), DerError>
    requires { out.old.items ≡ [] }
    ensures { WritesFields (one identifier and optional_last raw_form) (parts_of algorithm.now) result out.new.items }
{
    algorithm.oid.write_der(alloc, out)?;
    write_optional(alloc, &algorithm.parameters, out)
}
