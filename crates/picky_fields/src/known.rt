// Known identifiers.
ghost use Rattle.std.specs.Prelude.{◌≡◌, ◌<◌, [], List, ℕ};
ghost use Rattle.picky_der.specs.Form.{Writes};
ghost use Rattle.picky_fields.specs.Fields.{identifier, explicit, one, ◌and◌};
ghost use Rattle.picky_fields.specs.Records.{WritesFields};
ghost use Rattle.picky_fields.specs.laws.Identifiers.{Known};

use crate::explicit::write_explicit;
use picky_asn1_tag::Tag;
use picky_der::{DerError, DerWrite, write_value};
use std::alloc::Global;

/// Adds the OBJECT IDENTIFIER of which these are the contents octets at the end (X.690 section 8.19). The one refusal is
/// `OutOfMemory`, and it changes nothing.
#[tactic(auto, using(crate::specs::laws::Identifiers::known_writes))]
pub fn write_known(octets: &[u8], out: &mut Vec<u8>) -> Result<(), DerError>
    ensures { (arcs : List ℕ) → Known arcs octets.now → Writes (λ s. identifier.Encodes s arcs) ⊥ result out.old.items out.new.items }
{
    write_value(out, Tag::OID, octets)
}

/// Writes a known identifier and behind it a value in an explicit tag with this number into an empty vector, which is left
/// anyhow after a refusal.
///
/// `BadValue` where the value has no encoding.
pub fn write_known_explicit<T: DerWrite>(
    alloc: Global,
    octets: &[u8],
    number: u8,
    value: &T,
    out: &mut Vec<u8>,
) -> Result<(), DerError>
    requires empty { out.old.items ≡ [] }
    requires small { number < 16 }
    ensures { (arcs : List ℕ) → Known arcs octets.now → WritesFields (one identifier and one (explicit number T.form)) (arcs, T.stands_for value.now) result out.new.items }
{
    write_known(octets, out)?;
    write_explicit(alloc, number, value, out)
}
