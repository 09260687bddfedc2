// Known identifiers, as they are written.
ghost use Rattle.std.specs.Prelude.{◌≡◌, []};
ghost use Rattle.picky_der.specs.Form.{Writes};
ghost use Rattle.picky_fields.specs.Fields.{identifier, explicit, one, ◌and◌};
ghost use Rattle.picky_fields.specs.Records.{WritesFields};
ghost use Rattle.der_examples.specs.Identifiers.{name, count, bags};

use crate::{BAGS, COUNT, NAME};
use picky_asn1_tag::Tag;
use picky_der::{DerError, DerWrite, write_value};
use picky_fields::write_known_explicit;
use std::alloc::Global;

// The identifier, and behind it the value in an explicit tag 0.
#[tactic(auto, using(crate::specs::Identifiers::name_known))]
pub fn write_name<T: DerWrite>(alloc: Global, value: &T, out: &mut Vec<u8>) -> Result<(), DerError>
    requires { out.old.items ≡ [] }
    ensures { WritesFields (one identifier and one (explicit 0 T.form)) (name, T.stands_for value.now) result out.new.items }
{
    write_known_explicit(alloc, &NAME, 0, value, out)
}

#[tactic(auto, using(crate::specs::Identifiers::count_known))]
pub fn write_count<T: DerWrite>(alloc: Global, value: &T, out: &mut Vec<u8>) -> Result<(), DerError>
    requires { out.old.items ≡ [] }
    ensures { WritesFields (one identifier and one (explicit 0 T.form)) (count, T.stands_for value.now) result out.new.items }
{
    write_known_explicit(alloc, &COUNT, 0, value, out)
}

// The identifier alone.
#[tactic(auto, using(crate::specs::Identifiers::bags_writes))]
pub fn write_bags(out: &mut Vec<u8>) -> Result<(), DerError>
    ensures { Writes (λ s. identifier.Encodes s bags) ⊥ result out.old.items out.new.items }
{
    write_value(out, Tag::OID, &BAGS)
}
