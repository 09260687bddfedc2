// OBJECT IDENTIFIERs.
ghost use Rattle.std.specs.Prelude.{◌≡◌, List, ℕ};
ghost use Rattle.picky_der.specs.Reading.{Gives};
ghost use Rattle.picky_der.specs.Primitive.{primitive_form, primitive_at};
ghost use Rattle.picky_der.specs.Identifier.{identifier_of, identifier_contents};
ghost use Rattle.picky_der.specs.laws.Identifier.{identifier_readable, identifier_writable};

use crate::fault::DerError;
use crate::form::{DerForm, DerRead, DerWrite};
use crate::reader::DerReader;
use crate::writing::write_value;
use picky_asn1_oid::{ObjectIdentifier, OidError};
use picky_asn1_tag::Tag;
use std::alloc::Global;

fn identifier_from(alloc: Global, octets: &[u8]) -> Result<ObjectIdentifier, DerError>
    ensures { Gives (λ o. o) result (identifier_of octets.now) }
{
    match ObjectIdentifier::from_contents(alloc, octets) {
        Ok(identifier) => Ok(identifier),
        Err(OidError::BadText) => Err(DerError::BadValue),
        Err(OidError::BadContents) => Err(DerError::BadValue),
        Err(OidError::OutOfMemory) => Err(DerError::OutOfMemory),
    }
}

/// In form are the arcs of identifiers: of each, one list of contents octets (X.690 section 8.19).
impl DerForm for ObjectIdentifier {
    ghost Abstract = { List ℕ };

    ghost stands_for = { λ o. o };

    ghost form = { primitive_form (record { 0 = 6 }) identifier_contents };

    ghost same_value = { λ _ _ e. e };
}

impl DerRead for ObjectIdentifier {
    fn begins_with(tag: Tag) -> bool {
        tag == Tag::OID
    }

    #[tactic(auto, unfolding(crate::specs::Primitive::primitive_at))]
    fn read_der(alloc: Global, reader: &mut DerReader<'_>) -> Result<ObjectIdentifier, DerError> {
        let mut ahead = reader.fork();
        let value = identifier_from(alloc, ahead.read_value(Tag::OID)?)?;
        *reader = ahead;
        Ok(value)
    }

    ghost readable = { identifier_readable };
}

impl DerWrite for ObjectIdentifier {
    fn write_der(&self, _alloc: Global, out: &mut Vec<u8>) -> Result<(), DerError> {
        write_value(out, Tag::OID, self.contents())
    }

    ghost writable = { identifier_writable };
}
