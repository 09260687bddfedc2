// OCTET STRINGs.
ghost use Rattle.std.specs.Prelude.{◌≡◌, List, ℕ};
ghost use Rattle.picky_der.specs.Primitive.{primitive_form, primitive_at};
ghost use Rattle.picky_der.specs.Strings.{octets_of, octets_contents};
ghost use Rattle.picky_der.specs.laws.Strings.{octets_readable, octets_writable, octets_tagged};

use crate::fault::DerError;
use crate::form::{DerForm, DerRead, DerTagged, DerWrite};
use crate::reader::DerReader;
use crate::writing::write_value;
use picky_asn1_bits::OctetStringAsn1;
use picky_asn1_tag::Tag;
use picky_contract::Bytes;
use std::alloc::Global;

impl DerForm for OctetStringAsn1 {
    ghost Abstract = { List ℕ };

    ghost stands_for = { λ x. x.0 };

    ghost form = { primitive_form (record { 0 = 4 }) octets_contents };

    ghost same_value = { λ _ _ e. e };
}

impl DerRead for OctetStringAsn1 {
    fn begins_with(tag: Tag) -> bool {
        tag == Tag::OCTET_STRING
    }

    #[tactic(auto, unfolding(crate::specs::Primitive::primitive_at))]
    fn read_der(alloc: Global, reader: &mut DerReader<'_>) -> Result<OctetStringAsn1, DerError> {
        let mut ahead = reader.fork();
        let octets = ahead.read_value(Tag::OCTET_STRING)?;
        let value = OctetStringAsn1(Bytes::new(Vec::from_slice(alloc, octets)?));
        *reader = ahead;
        Ok(value)
    }

    ghost readable = { octets_readable };
}

impl DerWrite for OctetStringAsn1 {
    fn write_der(&self, _alloc: Global, out: &mut Vec<u8>) -> Result<(), DerError> {
        write_value(out, Tag::OCTET_STRING, self.0.as_slice())
    }

    ghost writable = { octets_writable };
}

impl DerTagged for OctetStringAsn1 {
    ghost tagged = { octets_tagged };
}
