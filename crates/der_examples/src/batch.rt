// A record of four fields.
#![tactic(auto, unfolding(crate::specs::Batch::batch_fields))]

ghost use Rattle.std.specs.Prelude.{string_bytes};
ghost use Rattle.std.specs.Option.{option_map};
ghost use Rattle.picky_fields.specs.Forms.{fields_by, sequence};
ghost use Rattle.der_examples.specs.Batch.{BatchValue, batch_fields, batch_lawful};

use picky_asn1_bits::OctetStringAsn1;
use picky_asn1_oid::ObjectIdentifier;
use picky_asn1_tag::{Asn1Value, Tag};
use picky_der::{DerError, DerForm, DerRead, DerReader, DerWrite};
use picky_fields::{
    DerRecord, read_default, read_optional, read_optional_explicit, read_record, write_default,
    write_optional, write_optional_explicit, write_record,
};
use std::alloc::Global;

/// A batch of some size, with an owner and a mark where it has them.
#[derive(Debug, Drop)]
pub struct Batch {
    /// Its name.
    pub name: String,
    /// How many it holds, 1 where nothing is said.
    pub size: u32,
    /// Who owns it.
    pub owner: Option<ObjectIdentifier>,
    /// Its mark, in an explicit tag 0.
    pub mark: Option<OctetStringAsn1>,
}

impl Asn1Value for Batch {
    ghost Meaning = { BatchValue };

    ghost meaning = { λ b. (((string_bytes b.name, b.size), option_map (λ o. o) b.owner), option_map (λ m. m.0) b.mark) };
}

/// In form are those whose owner has the arcs of an identifier. A size of 1 is read where it is spelled, and not written.
impl DerForm for Batch {
    ghost Abstract = { BatchValue };

    ghost stands_for = { ⟦<Batch as Asn1Value>⟧.meaning };

    ghost form = { sequence batch_fields };

    ghost same_value = { λ _ _ e. e };
}

impl DerRecord for Batch {
    ghost fields = { fields_by ⟦<Batch as DerForm>⟧.stands_for batch_fields };

    fn read_fields(alloc: Global, reader: &mut DerReader<'_>) -> Result<Self, DerError> {
        let name = String::read_der(alloc, reader)?;
        let size = read_default(alloc, 1, reader)?;
        let owner = read_optional(alloc, reader)?;
        let mark = read_optional_explicit(alloc, 0, reader)?;
        Ok(Batch {
            name,
            size,
            owner,
            mark,
        })
    }

    fn write_fields(&self, alloc: Global, out: &mut Vec<u8>) -> Result<(), DerError> {
        self.name.write_der(alloc, out)?;
        write_default(alloc, &self.size, self.size == 1, out)?;
        write_optional(alloc, &self.owner, out)?;
        write_optional_explicit(alloc, 0, &self.mark, out)
    }
}

impl DerRead for Batch {
    fn begins_with(tag: Tag) -> bool {
        tag == Tag::SEQUENCE
    }

    fn read_der(alloc: Global, reader: &mut DerReader<'_>) -> Result<Self, DerError> {
        read_record(alloc, reader)
    }

    ghost readable = { batch_lawful.readable };
}

impl DerWrite for Batch {
    fn write_der(&self, alloc: Global, out: &mut Vec<u8>) -> Result<(), DerError> {
        write_record(alloc, self, out)
    }

    ghost writable = { batch_lawful.writable };
}
