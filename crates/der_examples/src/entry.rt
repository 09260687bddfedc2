// A type told by an identifier.
#![tactic(auto, unfolding(crate::specs::Entry::entry_fields))]

ghost use Rattle.der_examples.specs.Entry.{EntryValue, entry_value, entry_fields, entry_lawful};
ghost use Rattle.picky_fields.specs.Forms.{fields_by, sequence};

use crate::identifiers::{write_count, write_name};
use crate::{COUNT, NAME};
use picky_asn1_oid::ObjectIdentifier;
use picky_asn1_tag::{Asn1Value, Tag};
use picky_der::{Asn1RawDer, DerError, DerForm, DerRead, DerReader, DerWrite};
use picky_fields::{DerRecord, read_explicit, read_record, write_explicit, write_record};
use std::alloc::Global;

/// What an entry says, told by an identifier.
#[derive(Debug, Drop)]
pub enum Entry {
    /// A name, 2.5.4.3.
    Name(String),
    /// How many there are, 1.2.840.113549.1.9.2.
    Count(u32),
    /// Anything else.
    Unknown {
        /// Its identifier, none of the above.
        kind: ObjectIdentifier,
        /// What it says.
        value: Asn1RawDer,
    },
}

impl Asn1Value for Entry {
    ghost Meaning = { EntryValue };

    ghost meaning = { entry_value };
}

impl DerForm for Entry {
    ghost Abstract = { EntryValue };

    ghost stands_for = { entry_value };

    ghost form = { sequence entry_fields };

    ghost same_value = { λ _ _ e. e };
}

impl DerRecord for Entry {
    ghost fields = { fields_by entry_value entry_fields };

    fn read_fields(alloc: Global, reader: &mut DerReader<'_>) -> Result<Self, DerError> {
        let kind = ObjectIdentifier::read_der(alloc, reader)?;
        if kind.contents() == NAME.as_slice() {
            return Ok(Entry::Name(read_explicit(alloc, 0, reader)?));
        }
        if kind.contents() == COUNT.as_slice() {
            return Ok(Entry::Count(read_explicit(alloc, 0, reader)?));
        }
        let value = read_explicit(alloc, 0, reader)?;
        Ok(Entry::Unknown { kind, value })
    }

    fn write_fields(&self, alloc: Global, out: &mut Vec<u8>) -> Result<(), DerError> {
        match self {
            Entry::Name(text) => write_name(alloc, text, out),
            Entry::Count(count) => write_count(alloc, count, out),
            Entry::Unknown { kind, value } => {
                kind.write_der(alloc, out)?;
                write_explicit(alloc, 0, value, out)
            }
        }
    }
}

impl DerRead for Entry {
    fn begins_with(tag: Tag) -> bool {
        tag == Tag::SEQUENCE
    }

    fn read_der(alloc: Global, reader: &mut DerReader<'_>) -> Result<Self, DerError> {
        read_record(alloc, reader)
    }

    ghost readable = { entry_lawful.readable };
}

impl DerWrite for Entry {
    fn write_der(&self, alloc: Global, out: &mut Vec<u8>) -> Result<(), DerError> {
        write_record(alloc, self, out)
    }

    ghost writable = { entry_lawful.writable };
}
