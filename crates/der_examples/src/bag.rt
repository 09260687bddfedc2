// Bags in bags.
ghost use Rattle.picky_levels.specs.Nests.{behind_at, ReadsOn};
ghost use Rattle.der_examples.specs.Bag.{bag, bag_lawful};

use crate::{BAGS, identifiers};
use picky_asn1_oid::ObjectIdentifier;
use picky_der::{Asn1RawDer, DerError, DerReader, DerWrite};
use picky_fields::{read_explicit, read_last, write_explicit, write_optional};
use picky_levels::DerNested;
use sqlite_items::Items;
use std::alloc::Global;

/// A bag: what it holds and, behind it, any one value.
#[cycle(bag)]
#[derive(Debug, Drop)]
pub struct Bag {
    /// What it holds.
    pub kind: BagKind,
    /// What stands behind it.
    pub note: Option<Asn1RawDer>,
}

/// What a bag holds.
#[cycle(bag)]
#[derive(Debug, Drop)]
pub enum BagKind {
    /// Bags, 1.2.840.113549.1.12.10.1.6.
    Bags(Items<Bag>),
    /// Anything else.
    Unknown {
        /// Its identifier, not that of bags.
        type_id: ObjectIdentifier,
        /// The value.
        value: Asn1RawDer,
    },
}

impl DerNested for Bag {
    ghost nest = { bag };

    ghost lawful = { bag_lawful };

    fn is_items(kind: &ObjectIdentifier) -> bool {
        kind.contents() == BAGS.as_slice()
    }

    fn read_other(
        alloc: Global,
        type_id: ObjectIdentifier,
        reader: &mut DerReader<'_>,
    ) -> Result<Bag, DerError> {
        let value = read_explicit(alloc, 0, reader)?;
        let note = read_last(alloc, reader)?;
        let kind = BagKind::Unknown { type_id, value };
        Ok(Bag { kind, note })
    }

    fn read_behind(
        alloc: Global,
        bags: Items<Bag>,
        reader: &mut DerReader<'_>,
    ) -> Result<Bag, DerError>
        ensures { ReadsOn (behind_at bag bags) reader.old result reader.new }
    {
        let note = read_last(alloc, reader)?;
        let kind = BagKind::Bags(bags);
        Ok(Bag { kind, note })
    }

    fn items(&self) -> Option<&[Bag]> {
        match &self.kind {
            BagKind::Bags(bags) => Some(bags.as_slice()),
            BagKind::Unknown { .. } => None,
        }
    }

    fn write_front(&self, alloc: Global, out: &mut Vec<u8>) -> Result<(), DerError> {
        match &self.kind {
            BagKind::Bags(_) => identifiers::write_bags(out),
            BagKind::Unknown { type_id, value } => {
                type_id.write_der(alloc, out)?;
                write_explicit(alloc, 0, value, out)
            }
        }
    }

    fn write_behind(&self, alloc: Global, out: &mut Vec<u8>) -> Result<(), DerError> {
        write_optional(alloc, &self.note, out)
    }
}
