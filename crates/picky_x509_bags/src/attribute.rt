// Attributes of bags.
ghost use Rattle.std.specs.Prelude.{◌≡◌, IfOk};
ghost use Rattle.std.specs.Option.{option_map};
ghost use Rattle.picky_der.specs.Reading.{Reads};
ghost use Rattle.picky_der.specs.Form.{Writes};
ghost use Rattle.picky_fields.specs.Fields.{SpellsOptional, OptionalRefused, optional};
ghost use Rattle.picky_fields.specs.Records.{fields_by};
ghost use Rattle.picky_x509_bags.specs.declared.attribute.Pkcs12Attribute.{Pkcs12Attribute as Attribute};
ghost use Rattle.picky_x509_bags.specs.Attribute.{attribute_of, attribute_fields, attribute, attributes};
ghost use Rattle.picky_x509_bags.specs.laws.Attribute.{attribute_lawful};

use crate::values::{copy_values, name_in, octets_in, read_values, write_single, write_values};
use picky_asn1_oid::ObjectIdentifier;
use picky_asn1_tag::{Asn1Value, CopyIn, Tag};
use picky_asn1_text::BmpString;
use picky_asn1_wrapper::Asn1SetOf;
use picky_contract::Bytes;
use picky_der::{Asn1RawDer, DerError, DerForm, DerRead, DerReader, DerWrite};
use picky_fields::{DerRecord, read_optional, read_record, write_optional, write_record};
use picky_x509_algorithms::KnownIdentifier;
use std::alloc::{AllocError, Global};

/// What is said of a bag (RFC 7292 section 4.2).
#[derive(Debug, Drop)]
pub enum Pkcs12Attribute {
    /// Its name for people, friendlyName (RFC 2985 section 5.5.1).
    FriendlyName(BmpString),
    /// What ties a key to its certificate, localKeyId (RFC 2985 section 5.5.2).
    LocalKeyId(Bytes),
    /// Any other attribute, and a name or an id whose set isn't one value of its type.
    Unknown {
        /// Its identifier.
        oid: ObjectIdentifier,
        /// The values of its set, as they stand.
        value: Asn1SetOf<Asn1RawDer>,
    },
}

impl Pkcs12Attribute {
    /// A copy, in memory of its own.
    pub fn clone(&self, alloc: Global) -> Result<Pkcs12Attribute, AllocError>
        ensures { IfOk result (λ copy. copy ≡ self.now) }
    {
        match self {
            Pkcs12Attribute::FriendlyName(name) => {
                Ok(Pkcs12Attribute::FriendlyName(name.clone(alloc)?))
            }
            Pkcs12Attribute::LocalKeyId(id) => Ok(Pkcs12Attribute::LocalKeyId(id.clone(alloc)?)),
            Pkcs12Attribute::Unknown { oid, value } => Ok(Pkcs12Attribute::Unknown {
                oid: oid.clone(alloc)?,
                value: copy_values(alloc, value)?,
            }),
        }
    }
}

impl Asn1Value for Pkcs12Attribute {
    ghost Meaning = { Attribute };

    ghost meaning = { λ a. a };
}

impl CopyIn for Pkcs12Attribute {
    fn copy_in(&self, alloc: Global) -> Result<Pkcs12Attribute, AllocError> {
        self.clone(alloc)
    }
}

/// In form are names, ids, and others that aren't read as a name or an id.
impl DerForm for Pkcs12Attribute {
    ghost Abstract = { Attribute };

    ghost stands_for = { λ a. a };

    ghost form = { attribute };

    ghost same_value = { λ _ _ e. e };
}

// What an identifier and the values of its set are.
#[tactic(auto, unfolding(crate::specs::Attribute::attribute_of))]
fn attribute_of(
    alloc: Global,
    oid: ObjectIdentifier,
    value: Asn1SetOf<Asn1RawDer>,
) -> Result<Pkcs12Attribute, AllocError>
    ensures { IfOk result (λ a. a ≡ attribute_of (oid, value)) }
{
    if KnownIdentifier::FriendlyName.is(&oid) {
        return match name_in(alloc, &value)? {
            Some(name) => Ok(Pkcs12Attribute::FriendlyName(name)),
            None => Ok(Pkcs12Attribute::Unknown { oid, value }),
        };
    }
    if KnownIdentifier::LocalKeyId.is(&oid) {
        return match octets_in(alloc, &value)? {
            Some(id) => Ok(Pkcs12Attribute::LocalKeyId(id)),
            None => Ok(Pkcs12Attribute::Unknown { oid, value }),
        };
    }
    Ok(Pkcs12Attribute::Unknown { oid, value })
}

impl DerRecord for Pkcs12Attribute {
    ghost fields = { fields_by (λ a. a) attribute_fields };

    #[tactic(auto, unfolding(crate::specs::Attribute::attribute_fields))]
    fn read_fields(alloc: Global, reader: &mut DerReader<'_>) -> Result<Pkcs12Attribute, DerError> {
        let oid = ObjectIdentifier::read_der(alloc, reader)?;
        let value = read_values(alloc, reader)?;
        Ok(attribute_of(alloc, oid, value)?)
    }

    #[tactic(auto, unfolding(crate::specs::Attribute::attribute_fields))]
    fn write_fields(&self, alloc: Global, out: &mut Vec<u8>) -> Result<(), DerError> {
        match self {
            Pkcs12Attribute::FriendlyName(name) => {
                KnownIdentifier::FriendlyName.write(out)?;
                write_single(alloc, Tag::BMP_STRING, name.as_bytes(), out)
            }
            Pkcs12Attribute::LocalKeyId(id) => {
                KnownIdentifier::LocalKeyId.write(out)?;
                write_single(alloc, Tag::OCTET_STRING, id.as_slice(), out)
            }
            Pkcs12Attribute::Unknown { oid, value } => {
                oid.write_der(alloc, out)?;
                write_values(alloc, value, out)
            }
        }
    }
}

impl DerRead for Pkcs12Attribute {
    #[tactic(auto, unfolding(crate::specs::Attribute::attribute))]
    fn begins_with(tag: Tag) -> bool {
        tag == Tag::SEQUENCE
    }

    #[tactic(auto, unfolding(crate::specs::Attribute::attribute))]
    fn read_der(alloc: Global, reader: &mut DerReader<'_>) -> Result<Pkcs12Attribute, DerError> {
        read_record(alloc, reader)
    }

    ghost readable = { attribute_lawful.readable };
}

impl DerWrite for Pkcs12Attribute {
    #[tactic(auto, unfolding(crate::specs::Attribute::attribute))]
    fn write_der(&self, alloc: Global, out: &mut Vec<u8>) -> Result<(), DerError> {
        write_record(alloc, self, out)
    }

    ghost writable = { attribute_lawful.writable };
}

/// The attributes of a bag, where a SET stands next; else none, and the reader stays.
///
/// A refusal is the fault at the first bad place, or `OutOfMemory`, and leaves the reader where it stood.
#[tactic(auto, using(crate::specs::laws::Lists::reads_optional), unfolding(crate::specs::Attribute::attributes))]
pub fn read_attributes(
    alloc: Global,
    reader: &mut DerReader<'_>,
) -> Result<Option<Asn1SetOf<Pkcs12Attribute>>, DerError>
    ensures { Reads (λ o. o) (optional attributes).reading reader.old result reader.new }
{
    read_optional(alloc, reader)
}

/// Adds the SET of the attributes at the end, or nothing where there are none.
///
/// `BadValue` where an attribute has no encoding; a refusal changes nothing.
#[tactic(auto, using(crate::specs::laws::Lists::writes_optional), unfolding(crate::specs::Attribute::attributes))]
pub fn write_attributes(
    alloc: Global,
    set: &Option<Asn1SetOf<Pkcs12Attribute>>,
    out: &mut Vec<u8>,
) -> Result<(), DerError>
    ensures { Writes (λ s. SpellsOptional attributes.Encodes s set.now) (OptionalRefused attributes.Refused set.now) result out.old.items out.new.items }
{
    write_optional(alloc, set, out)
}

#[tactic(auto, using(crate::specs::laws::Lists::same_items))]
fn copy_set(
    alloc: Global,
    set: &Asn1SetOf<Pkcs12Attribute>,
) -> Result<Asn1SetOf<Pkcs12Attribute>, AllocError>
    ensures { IfOk result (λ copy. copy ≡ set.now) }
{
    set.clone(alloc)
}

/// A copy of the attributes, in memory of its own.
pub fn copy_attributes(
    alloc: Global,
    set: &Option<Asn1SetOf<Pkcs12Attribute>>,
) -> Result<Option<Asn1SetOf<Pkcs12Attribute>>, AllocError>
    ensures { IfOk result (λ copy. copy ≡ set.now) }
{
    match set {
        Some(set) => Ok(Some(copy_set(alloc, set)?)),
        None => Ok(None),
    }
}
