// Encrypted parts.
ghost use Rattle.std.specs.Prelude.{◌≡◌, ◌==◌, IfOk};
ghost use Rattle.picky_der.specs.Reading.{Reads};
ghost use Rattle.picky_der.specs.Form.{Writes};
ghost use Rattle.picky_fields.specs.Fields.{Encloses, identifier, natural, only, optional, stands_next, SpellsOptional, run_at, seen_at};
ghost use Rattle.picky_fields.specs.Records.{fields_by};
ghost use Rattle.picky_x509_algorithms.specs.declared.known_identifier.KnownIdentifier.TheVariants as known;
ghost use Rattle.picky_x509_algorithms.specs.Identifiers.{arcs, is_known};
ghost use Rattle.picky_x509_store.specs.declared.encrypted.EncryptedSafeContents.{EncryptedSafeContents as Contents};
ghost use Rattle.picky_x509_store.specs.Encrypted.{only_data, only_zero, tagged_octets, info, info_view, encrypted_fields, encrypted, encrypted_lawful};

use picky_asn1_oid::ObjectIdentifier;
use picky_asn1_tag::{Asn1Value, CopyIn, Tag};
use picky_contract::Bytes;
use picky_der::{DerError, DerForm, DerRead, DerReader, DerWrite, write_value};
use picky_fields::{DerRecord, read_record, write_record};
use picky_x509_algorithms::{KnownIdentifier, Pkcs12EncryptionAlgorithm};
use std::alloc::{AllocError, Global};

/// An encrypted part of a store (RFC 5652 section 8): its version is 0, and what is encrypted is data.
#[derive(Debug, Drop)]
pub struct EncryptedSafeContents {
    /// How it is encrypted.
    pub algorithm: Pkcs12EncryptionAlgorithm,
    /// The encrypted bytes, where they stand in the store.
    pub encrypted_content: Option<Bytes>,
}

fn copy_content(alloc: Global, content: &Option<Bytes>) -> Result<Option<Bytes>, AllocError>
    ensures { IfOk result (λ copy. copy ≡ content.now) }
{
    match content {
        Some(content) => Ok(Some(content.clone(alloc)?)),
        None => Ok(None),
    }
}

impl EncryptedSafeContents {
    /// A copy, in memory of its own.
    pub fn clone(&self, alloc: Global) -> Result<EncryptedSafeContents, AllocError>
        ensures { IfOk result (λ copy. copy ≡ self.now) }
    {
        let encrypted_content = copy_content(alloc, &self.encrypted_content)?;
        Ok(EncryptedSafeContents {
            algorithm: self.algorithm.clone(alloc)?,
            encrypted_content,
        })
    }
}

impl Asn1Value for EncryptedSafeContents {
    ghost Meaning = { Contents };

    ghost meaning = { λ c. c };
}

impl CopyIn for EncryptedSafeContents {
    fn copy_in(&self, alloc: Global) -> Result<EncryptedSafeContents, AllocError> {
        self.clone(alloc)
    }
}

/// In form are those whose algorithm is.
impl DerForm for EncryptedSafeContents {
    ghost Abstract = { Contents };

    ghost stands_for = { λ c. c };

    ghost form = { encrypted };

    ghost same_value = { λ _ _ e. e };
}

#[tactic(auto, unfolding(picky_fields::specs::Fields::only_at))]
fn read_version(alloc: Global, reader: &mut DerReader<'_>) -> Result<(), DerError>
    ensures { Reads (λ x. x) only_zero.reading reader.old result reader.new }
{
    let mut ahead = reader.fork();
    if u8::read_der(alloc, &mut ahead)? != 0 {
        return Err(DerError::BadValue);
    }
    *reader = ahead;
    Ok(())
}

#[tactic(auto, unfolding(picky_fields::specs::Fields::only_at))]
fn read_data(alloc: Global, reader: &mut DerReader<'_>) -> Result<(), DerError>
    ensures { Reads (λ x. x) only_data.reading reader.old result reader.new }
{
    let mut ahead = reader.fork();
    if !KnownIdentifier::Data.is(&ObjectIdentifier::read_der(alloc, &mut ahead)?) {
        return Err(DerError::BadValue);
    }
    *reader = ahead;
    Ok(())
}

#[tactic(auto, unfolding(picky_der::specs::Reading::tag_at))]
fn tagged_stands_next(reader: &DerReader<'_>) -> bool
    ensures { result ≡ stands_next (λ b. b == 128) reader.now.left }
{
    match reader.peek_tag() {
        Ok(peeker) => peeker.next_tag.0 == 128,
        Err(_) => false,
    }
}

// An OCTET STRING in an implicit tag 0.
#[tactic(auto, unfolding(crate::specs::Encrypted::tagged_octets, picky_der::specs::Primitive::primitive_at))]
fn read_tagged(alloc: Global, reader: &mut DerReader<'_>) -> Result<Bytes, DerError>
    ensures { Reads (λ o. o) tagged_octets.reading reader.old result reader.new }
{
    let mut ahead = reader.fork();
    let octets = Vec::from_slice(alloc, ahead.read_value(Tag(128))?)?;
    *reader = ahead;
    Ok(Bytes::new(octets))
}

// The same where that tag stands next.
#[tactic(auto, unfolding(crate::specs::Encrypted::tagged_octets, picky_fields::specs::Fields::optional_at))]
fn read_content(alloc: Global, reader: &mut DerReader<'_>) -> Result<Option<Bytes>, DerError>
    ensures { Reads (λ o. o) (optional tagged_octets).reading reader.old result reader.new }
{
    if !tagged_stands_next(reader) {
        return Ok(None);
    }
    Ok(Some(read_tagged(alloc, reader)?))
}

#[tactic(auto, unfolding(crate::specs::Encrypted::info, picky_fields::specs::Fields::enclosed_at, picky_fields::specs::Fields::run_at))]
fn read_info(alloc: Global, reader: &mut DerReader<'_>) -> Result<EncryptedSafeContents, DerError>
    ensures { Reads info_view info.reading reader.old result reader.new }
{
    let mut ahead = reader.fork();
    let mut fields = ahead.nested(Tag::SEQUENCE)?;
    read_data(alloc, &mut fields)?;
    let algorithm = Pkcs12EncryptionAlgorithm::read_der(alloc, &mut fields)?;
    let encrypted_content = match read_content(alloc, &mut fields) {
        Ok(encrypted_content) => encrypted_content,
        Err(fault) => {
            drop(algorithm);
            return Err(fault);
        }
    };
    match fields.end() {
        Ok(()) => {
            *reader = ahead;
            Ok(EncryptedSafeContents {
                algorithm,
                encrypted_content,
            })
        }
        Err(fault) => {
            drop(algorithm);
            Err(fault)
        }
    }
}

#[tactic(auto, unfolding(crate::specs::Encrypted::tagged_octets))]
fn write_tagged(content: &Option<Bytes>, out: &mut Vec<u8>) -> Result<(), DerError>
    ensures { Writes (λ s. SpellsOptional tagged_octets.Encodes s content.now) ⊥ result out.old.items out.new.items }
{
    match content {
        Some(octets) => write_value(out, Tag(128), octets.as_slice()),
        None => Ok(()),
    }
}

#[tactic(auto, unfolding(crate::specs::Encrypted::info))]
fn write_info(
    alloc: Global,
    contents: &EncryptedSafeContents,
    out: &mut Vec<u8>,
) -> Result<(), DerError>
    ensures { Writes (λ s. info.Encodes s (info_view contents.now)) (info.Refused (info_view contents.now)) result out.old.items out.new.items }
{
    let mut fields = Vec::new(alloc);
    KnownIdentifier::Data.write(&mut fields)?;
    contents.algorithm.write_der(alloc, &mut fields)?;
    write_tagged(&contents.encrypted_content, &mut fields)?;
    write_value(out, Tag::SEQUENCE, &fields)
}

impl DerRecord for EncryptedSafeContents {
    ghost fields = { fields_by (λ x. x) encrypted_fields };

    #[tactic(auto, unfolding(crate::specs::Encrypted::encrypted_fields))]
    fn read_fields(
        alloc: Global,
        reader: &mut DerReader<'_>,
    ) -> Result<EncryptedSafeContents, DerError> {
        read_version(alloc, reader)?;
        read_info(alloc, reader)
    }

    #[tactic(auto, unfolding(crate::specs::Encrypted::encrypted_fields))]
    fn write_fields(&self, alloc: Global, out: &mut Vec<u8>) -> Result<(), DerError> {
        0u8.write_der(alloc, out)?;
        write_info(alloc, self, out)
    }
}

impl DerRead for EncryptedSafeContents {
    #[tactic(auto, unfolding(crate::specs::Encrypted::encrypted))]
    fn begins_with(tag: Tag) -> bool {
        tag == Tag::SEQUENCE
    }

    #[tactic(auto, unfolding(crate::specs::Encrypted::encrypted))]
    fn read_der(
        alloc: Global,
        reader: &mut DerReader<'_>,
    ) -> Result<EncryptedSafeContents, DerError> {
        read_record(alloc, reader)
    }

    ghost readable = { encrypted_lawful.readable };
}

impl DerWrite for EncryptedSafeContents {
    #[tactic(auto, unfolding(crate::specs::Encrypted::encrypted))]
    fn write_der(&self, alloc: Global, out: &mut Vec<u8>) -> Result<(), DerError> {
        write_record(alloc, self, out)
    }

    ghost writable = { encrypted_lawful.writable };
}
