// Parts of a store.
ghost use Rattle.std.specs.Prelude.{◌≡◌, IfOk};
ghost use Rattle.picky_der.specs.Reading.{Reads};
ghost use Rattle.picky_der.specs.Form.{Writes};
ghost use Rattle.picky_fields.specs.Fields.{explicit};
ghost use Rattle.picky_fields.specs.Records.{fields_by};
ghost use Rattle.picky_x509_bags.specs.declared.contents.SafeContentsInfo.TheVariants.{EncryptedData, Unknown};
ghost use Rattle.picky_x509_bags.specs.Contents.{ContentsValue, contents_seen, in_octets, contents_cases, contents_fields, contents, contents_lawful, contents_same};

use picky_asn1_oid::ObjectIdentifier;
use picky_asn1_tag::{Asn1Value, CopyIn, Tag};
use picky_asn1_wrapper::OctetStringAsn1Container;
use picky_der::{Asn1RawDer, DerError, DerForm, DerRead, DerReader, DerWrite, write_value};
use picky_fields::{
    DerRecord, read_explicit, read_optional_explicit, read_record, write_explicit,
    write_optional_explicit, write_record,
};
use picky_x509_algorithms::KnownIdentifier;
use picky_x509_store::EncryptedSafeContents;
use std::alloc::{AllocError, Global};

/// A part of a store (RFC 7292 section 4.1), where `B` is the list of its bags.
#[derive(Debug, Drop)]
pub enum SafeContentsInfo<B> {
    /// Bags as they are.
    Data(B),
    /// Bags that are encrypted.
    EncryptedData(EncryptedSafeContents),
    /// A part of another type.
    Unknown {
        /// Its type, which is neither data nor encryptedData.
        content_type: ObjectIdentifier,
        /// The content, where it stands in the store.
        content: Option<Asn1RawDer>,
    },
}

fn copy_raw(alloc: Global, raw: &Option<Asn1RawDer>) -> Result<Option<Asn1RawDer>, AllocError>
    ensures { IfOk result (λ copy. copy ≡ raw.now) }
{
    match raw {
        Some(raw) => Ok(Some(raw.clone(alloc)?)),
        None => Ok(None),
    }
}

fn copy_encrypted<B>(
    alloc: Global,
    part: &EncryptedSafeContents,
) -> Result<SafeContentsInfo<B>, AllocError>
    ensures { IfOk result (λ copy. copy ≡ EncryptedData part.now) }
{
    Ok(SafeContentsInfo::EncryptedData(part.clone(alloc)?))
}

fn copy_unknown<B>(
    alloc: Global,
    content_type: &ObjectIdentifier,
    content: &Option<Asn1RawDer>,
) -> Result<SafeContentsInfo<B>, AllocError>
    ensures { IfOk result (λ copy. copy ≡ Unknown content_type.now content.now) }
{
    let content_type = content_type.clone(alloc)?;
    let content = copy_raw(alloc, content)?;
    Ok(SafeContentsInfo::Unknown {
        content_type,
        content,
    })
}

impl<B: CopyIn> SafeContentsInfo<B> {
    /// A copy, in memory of its own: its bags mean the same.
    pub fn clone(&self, alloc: Global) -> Result<SafeContentsInfo<B>, AllocError>
        ensures { IfOk result (λ copy. contents_seen B.meaning copy ≡ contents_seen B.meaning self.now) }
    {
        match self {
            SafeContentsInfo::Data(bags) => Ok(SafeContentsInfo::Data(bags.copy_in(alloc)?)),
            SafeContentsInfo::EncryptedData(part) => copy_encrypted(alloc, part),
            SafeContentsInfo::Unknown {
                content_type,
                content,
            } => copy_unknown(alloc, content_type, content),
        }
    }
}

impl<B: Asn1Value> Asn1Value for SafeContentsInfo<B> {
    ghost Meaning = { ContentsValue B.Meaning };

    ghost meaning = { contents_seen B.meaning };
}

impl<B: CopyIn> CopyIn for SafeContentsInfo<B> {
    fn copy_in(&self, alloc: Global) -> Result<SafeContentsInfo<B>, AllocError> {
        self.clone(alloc)
    }
}

/// In form are bags that are, encrypted parts that are, and others whose type isn't theirs.
impl<B: DerForm> DerForm for SafeContentsInfo<B> {
    ghost Abstract = { ContentsValue B.Abstract };

    ghost stands_for = { contents_seen B.stands_for };

    ghost form = { contents B.form };

    ghost same_value = { contents_same B.meaning B.stands_for B.same_value };
}

// The bags in an OCTET STRING in an explicit tag.
#[tactic(auto, unfolding(crate::specs::Contents::in_octets))]
fn read_bags<B: DerRead + Drop>(alloc: Global, reader: &mut DerReader<'_>) -> Result<B, DerError>
    ensures { Reads B.stands_for (explicit 0 (in_octets B.form)).reading reader.old result reader.new }
{
    let OctetStringAsn1Container(bags) = read_explicit(alloc, 0, reader)?;
    Ok(bags)
}

#[tactic(auto, unfolding(crate::specs::Contents::contents_cases))]
fn read_content<B: DerRead + Drop>(
    alloc: Global,
    content_type: ObjectIdentifier,
    reader: &mut DerReader<'_>,
) -> Result<SafeContentsInfo<B>, DerError>
    ensures { Reads (contents_seen B.stands_for) ((contents_cases B.form).reading content_type) reader.old result reader.new }
{
    if KnownIdentifier::Data.is(&content_type) {
        return Ok(SafeContentsInfo::Data(read_bags(alloc, reader)?));
    }
    if KnownIdentifier::EncryptedData.is(&content_type) {
        let part = read_explicit(alloc, 0, reader)?;
        return Ok(SafeContentsInfo::EncryptedData(part));
    }
    let content = read_optional_explicit(alloc, 0, reader)?;
    Ok(SafeContentsInfo::Unknown {
        content_type,
        content,
    })
}

#[tactic(auto, unfolding(crate::specs::Contents::in_octets, picky_fields::specs::Fields::explicit))]
fn write_bags<B: DerWrite>(alloc: Global, bags: &B, out: &mut Vec<u8>) -> Result<(), DerError>
    ensures { Writes (λ s. (explicit 0 (in_octets B.form)).Encodes s (B.stands_for bags.now)) ((explicit 0 (in_octets B.form)).Refused (B.stands_for bags.now)) result out.old.items out.new.items }
{
    let mut list = Vec::new(alloc);
    bags.write_der(alloc, &mut list)?;
    let mut octets = Vec::new(alloc);
    write_value(&mut octets, Tag::OCTET_STRING, &list)?;
    write_value(out, Tag(160), &octets)
}

impl<B: DerRead + DerWrite + Drop> DerRecord for SafeContentsInfo<B> {
    ghost fields = { fields_by (contents_seen B.stands_for) (contents_fields B.form) };

    #[tactic(auto, unfolding(crate::specs::Contents::contents_fields))]
    fn read_fields(
        alloc: Global,
        reader: &mut DerReader<'_>,
    ) -> Result<SafeContentsInfo<B>, DerError> {
        let content_type = ObjectIdentifier::read_der(alloc, reader)?;
        read_content(alloc, content_type, reader)
    }

    #[tactic(auto, unfolding(crate::specs::Contents::contents_fields, crate::specs::Contents::contents_cases))]
    fn write_fields(&self, alloc: Global, out: &mut Vec<u8>) -> Result<(), DerError> {
        match self {
            SafeContentsInfo::Data(bags) => {
                KnownIdentifier::Data.write(out)?;
                write_bags(alloc, bags, out)
            }
            SafeContentsInfo::EncryptedData(part) => {
                KnownIdentifier::EncryptedData.write(out)?;
                write_explicit(alloc, 0, part, out)
            }
            SafeContentsInfo::Unknown {
                content_type,
                content,
            } => {
                content_type.write_der(alloc, out)?;
                write_optional_explicit(alloc, 0, content, out)
            }
        }
    }
}

impl<B: DerRead + DerWrite + Drop> DerRead for SafeContentsInfo<B> {
    #[tactic(auto, unfolding(crate::specs::Contents::contents))]
    fn begins_with(tag: Tag) -> bool {
        tag == Tag::SEQUENCE
    }

    #[tactic(auto, unfolding(crate::specs::Contents::contents))]
    fn read_der(
        alloc: Global,
        reader: &mut DerReader<'_>,
    ) -> Result<SafeContentsInfo<B>, DerError> {
        read_record(alloc, reader)
    }

    ghost readable = { (contents_lawful (record { readable = B.readable; writable = B.writable })).readable };
}

impl<B: DerRead + DerWrite + Drop> DerWrite for SafeContentsInfo<B> {
    #[tactic(auto, unfolding(crate::specs::Contents::contents))]
    fn write_der(&self, alloc: Global, out: &mut Vec<u8>) -> Result<(), DerError> {
        write_record(alloc, self, out)
    }

    ghost writable = { (contents_lawful (record { readable = B.readable; writable = B.writable })).writable };
}
