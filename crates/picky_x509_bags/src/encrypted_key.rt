// Encrypted keys in bags.
ghost use Rattle.std.specs.Prelude.{◌≡◌, IfOk};
ghost use Rattle.picky_fields.specs.Fields.{octet_string, one, ◌and◌};
ghost use Rattle.picky_fields.specs.Records.{fields_by, ReadsFields};
ghost use Rattle.picky_x509_bags.specs.declared.encrypted_key.EncryptedKeyBag.{EncryptedKeyBag as Key};
ghost use Rattle.picky_x509_bags.specs.EncryptedKey.{encrypted_key_fields, encrypted_key, encrypted_key_lawful};

use picky_asn1_tag::{Asn1Value, CopyIn, Tag};
use picky_contract::Bytes;
use picky_der::{DerError, DerForm, DerRead, DerReader, DerWrite};
use picky_fields::{DerRecord, read_octets, read_record, write_octets, write_record};
use picky_x509_algorithms::Pkcs12EncryptionAlgorithm;
use std::alloc::{AllocError, Global};

/// A private key that is encrypted, EncryptedPrivateKeyInfo (RFC 5958 section 3, RFC 7292 section 4.2.2).
#[derive(Debug, Drop)]
pub struct EncryptedKeyBag {
    /// How it is encrypted.
    pub algorithm: Pkcs12EncryptionAlgorithm,
    /// The encrypted key.
    pub encrypted_data: Bytes,
}

impl EncryptedKeyBag {
    /// A copy, in memory of its own.
    pub fn clone(&self, alloc: Global) -> Result<EncryptedKeyBag, AllocError>
        ensures { IfOk result (λ copy. copy ≡ self.now) }
    {
        let encrypted_data = self.encrypted_data.clone(alloc)?;
        let algorithm = self.algorithm.clone(alloc)?;
        Ok(EncryptedKeyBag {
            algorithm,
            encrypted_data,
        })
    }
}

impl Asn1Value for EncryptedKeyBag {
    ghost Meaning = { Key };

    ghost meaning = { λ k. k };
}

impl CopyIn for EncryptedKeyBag {
    fn copy_in(&self, alloc: Global) -> Result<EncryptedKeyBag, AllocError> {
        self.clone(alloc)
    }
}

/// In form are those whose algorithm is.
impl DerForm for EncryptedKeyBag {
    ghost Abstract = { Key };

    ghost stands_for = { λ k. k };

    ghost form = { encrypted_key };

    ghost same_value = { λ _ _ e. e };
}

// A value of any type, and the OCTET STRING behind it.
fn read_with_octets<T: DerRead + Drop>(
    alloc: Global,
    reader: &mut DerReader<'_>,
) -> Result<(T, Bytes), DerError>
    ensures { ReadsFields (λ x. (T.stands_for x.0, x.1)) (one T.form and one octet_string) reader.old result reader.new }
{
    let value = T::read_der(alloc, reader)?;
    let octets = Bytes::new(read_octets(alloc, reader)?);
    Ok((value, octets))
}

impl DerRecord for EncryptedKeyBag {
    ghost fields = { fields_by (λ k. k) encrypted_key_fields };

    #[tactic(auto, unfolding(crate::specs::EncryptedKey::encrypted_key_fields))]
    fn read_fields(alloc: Global, reader: &mut DerReader<'_>) -> Result<EncryptedKeyBag, DerError> {
        let (algorithm, encrypted_data) = read_with_octets(alloc, reader)?;
        Ok(EncryptedKeyBag {
            algorithm,
            encrypted_data,
        })
    }

    #[tactic(auto, unfolding(crate::specs::EncryptedKey::encrypted_key_fields))]
    fn write_fields(&self, alloc: Global, out: &mut Vec<u8>) -> Result<(), DerError> {
        self.algorithm.write_der(alloc, out)?;
        write_octets(self.encrypted_data.as_slice(), out)
    }
}

impl DerRead for EncryptedKeyBag {
    #[tactic(auto, unfolding(crate::specs::EncryptedKey::encrypted_key))]
    fn begins_with(tag: Tag) -> bool {
        tag == Tag::SEQUENCE
    }

    #[tactic(auto, unfolding(crate::specs::EncryptedKey::encrypted_key))]
    fn read_der(alloc: Global, reader: &mut DerReader<'_>) -> Result<EncryptedKeyBag, DerError> {
        read_record(alloc, reader)
    }

    ghost readable = { encrypted_key_lawful.readable };
}

impl DerWrite for EncryptedKeyBag {
    #[tactic(auto, unfolding(crate::specs::EncryptedKey::encrypted_key))]
    fn write_der(&self, alloc: Global, out: &mut Vec<u8>) -> Result<(), DerError> {
        write_record(alloc, self, out)
    }

    ghost writable = { encrypted_key_lawful.writable };
}
