// Secrets in bags.
ghost use Rattle.std.specs.Prelude.{◌≡◌, IfOk};
ghost use Rattle.picky_fields.specs.Records.{fields_by};
ghost use Rattle.picky_x509_bags.specs.declared.secret.SecretBag.{SecretBag as Secret};
ghost use Rattle.picky_x509_bags.specs.Secret.{secret_fields, secret, secret_lawful};

use picky_asn1_oid::ObjectIdentifier;
use picky_asn1_tag::{Asn1Value, CopyIn, Tag};
use picky_der::{Asn1RawDer, DerError, DerForm, DerRead, DerReader, DerWrite};
use picky_fields::{DerRecord, read_explicit, read_record, write_explicit, write_record};
use std::alloc::{AllocError, Global};

/// A secret of any type (RFC 7292 section 4.2.5).
#[derive(Debug, Drop)]
pub struct SecretBag {
    /// Its type.
    pub type_id: ObjectIdentifier,
    /// The secret, one value.
    pub value: Asn1RawDer,
}

impl SecretBag {
    /// A copy, in memory of its own.
    pub fn clone(&self, alloc: Global) -> Result<SecretBag, AllocError>
        ensures { IfOk result (λ copy. copy ≡ self.now) }
    {
        Ok(SecretBag {
            type_id: self.type_id.clone(alloc)?,
            value: self.value.clone(alloc)?,
        })
    }
}

impl Asn1Value for SecretBag {
    ghost Meaning = { Secret };

    ghost meaning = { λ s. s };
}

impl CopyIn for SecretBag {
    fn copy_in(&self, alloc: Global) -> Result<SecretBag, AllocError> {
        self.clone(alloc)
    }
}

/// In form are all secrets whose type is an identifier's arcs.
impl DerForm for SecretBag {
    ghost Abstract = { Secret };

    ghost stands_for = { λ s. s };

    ghost form = { secret };

    ghost same_value = { λ _ _ e. e };
}

impl DerRecord for SecretBag {
    ghost fields = { fields_by (λ s. s) secret_fields };

    #[tactic(auto, unfolding(crate::specs::Secret::secret_fields))]
    fn read_fields(alloc: Global, reader: &mut DerReader<'_>) -> Result<SecretBag, DerError> {
        let type_id = ObjectIdentifier::read_der(alloc, reader)?;
        let value = read_explicit(alloc, 0, reader)?;
        Ok(SecretBag { type_id, value })
    }

    #[tactic(auto, unfolding(crate::specs::Secret::secret_fields))]
    fn write_fields(&self, alloc: Global, out: &mut Vec<u8>) -> Result<(), DerError> {
        self.type_id.write_der(alloc, out)?;
        write_explicit(alloc, 0, &self.value, out)
    }
}

impl DerRead for SecretBag {
    #[tactic(auto, unfolding(crate::specs::Secret::secret))]
    fn begins_with(tag: Tag) -> bool {
        tag == Tag::SEQUENCE
    }

    #[tactic(auto, unfolding(crate::specs::Secret::secret))]
    fn read_der(alloc: Global, reader: &mut DerReader<'_>) -> Result<SecretBag, DerError> {
        read_record(alloc, reader)
    }

    ghost readable = { secret_lawful.readable };
}

impl DerWrite for SecretBag {
    #[tactic(auto, unfolding(crate::specs::Secret::secret))]
    fn write_der(&self, alloc: Global, out: &mut Vec<u8>) -> Result<(), DerError> {
        write_record(alloc, self, out)
    }

    ghost writable = { secret_lawful.writable };
}
