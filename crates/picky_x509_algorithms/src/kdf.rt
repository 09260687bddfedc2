// Key derivation in PBES2.
ghost use Rattle.std.specs.Prelude.{◌≡◌, IfOk};
ghost use Rattle.picky_fields.specs.Records.{fields_by};
ghost use Rattle.picky_x509_algorithms.specs.declared.kdf.Pbes2Kdf.{Pbes2Kdf as Derivation};
ghost use Rattle.picky_x509_algorithms.specs.Kdf.{kdf_fields, kdf, kdf_lawful};

use crate::known_identifier::KnownIdentifier;
use crate::pbkdf2::Pbkdf2Params;
use crate::writing::write_algorithm;
use picky_asn1_oid::ObjectIdentifier;
use picky_asn1_tag::{Asn1Value, CopyIn, Tag};
use picky_der::{DerError, DerForm, DerRead, DerReader, DerWrite};
use picky_fields::{AlgorithmIdentifier, DerRecord, read_last, read_record, write_record};
use std::alloc::{AllocError, Global};

/// The key derivation of PBES2 (RFC 8018 appendix A.4).
#[derive(Debug, Drop)]
pub enum Pbes2Kdf {
    /// PBKDF2.
    Pbkdf2(Pbkdf2Params),
    /// Any other algorithm.
    Unknown(AlgorithmIdentifier),
}

impl Pbes2Kdf {
    /// A copy, in memory of its own.
    pub fn clone(&self, alloc: Global) -> Result<Pbes2Kdf, AllocError>
        ensures { IfOk result (λ copy. copy ≡ self.now) }
    {
        match self {
            Pbes2Kdf::Pbkdf2(params) => Ok(Pbes2Kdf::Pbkdf2(params.clone(alloc)?)),
            Pbes2Kdf::Unknown(algorithm) => Ok(Pbes2Kdf::Unknown(algorithm.clone(alloc)?)),
        }
    }
}

impl Asn1Value for Pbes2Kdf {
    ghost Meaning = { Derivation };

    ghost meaning = { λ k. k };
}

impl CopyIn for Pbes2Kdf {
    fn copy_in(&self, alloc: Global) -> Result<Pbes2Kdf, AllocError> {
        self.clone(alloc)
    }
}

/// In form are PBKDF2 with parameters in form, and others whose identifier isn't PBKDF2's.
impl DerForm for Pbes2Kdf {
    ghost Abstract = { Derivation };

    ghost stands_for = { λ k. k };

    ghost form = { kdf };

    ghost same_value = { λ _ _ e. e };
}

impl DerRecord for Pbes2Kdf {
    ghost fields = { fields_by (λ x. x) kdf_fields };

    #[tactic(auto, unfolding(crate::specs::Kdf::kdf_fields, crate::specs::Kdf::kdf_cases, crate::specs::Identifiers::other_algorithm))]
    fn read_fields(alloc: Global, reader: &mut DerReader<'_>) -> Result<Pbes2Kdf, DerError> {
        let oid = ObjectIdentifier::read_der(alloc, reader)?;
        if KnownIdentifier::Pbkdf2.is(&oid) {
            let params = Pbkdf2Params::read_der(alloc, reader)?;
            return Ok(Pbes2Kdf::Pbkdf2(params));
        }
        let parameters = read_last(alloc, reader)?;
        Ok(Pbes2Kdf::Unknown(AlgorithmIdentifier { oid, parameters }))
    }

    #[tactic(auto, unfolding(crate::specs::Kdf::kdf_fields, crate::specs::Kdf::kdf_cases, crate::specs::Identifiers::other_algorithm))]
    fn write_fields(&self, alloc: Global, out: &mut Vec<u8>) -> Result<(), DerError> {
        match self {
            Pbes2Kdf::Pbkdf2(params) => {
                KnownIdentifier::Pbkdf2.write(out)?;
                params.write_der(alloc, out)
            }
            Pbes2Kdf::Unknown(algorithm) => write_algorithm(alloc, algorithm, out),
        }
    }
}

impl DerRead for Pbes2Kdf {
    #[tactic(auto, unfolding(crate::specs::Kdf::kdf))]
    fn begins_with(tag: Tag) -> bool {
        tag == Tag::SEQUENCE
    }

    #[tactic(auto, unfolding(crate::specs::Kdf::kdf))]
    fn read_der(alloc: Global, reader: &mut DerReader<'_>) -> Result<Pbes2Kdf, DerError> {
        read_record(alloc, reader)
    }

    ghost readable = { kdf_lawful.readable };
}

impl DerWrite for Pbes2Kdf {
    #[tactic(auto, unfolding(crate::specs::Kdf::kdf))]
    fn write_der(&self, alloc: Global, out: &mut Vec<u8>) -> Result<(), DerError> {
        write_record(alloc, self, out)
    }

    ghost writable = { kdf_lawful.writable };
}
