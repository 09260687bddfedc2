// Encryption algorithms.
ghost use Rattle.std.specs.Prelude.{◌≡◌, IfOk};
ghost use Rattle.picky_fields.specs.Records.{fields_by};
ghost use Rattle.picky_x509_algorithms.specs.declared.encryption.Pbes2Params.{Pbes2Params as Parameters};
ghost use Rattle.picky_x509_algorithms.specs.declared.encryption.Pkcs12EncryptionAlgorithm.{Pkcs12EncryptionAlgorithm as Encryption};
ghost use Rattle.picky_x509_algorithms.specs.Encryption.{pbes2_fields, pbes2_params, pbes2_params_lawful, encryption_fields, encryption, encryption_lawful};

use crate::aes::Pbes2Scheme;
use crate::kdf::Pbes2Kdf;
use crate::known_identifier::KnownIdentifier;
use crate::pbes1::{Pbes1Cipher, Pbes1Params};
use crate::writing::write_algorithm;
use picky_asn1_oid::ObjectIdentifier;
use picky_asn1_tag::{Asn1Value, CopyIn, Tag};
use picky_der::{DerError, DerForm, DerRead, DerReader, DerWrite};
use picky_fields::{AlgorithmIdentifier, DerRecord, read_last, read_record, write_record};
use std::alloc::{AllocError, Global};

/// Parameters of PBES2 (RFC 8018 appendix A.4).
#[derive(Debug, Drop)]
pub struct Pbes2Params {
    /// How the key is derived.
    pub kdf: Pbes2Kdf,
    /// How it encrypts.
    pub scheme: Pbes2Scheme,
}

impl Pbes2Params {
    /// A copy, in memory of its own.
    pub fn clone(&self, alloc: Global) -> Result<Pbes2Params, AllocError>
        ensures { IfOk result (λ copy. copy ≡ self.now) }
    {
        let kdf = self.kdf.clone(alloc)?;
        match self.scheme.clone(alloc) {
            Ok(scheme) => Ok(Pbes2Params { kdf, scheme }),
            Err(fault) => {
                drop(kdf);
                Err(fault)
            }
        }
    }
}

impl Asn1Value for Pbes2Params {
    ghost Meaning = { Parameters };

    ghost meaning = { λ p. p };
}

impl CopyIn for Pbes2Params {
    fn copy_in(&self, alloc: Global) -> Result<Pbes2Params, AllocError> {
        self.clone(alloc)
    }
}

/// In form are those whose derivation and scheme are.
impl DerForm for Pbes2Params {
    ghost Abstract = { Parameters };

    ghost stands_for = { λ p. p };

    ghost form = { pbes2_params };

    ghost same_value = { λ _ _ e. e };
}

impl DerRecord for Pbes2Params {
    ghost fields = { fields_by (λ x. x) pbes2_fields };

    #[tactic(auto, unfolding(crate::specs::Encryption::pbes2_fields))]
    fn read_fields(alloc: Global, reader: &mut DerReader<'_>) -> Result<Pbes2Params, DerError> {
        let kdf = Pbes2Kdf::read_der(alloc, reader)?;
        match Pbes2Scheme::read_der(alloc, reader) {
            Ok(scheme) => Ok(Pbes2Params { kdf, scheme }),
            Err(fault) => {
                drop(kdf);
                Err(fault)
            }
        }
    }

    #[tactic(auto, unfolding(crate::specs::Encryption::pbes2_fields))]
    fn write_fields(&self, alloc: Global, out: &mut Vec<u8>) -> Result<(), DerError> {
        self.kdf.write_der(alloc, out)?;
        self.scheme.write_der(alloc, out)
    }
}

impl DerRead for Pbes2Params {
    #[tactic(auto, unfolding(crate::specs::Encryption::pbes2_params))]
    fn begins_with(tag: Tag) -> bool {
        tag == Tag::SEQUENCE
    }

    #[tactic(auto, unfolding(crate::specs::Encryption::pbes2_params))]
    fn read_der(alloc: Global, reader: &mut DerReader<'_>) -> Result<Pbes2Params, DerError> {
        read_record(alloc, reader)
    }

    ghost readable = { pbes2_params_lawful.readable };
}

impl DerWrite for Pbes2Params {
    #[tactic(auto, unfolding(crate::specs::Encryption::pbes2_params))]
    fn write_der(&self, alloc: Global, out: &mut Vec<u8>) -> Result<(), DerError> {
        write_record(alloc, self, out)
    }

    ghost writable = { pbes2_params_lawful.writable };
}

/// How keys and parts are encrypted (RFC 7292 appendix C, RFC 8018 section 6).
#[derive(Debug, Drop)]
pub enum Pkcs12EncryptionAlgorithm {
    /// A scheme of PBES1.
    Pbes1 {
        /// The scheme.
        kind: Pbes1Cipher,
        /// Its parameters.
        params: Pbes1Params,
    },
    /// PBES2.
    Pbes2(Pbes2Params),
    /// Any other algorithm.
    Unknown(AlgorithmIdentifier),
}

impl Pkcs12EncryptionAlgorithm {
    /// A copy, in memory of its own.
    pub fn clone(&self, alloc: Global) -> Result<Pkcs12EncryptionAlgorithm, AllocError>
        ensures { IfOk result (λ copy. copy ≡ self.now) }
    {
        match self {
            Pkcs12EncryptionAlgorithm::Pbes1 { kind, params } => {
                Ok(Pkcs12EncryptionAlgorithm::Pbes1 {
                    kind: *kind,
                    params: params.clone(alloc)?,
                })
            }
            Pkcs12EncryptionAlgorithm::Pbes2(params) => {
                Ok(Pkcs12EncryptionAlgorithm::Pbes2(params.clone(alloc)?))
            }
            Pkcs12EncryptionAlgorithm::Unknown(algorithm) => Ok(Pkcs12EncryptionAlgorithm::Unknown(
                algorithm.clone(alloc)?,
            )),
        }
    }
}

impl Asn1Value for Pkcs12EncryptionAlgorithm {
    ghost Meaning = { Encryption };

    ghost meaning = { λ a. a };
}

impl CopyIn for Pkcs12EncryptionAlgorithm {
    fn copy_in(&self, alloc: Global) -> Result<Pkcs12EncryptionAlgorithm, AllocError> {
        self.clone(alloc)
    }
}

/// In form are PBES1, PBES2 with parameters in form, and others whose identifier is none of theirs.
impl DerForm for Pkcs12EncryptionAlgorithm {
    ghost Abstract = { Encryption };

    ghost stands_for = { λ a. a };

    ghost form = { encryption };

    ghost same_value = { λ _ _ e. e };
}

impl DerRecord for Pkcs12EncryptionAlgorithm {
    ghost fields = { fields_by (λ x. x) encryption_fields };

    #[tactic(auto, unfolding(crate::specs::Encryption::encryption_fields, crate::specs::Encryption::encryption_cases, crate::specs::Identifiers::other_algorithm))]
    fn read_fields(
        alloc: Global,
        reader: &mut DerReader<'_>,
    ) -> Result<Pkcs12EncryptionAlgorithm, DerError> {
        let oid = ObjectIdentifier::read_der(alloc, reader)?;
        if let Some(kind) = Pbes1Cipher::of_identifier(&oid) {
            let params = Pbes1Params::read_der(alloc, reader)?;
            return Ok(Pkcs12EncryptionAlgorithm::Pbes1 { kind, params });
        }
        if KnownIdentifier::Pbes2.is(&oid) {
            let params = Pbes2Params::read_der(alloc, reader)?;
            return Ok(Pkcs12EncryptionAlgorithm::Pbes2(params));
        }
        let parameters = read_last(alloc, reader)?;
        Ok(Pkcs12EncryptionAlgorithm::Unknown(AlgorithmIdentifier { oid, parameters }))
    }

    #[tactic(auto, unfolding(crate::specs::Encryption::encryption_fields, crate::specs::Encryption::encryption_cases, crate::specs::Identifiers::other_algorithm))]
    fn write_fields(&self, alloc: Global, out: &mut Vec<u8>) -> Result<(), DerError> {
        match self {
            Pkcs12EncryptionAlgorithm::Pbes1 { kind, params } => {
                kind.identifier().write(out)?;
                params.write_der(alloc, out)
            }
            Pkcs12EncryptionAlgorithm::Pbes2(params) => {
                KnownIdentifier::Pbes2.write(out)?;
                params.write_der(alloc, out)
            }
            Pkcs12EncryptionAlgorithm::Unknown(algorithm) => write_algorithm(alloc, algorithm, out),
        }
    }
}

impl DerRead for Pkcs12EncryptionAlgorithm {
    #[tactic(auto, unfolding(crate::specs::Encryption::encryption))]
    fn begins_with(tag: Tag) -> bool {
        tag == Tag::SEQUENCE
    }

    #[tactic(auto, unfolding(crate::specs::Encryption::encryption))]
    fn read_der(
        alloc: Global,
        reader: &mut DerReader<'_>,
    ) -> Result<Pkcs12EncryptionAlgorithm, DerError> {
        read_record(alloc, reader)
    }

    ghost readable = { encryption_lawful.readable };
}

impl DerWrite for Pkcs12EncryptionAlgorithm {
    #[tactic(auto, unfolding(crate::specs::Encryption::encryption))]
    fn write_der(&self, alloc: Global, out: &mut Vec<u8>) -> Result<(), DerError> {
        write_record(alloc, self, out)
    }

    ghost writable = { encryption_lawful.writable };
}
