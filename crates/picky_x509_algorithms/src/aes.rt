// Schemes of PBES2.
ghost use Rattle.std.specs.Prelude.{◌≡◌, IfOk};
ghost use Rattle.picky_fields.specs.Records.{fields_by};
ghost use Rattle.picky_x509_algorithms.specs.declared.aes.AesCbcKind.{AesCbcKind as Kind};
ghost use Rattle.picky_x509_algorithms.specs.declared.aes.Pbes2Scheme.{Pbes2Scheme as Scheme};
ghost use Rattle.picky_x509_algorithms.specs.Aes.{aes_id, aes_name, scheme_fields, scheme, scheme_lawful};

use crate::known_identifier::{KnownIdentifier, named};
use crate::writing::write_algorithm;
use picky_asn1_oid::ObjectIdentifier;
use picky_asn1_tag::{Asn1Value, CopyIn, Tag};
use picky_contract::Bytes;
use picky_der::{DerError, DerForm, DerRead, DerReader, DerWrite};
use picky_fields::{
    AlgorithmIdentifier, DerRecord, read_last, read_octets, read_record, write_octets, write_record,
};
use std::alloc::{AllocError, Global};

/// AES by the size of its key (FIPS 197), in CBC mode.
#[derive(Clone, Copy, Debug, PartialEq, Eq)]
pub enum AesCbcKind {
    /// 128 bits.
    Aes128,
    /// 192 bits.
    Aes192,
    /// 256 bits.
    Aes256,
}

impl AesCbcKind {
    /// The identifier of the scheme.
    pub fn identifier(self) -> KnownIdentifier
        ensures { result ≡ aes_id self }
    {
        match self {
            AesCbcKind::Aes128 => KnownIdentifier::Aes128Cbc,
            AesCbcKind::Aes192 => KnownIdentifier::Aes192Cbc,
            AesCbcKind::Aes256 => KnownIdentifier::Aes256Cbc,
        }
    }

    /// The scheme with this identifier.
    #[tactic(auto, unfolding(crate::specs::Aes::aes_name))]
    pub fn of_identifier(oid: &ObjectIdentifier) -> Option<AesCbcKind>
        ensures { result ≡ aes_name oid.now }
    {
        let from_256_bits = named(KnownIdentifier::Aes256Cbc, AesCbcKind::Aes256, oid, None);
        let from_192_bits = named(
            KnownIdentifier::Aes192Cbc,
            AesCbcKind::Aes192,
            oid,
            from_256_bits,
        );
        named(
            KnownIdentifier::Aes128Cbc,
            AesCbcKind::Aes128,
            oid,
            from_192_bits,
        )
    }
}

impl Asn1Value for AesCbcKind {
    ghost Meaning = { Kind };

    ghost meaning = { λ k. k };
}

impl CopyIn for AesCbcKind {
    fn copy_in(&self, _alloc: Global) -> Result<AesCbcKind, AllocError> {
        Ok(*self)
    }
}

/// The encryption scheme of PBES2 (RFC 8018 appendix A.4).
#[derive(Debug, Drop)]
pub enum Pbes2Scheme {
    /// AES in CBC mode with padding (RFC 8018 appendix B.2.5).
    AesCbc {
        /// The size of its key.
        kind: AesCbcKind,
        /// The initialization vector.
        iv: Bytes,
    },
    /// Any other algorithm.
    Unknown(AlgorithmIdentifier),
}

impl Pbes2Scheme {
    /// A copy, in memory of its own.
    pub fn clone(&self, alloc: Global) -> Result<Pbes2Scheme, AllocError>
        ensures { IfOk result (λ copy. copy ≡ self.now) }
    {
        match self {
            Pbes2Scheme::AesCbc { kind, iv } => Ok(Pbes2Scheme::AesCbc {
                kind: *kind,
                iv: iv.clone(alloc)?,
            }),
            Pbes2Scheme::Unknown(algorithm) => Ok(Pbes2Scheme::Unknown(algorithm.clone(alloc)?)),
        }
    }
}

impl Asn1Value for Pbes2Scheme {
    ghost Meaning = { Scheme };

    ghost meaning = { λ s. s };
}

impl CopyIn for Pbes2Scheme {
    fn copy_in(&self, alloc: Global) -> Result<Pbes2Scheme, AllocError> {
        self.clone(alloc)
    }
}

/// In form are AES, and others whose identifier is none of its three.
impl DerForm for Pbes2Scheme {
    ghost Abstract = { Scheme };

    ghost stands_for = { λ s. s };

    ghost form = { scheme };

    ghost same_value = { λ _ _ e. e };
}

impl DerRecord for Pbes2Scheme {
    ghost fields = { fields_by (λ x. x) scheme_fields };

    #[tactic(auto, unfolding(crate::specs::Aes::scheme_fields, crate::specs::Aes::scheme_cases, crate::specs::Identifiers::other_algorithm))]
    fn read_fields(alloc: Global, reader: &mut DerReader<'_>) -> Result<Pbes2Scheme, DerError> {
        let oid = ObjectIdentifier::read_der(alloc, reader)?;
        if let Some(kind) = AesCbcKind::of_identifier(&oid) {
            let iv = Bytes::new(read_octets(alloc, reader)?);
            return Ok(Pbes2Scheme::AesCbc { kind, iv });
        }
        let parameters = read_last(alloc, reader)?;
        Ok(Pbes2Scheme::Unknown(AlgorithmIdentifier { oid, parameters }))
    }

    #[tactic(auto, unfolding(crate::specs::Aes::scheme_fields, crate::specs::Aes::scheme_cases, crate::specs::Identifiers::other_algorithm))]
    fn write_fields(&self, alloc: Global, out: &mut Vec<u8>) -> Result<(), DerError> {
        match self {
            Pbes2Scheme::AesCbc { kind, iv } => {
                kind.identifier().write(out)?;
                write_octets(iv.as_slice(), out)
            }
            Pbes2Scheme::Unknown(algorithm) => write_algorithm(alloc, algorithm, out),
        }
    }
}

impl DerRead for Pbes2Scheme {
    #[tactic(auto, unfolding(crate::specs::Aes::scheme))]
    fn begins_with(tag: Tag) -> bool {
        tag == Tag::SEQUENCE
    }

    #[tactic(auto, unfolding(crate::specs::Aes::scheme))]
    fn read_der(alloc: Global, reader: &mut DerReader<'_>) -> Result<Pbes2Scheme, DerError> {
        read_record(alloc, reader)
    }

    ghost readable = { scheme_lawful.readable };
}

impl DerWrite for Pbes2Scheme {
    #[tactic(auto, unfolding(crate::specs::Aes::scheme))]
    fn write_der(&self, alloc: Global, out: &mut Vec<u8>) -> Result<(), DerError> {
        write_record(alloc, self, out)
    }

    ghost writable = { scheme_lawful.writable };
}
