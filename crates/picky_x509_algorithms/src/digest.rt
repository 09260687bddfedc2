// Hash functions in containers.
ghost use Rattle.std.specs.Prelude.{◌≡◌, IfOk};
ghost use Rattle.picky_fields.specs.Records.{fields_by};
ghost use Rattle.picky_x509_algorithms.specs.declared.digest.Pkcs12DigestAlgorithm.{Pkcs12DigestAlgorithm as Digest};
ghost use Rattle.picky_x509_algorithms.specs.Digest.{digest_by, digest_fields, digest, digest_lawful};

use crate::hash_name::HashName;
use crate::writing::{write_algorithm, write_with_null};
use picky_asn1_oid::ObjectIdentifier;
use picky_asn1_tag::{Asn1Value, CopyIn, Tag};
use picky_der::{DerError, DerForm, DerRead, DerReader, DerWrite};
use picky_fields::{
    AlgorithmIdentifier, DerRecord, read_last, read_null_or_none, read_record, write_record,
};
use std::alloc::{AllocError, Global};

/// A hash function, told by its identifier (RFC 8017 appendix B.1).
///
/// A known identifier stands with NULL or absent parameters, and is written with NULL.
#[derive(Debug, Drop)]
pub enum Pkcs12DigestAlgorithm {
    /// SHA-1.
    Sha1,
    /// SHA-224.
    Sha224,
    /// SHA-256.
    Sha256,
    /// SHA-384.
    Sha384,
    /// SHA-512.
    Sha512,
    /// Any other algorithm.
    Unknown(AlgorithmIdentifier),
}

impl Pkcs12DigestAlgorithm {
    /// A copy, in memory of its own.
    pub fn clone(&self, alloc: Global) -> Result<Pkcs12DigestAlgorithm, AllocError>
        ensures { IfOk result (λ copy. copy ≡ self.now) }
    {
        match self {
            Pkcs12DigestAlgorithm::Sha1 => Ok(Pkcs12DigestAlgorithm::Sha1),
            Pkcs12DigestAlgorithm::Sha224 => Ok(Pkcs12DigestAlgorithm::Sha224),
            Pkcs12DigestAlgorithm::Sha256 => Ok(Pkcs12DigestAlgorithm::Sha256),
            Pkcs12DigestAlgorithm::Sha384 => Ok(Pkcs12DigestAlgorithm::Sha384),
            Pkcs12DigestAlgorithm::Sha512 => Ok(Pkcs12DigestAlgorithm::Sha512),
            Pkcs12DigestAlgorithm::Unknown(algorithm) => {
                Ok(Pkcs12DigestAlgorithm::Unknown(algorithm.clone(alloc)?))
            }
        }
    }
}

impl Asn1Value for Pkcs12DigestAlgorithm {
    ghost Meaning = { Digest };

    ghost meaning = { λ d. d };
}

impl CopyIn for Pkcs12DigestAlgorithm {
    fn copy_in(&self, alloc: Global) -> Result<Pkcs12DigestAlgorithm, AllocError> {
        self.clone(alloc)
    }
}

/// In form are the known ones, and others whose identifier is none of theirs.
impl DerForm for Pkcs12DigestAlgorithm {
    ghost Abstract = { Digest };

    ghost stands_for = { λ d. d };

    ghost form = { digest };

    ghost same_value = { λ _ _ e. e };
}

fn digest_by(hash: HashName) -> Pkcs12DigestAlgorithm
    ensures { result ≡ digest_by hash }
{
    match hash {
        HashName::Sha1 => Pkcs12DigestAlgorithm::Sha1,
        HashName::Sha224 => Pkcs12DigestAlgorithm::Sha224,
        HashName::Sha256 => Pkcs12DigestAlgorithm::Sha256,
        HashName::Sha384 => Pkcs12DigestAlgorithm::Sha384,
        HashName::Sha512 => Pkcs12DigestAlgorithm::Sha512,
    }
}

impl DerRecord for Pkcs12DigestAlgorithm {
    ghost fields = { fields_by (λ x. x) digest_fields };

    #[tactic(auto, unfolding(crate::specs::Digest::digest_fields, crate::specs::Hashes::digest_cases, crate::specs::Identifiers::other_algorithm))]
    fn read_fields(
        alloc: Global,
        reader: &mut DerReader<'_>,
    ) -> Result<Pkcs12DigestAlgorithm, DerError> {
        let oid = ObjectIdentifier::read_der(alloc, reader)?;
        if let Some(hash) = HashName::of_digest(&oid) {
            read_null_or_none(alloc, reader)?;
            return Ok(digest_by(hash));
        }
        let parameters = read_last(alloc, reader)?;
        Ok(Pkcs12DigestAlgorithm::Unknown(AlgorithmIdentifier { oid, parameters }))
    }

    #[tactic(auto, unfolding(crate::specs::Digest::digest_fields, crate::specs::Hashes::digest_cases, crate::specs::Identifiers::other_algorithm))]
    fn write_fields(&self, alloc: Global, out: &mut Vec<u8>) -> Result<(), DerError> {
        let hash = match self {
            Pkcs12DigestAlgorithm::Sha1 => HashName::Sha1,
            Pkcs12DigestAlgorithm::Sha224 => HashName::Sha224,
            Pkcs12DigestAlgorithm::Sha256 => HashName::Sha256,
            Pkcs12DigestAlgorithm::Sha384 => HashName::Sha384,
            Pkcs12DigestAlgorithm::Sha512 => HashName::Sha512,
            Pkcs12DigestAlgorithm::Unknown(algorithm) => return write_algorithm(
                alloc, algorithm, out,
            ),
        };
        write_with_null(alloc, hash.digest_identifier(), out)
    }
}

impl DerRead for Pkcs12DigestAlgorithm {
    #[tactic(auto, unfolding(crate::specs::Digest::digest))]
    fn begins_with(tag: Tag) -> bool {
        tag == Tag::SEQUENCE
    }

    #[tactic(auto, unfolding(crate::specs::Digest::digest))]
    fn read_der(
        alloc: Global,
        reader: &mut DerReader<'_>,
    ) -> Result<Pkcs12DigestAlgorithm, DerError> {
        read_record(alloc, reader)
    }

    ghost readable = { digest_lawful.readable };
}

impl DerWrite for Pkcs12DigestAlgorithm {
    #[tactic(auto, unfolding(crate::specs::Digest::digest))]
    fn write_der(&self, alloc: Global, out: &mut Vec<u8>) -> Result<(), DerError> {
        write_record(alloc, self, out)
    }

    ghost writable = { digest_lawful.writable };
}
