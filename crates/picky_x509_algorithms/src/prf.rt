// Functions under PBKDF2.
ghost use Rattle.std.specs.Prelude.{◌≡◌, IfOk};
ghost use Rattle.picky_fields.specs.Records.{fields_by};
ghost use Rattle.picky_x509_algorithms.specs.declared.prf.Pbkdf2Prf.{Pbkdf2Prf as Prf};
ghost use Rattle.picky_x509_algorithms.specs.Prf.{prf_by, prf_fields, prf, prf_lawful};

use crate::hash_name::HashName;
use crate::writing::{write_algorithm, write_with_null};
use picky_asn1_oid::ObjectIdentifier;
use picky_asn1_tag::{Asn1Value, CopyIn, Tag};
use picky_der::{DerError, DerForm, DerRead, DerReader, DerWrite};
use picky_fields::{
    AlgorithmIdentifier, DerRecord, read_last, read_null_or_none, read_record, write_record,
};
use std::alloc::{AllocError, Global};

/// The pseudorandom function of PBKDF2, told by its identifier (RFC 8018 appendix B.1).
///
/// A known identifier stands with NULL or absent parameters, and is written with NULL.
#[derive(Debug, Drop)]
pub enum Pbkdf2Prf {
    /// HMAC with SHA-1.
    HmacWithSha1,
    /// HMAC with SHA-224.
    HmacWithSha224,
    /// HMAC with SHA-256.
    HmacWithSha256,
    /// HMAC with SHA-384.
    HmacWithSha384,
    /// HMAC with SHA-512.
    HmacWithSha512,
    /// Any other algorithm.
    Unknown(AlgorithmIdentifier),
}

impl Pbkdf2Prf {
    /// A copy, in memory of its own.
    pub fn clone(&self, alloc: Global) -> Result<Pbkdf2Prf, AllocError>
        ensures { IfOk result (λ copy. copy ≡ self.now) }
    {
        match self {
            Pbkdf2Prf::HmacWithSha1 => Ok(Pbkdf2Prf::HmacWithSha1),
            Pbkdf2Prf::HmacWithSha224 => Ok(Pbkdf2Prf::HmacWithSha224),
            Pbkdf2Prf::HmacWithSha256 => Ok(Pbkdf2Prf::HmacWithSha256),
            Pbkdf2Prf::HmacWithSha384 => Ok(Pbkdf2Prf::HmacWithSha384),
            Pbkdf2Prf::HmacWithSha512 => Ok(Pbkdf2Prf::HmacWithSha512),
            Pbkdf2Prf::Unknown(algorithm) => { Ok(Pbkdf2Prf::Unknown(algorithm.clone(alloc)?)) }
        }
    }
}

impl Asn1Value for Pbkdf2Prf {
    ghost Meaning = { Prf };

    ghost meaning = { λ p. p };
}

impl CopyIn for Pbkdf2Prf {
    fn copy_in(&self, alloc: Global) -> Result<Pbkdf2Prf, AllocError> {
        self.clone(alloc)
    }
}

/// In form are the known ones, and others whose identifier is none of theirs.
impl DerForm for Pbkdf2Prf {
    ghost Abstract = { Prf };

    ghost stands_for = { λ p. p };

    ghost form = { prf };

    ghost same_value = { λ _ _ e. e };
}

fn prf_by(hash: HashName) -> Pbkdf2Prf
    ensures { result ≡ prf_by hash }
{
    match hash {
        HashName::Sha1 => Pbkdf2Prf::HmacWithSha1,
        HashName::Sha224 => Pbkdf2Prf::HmacWithSha224,
        HashName::Sha256 => Pbkdf2Prf::HmacWithSha256,
        HashName::Sha384 => Pbkdf2Prf::HmacWithSha384,
        HashName::Sha512 => Pbkdf2Prf::HmacWithSha512,
    }
}

impl DerRecord for Pbkdf2Prf {
    ghost fields = { fields_by (λ x. x) prf_fields };

    #[tactic(auto, unfolding(crate::specs::Prf::prf_fields, crate::specs::Hashes::prf_cases, crate::specs::Identifiers::other_algorithm))]
    fn read_fields(alloc: Global, reader: &mut DerReader<'_>) -> Result<Pbkdf2Prf, DerError> {
        let oid = ObjectIdentifier::read_der(alloc, reader)?;
        if let Some(hash) = HashName::of_prf(&oid) {
            read_null_or_none(alloc, reader)?;
            return Ok(prf_by(hash));
        }
        let parameters = read_last(alloc, reader)?;
        Ok(Pbkdf2Prf::Unknown(AlgorithmIdentifier { oid, parameters }))
    }

    #[tactic(auto, unfolding(crate::specs::Prf::prf_fields, crate::specs::Hashes::prf_cases, crate::specs::Identifiers::other_algorithm))]
    fn write_fields(&self, alloc: Global, out: &mut Vec<u8>) -> Result<(), DerError> {
        let hash = match self {
            Pbkdf2Prf::HmacWithSha1 => HashName::Sha1,
            Pbkdf2Prf::HmacWithSha224 => HashName::Sha224,
            Pbkdf2Prf::HmacWithSha256 => HashName::Sha256,
            Pbkdf2Prf::HmacWithSha384 => HashName::Sha384,
            Pbkdf2Prf::HmacWithSha512 => HashName::Sha512,
            Pbkdf2Prf::Unknown(algorithm) => return write_algorithm(alloc, algorithm, out),
        };
        write_with_null(alloc, hash.prf_identifier(), out)
    }
}

impl DerRead for Pbkdf2Prf {
    #[tactic(auto, unfolding(crate::specs::Prf::prf))]
    fn begins_with(tag: Tag) -> bool {
        tag == Tag::SEQUENCE
    }

    #[tactic(auto, unfolding(crate::specs::Prf::prf))]
    fn read_der(alloc: Global, reader: &mut DerReader<'_>) -> Result<Pbkdf2Prf, DerError> {
        read_record(alloc, reader)
    }

    ghost readable = { prf_lawful.readable };
}

impl DerWrite for Pbkdf2Prf {
    #[tactic(auto, unfolding(crate::specs::Prf::prf))]
    fn write_der(&self, alloc: Global, out: &mut Vec<u8>) -> Result<(), DerError> {
        write_record(alloc, self, out)
    }

    ghost writable = { prf_lawful.writable };
}
