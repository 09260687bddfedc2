// PBES1: its ciphers and parameters.
ghost use Rattle.std.specs.Prelude.{◌≡◌, IfOk};
ghost use Rattle.picky_fields.specs.Records.{fields_by};
ghost use Rattle.picky_x509_algorithms.specs.declared.pbes1.Pbes1Cipher.{Pbes1Cipher as Cipher};
ghost use Rattle.picky_x509_algorithms.specs.declared.pbes1.Pbes1Params.{Pbes1Params as Parameters};
ghost use Rattle.picky_x509_algorithms.specs.Pbes1.{pbes1_fields, pbes1_params, pbes1_params_lawful, cipher_id, cipher_name};

use crate::counts::read_count;
use crate::known_identifier::{KnownIdentifier, named};
use picky_asn1_oid::ObjectIdentifier;
use picky_asn1_tag::{Asn1Value, CopyIn, Tag};
use picky_contract::Bytes;
use picky_der::{DerError, DerForm, DerRead, DerReader, DerWrite};
use picky_fields::{DerRecord, read_octets, read_record, write_octets, write_record};
use std::alloc::{AllocError, Global};

/// A scheme of PBES1 in PKCS #12 (RFC 7292 appendix C).
#[derive(Clone, Copy, Debug, PartialEq, Eq)]
pub enum Pbes1Cipher {
    /// pbeWithSHAAnd40BitRC2-CBC.
    ShaAnd40BitRc2Cbc,
    /// pbeWithSHAAnd3-KeyTripleDES-CBC.
    ShaAnd3Key3DesCbc,
}

impl Pbes1Cipher {
    /// The identifier of the scheme.
    pub fn identifier(self) -> KnownIdentifier
        ensures { result ≡ cipher_id self }
    {
        match self {
            Pbes1Cipher::ShaAnd40BitRc2Cbc => KnownIdentifier::PbeWithShaAnd40BitRc2Cbc,
            Pbes1Cipher::ShaAnd3Key3DesCbc => KnownIdentifier::PbeWithShaAnd3KeyTripleDesCbc,
        }
    }

    /// The scheme with this identifier.
    #[tactic(auto, unfolding(crate::specs::Pbes1::cipher_name))]
    pub fn of_identifier(oid: &ObjectIdentifier) -> Option<Pbes1Cipher>
        ensures { result ≡ cipher_name oid.now }
    {
        let triple_des = named(
            KnownIdentifier::PbeWithShaAnd3KeyTripleDesCbc,
            Pbes1Cipher::ShaAnd3Key3DesCbc,
            oid,
            None,
        );
        named(
            KnownIdentifier::PbeWithShaAnd40BitRc2Cbc,
            Pbes1Cipher::ShaAnd40BitRc2Cbc,
            oid,
            triple_des,
        )
    }
}

impl Asn1Value for Pbes1Cipher {
    ghost Meaning = { Cipher };

    ghost meaning = { λ c. c };
}

impl CopyIn for Pbes1Cipher {
    fn copy_in(&self, _alloc: Global) -> Result<Pbes1Cipher, AllocError> {
        Ok(*self)
    }
}

/// Parameters of a scheme of PBES1 (RFC 7292 appendix C).
#[derive(Debug, Drop)]
pub struct Pbes1Params {
    /// The salt.
    pub salt: Bytes,
    /// How many iterations.
    pub iterations: u32,
}

impl Pbes1Params {
    /// A copy, in memory of its own.
    pub fn clone(&self, alloc: Global) -> Result<Pbes1Params, AllocError>
        ensures { IfOk result (λ copy. copy ≡ self.now) }
    {
        Ok(Pbes1Params {
            salt: self.salt.clone(alloc)?,
            iterations: self.iterations,
        })
    }
}

impl Asn1Value for Pbes1Params {
    ghost Meaning = { Parameters };

    ghost meaning = { λ p. p };
}

impl CopyIn for Pbes1Params {
    fn copy_in(&self, alloc: Global) -> Result<Pbes1Params, AllocError> {
        self.clone(alloc)
    }
}

/// Each value is in form, and spelled one way.
impl DerForm for Pbes1Params {
    ghost Abstract = { Parameters };

    ghost stands_for = { λ p. p };

    ghost form = { pbes1_params };

    ghost same_value = { λ _ _ e. e };
}

impl DerRecord for Pbes1Params {
    ghost fields = { fields_by (λ x. x) pbes1_fields };

    #[tactic(auto, unfolding(crate::specs::Pbes1::pbes1_fields))]
    fn read_fields(alloc: Global, reader: &mut DerReader<'_>) -> Result<Pbes1Params, DerError> {
        let salt = Bytes::new(read_octets(alloc, reader)?);
        let iterations = read_count(alloc, reader)?;
        Ok(Pbes1Params { salt, iterations })
    }

    #[tactic(auto, unfolding(crate::specs::Pbes1::pbes1_fields, crate::specs::Counts::count))]
    fn write_fields(&self, alloc: Global, out: &mut Vec<u8>) -> Result<(), DerError> {
        write_octets(self.salt.as_slice(), out)?;
        self.iterations.write_der(alloc, out)
    }
}

impl DerRead for Pbes1Params {
    #[tactic(auto, unfolding(crate::specs::Pbes1::pbes1_params))]
    fn begins_with(tag: Tag) -> bool {
        tag == Tag::SEQUENCE
    }

    #[tactic(auto, unfolding(crate::specs::Pbes1::pbes1_params))]
    fn read_der(alloc: Global, reader: &mut DerReader<'_>) -> Result<Pbes1Params, DerError> {
        read_record(alloc, reader)
    }

    ghost readable = { pbes1_params_lawful.readable };
}

impl DerWrite for Pbes1Params {
    #[tactic(auto, unfolding(crate::specs::Pbes1::pbes1_params))]
    fn write_der(&self, alloc: Global, out: &mut Vec<u8>) -> Result<(), DerError> {
        write_record(alloc, self, out)
    }

    ghost writable = { pbes1_params_lawful.writable };
}
