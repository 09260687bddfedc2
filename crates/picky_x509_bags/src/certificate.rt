// Certificates in bags.
ghost use Rattle.std.specs.Prelude.{◌≡◌, IfOk};
ghost use Rattle.picky_fields.specs.Records.{fields_by};
ghost use Rattle.picky_x509_bags.specs.declared.certificate.CertificateBag.{CertificateBag as Certificate};
ghost use Rattle.picky_x509_bags.specs.Certificate.{certificate_fields, certificate, certificate_lawful};

use picky_asn1_oid::ObjectIdentifier;
use picky_asn1_tag::{Asn1Value, CopyIn, Tag};
use picky_contract::Bytes;
use picky_der::{Asn1RawDer, DerError, DerForm, DerRead, DerReader, DerWrite};
use picky_fields::{
    DerRecord, read_explicit, read_explicit_octets, read_record, write_explicit,
    write_explicit_octets, write_record,
};
use picky_x509_algorithms::KnownIdentifier;
use std::alloc::{AllocError, Global};

/// A certificate (RFC 7292 section 4.2.3).
#[derive(Debug, Drop)]
pub enum CertificateBag {
    /// An X.509 certificate, as the bytes of its DER, which aren't looked at here.
    X509(Bytes),
    /// A certificate of another type.
    Unknown {
        /// Its type, which isn't x509Certificate.
        type_id: ObjectIdentifier,
        /// The certificate, one value.
        value: Asn1RawDer,
    },
}

impl CertificateBag {
    /// A copy, in memory of its own.
    pub fn clone(&self, alloc: Global) -> Result<CertificateBag, AllocError>
        ensures { IfOk result (λ copy. copy ≡ self.now) }
    {
        match self {
            CertificateBag::X509(octets) => Ok(CertificateBag::X509(octets.clone(alloc)?)),
            CertificateBag::Unknown { type_id, value } => Ok(CertificateBag::Unknown {
                type_id: type_id.clone(alloc)?,
                value: value.clone(alloc)?,
            }),
        }
    }
}

impl Asn1Value for CertificateBag {
    ghost Meaning = { Certificate };

    ghost meaning = { λ c. c };
}

impl CopyIn for CertificateBag {
    fn copy_in(&self, alloc: Global) -> Result<CertificateBag, AllocError> {
        self.clone(alloc)
    }
}

/// In form are X.509 certificates, and others whose type isn't theirs.
impl DerForm for CertificateBag {
    ghost Abstract = { Certificate };

    ghost stands_for = { λ c. c };

    ghost form = { certificate };

    ghost same_value = { λ _ _ e. e };
}

impl DerRecord for CertificateBag {
    ghost fields = { fields_by (λ c. c) certificate_fields };

    #[tactic(auto, unfolding(crate::specs::Certificate::certificate_fields, crate::specs::Certificate::certificate_cases))]
    fn read_fields(alloc: Global, reader: &mut DerReader<'_>) -> Result<CertificateBag, DerError> {
        let type_id = ObjectIdentifier::read_der(alloc, reader)?;
        if KnownIdentifier::X509Certificate.is(&type_id) {
            let octets = Bytes::new(read_explicit_octets(alloc, 0, reader)?);
            return Ok(CertificateBag::X509(octets));
        }
        let value = read_explicit(alloc, 0, reader)?;
        Ok(CertificateBag::Unknown { type_id, value })
    }

    #[tactic(auto, unfolding(crate::specs::Certificate::certificate_fields, crate::specs::Certificate::certificate_cases))]
    fn write_fields(&self, alloc: Global, out: &mut Vec<u8>) -> Result<(), DerError> {
        match self {
            CertificateBag::X509(octets) => {
                KnownIdentifier::X509Certificate.write(out)?;
                write_explicit_octets(alloc, 0, octets.as_slice(), out)
            }
            CertificateBag::Unknown { type_id, value } => {
                type_id.write_der(alloc, out)?;
                write_explicit(alloc, 0, value, out)
            }
        }
    }
}

impl DerRead for CertificateBag {
    #[tactic(auto, unfolding(crate::specs::Certificate::certificate))]
    fn begins_with(tag: Tag) -> bool {
        tag == Tag::SEQUENCE
    }

    #[tactic(auto, unfolding(crate::specs::Certificate::certificate))]
    fn read_der(alloc: Global, reader: &mut DerReader<'_>) -> Result<CertificateBag, DerError> {
        read_record(alloc, reader)
    }

    ghost readable = { certificate_lawful.readable };
}

impl DerWrite for CertificateBag {
    #[tactic(auto, unfolding(crate::specs::Certificate::certificate))]
    fn write_der(&self, alloc: Global, out: &mut Vec<u8>) -> Result<(), DerError> {
        write_record(alloc, self, out)
    }

    ghost writable = { certificate_lawful.writable };
}
