// The MAC of a store.
ghost use Rattle.std.specs.Prelude.{◌≡◌, IfOk};
ghost use Rattle.picky_fields.specs.Records.{fields_by};
ghost use Rattle.picky_x509_store.specs.declared.mac.DigestInfo.{DigestInfo as Digested};
ghost use Rattle.picky_x509_store.specs.declared.mac.MacData.{MacData as Mac};
ghost use Rattle.picky_x509_store.specs.Mac.{digest_info_fields, digest_info, digest_info_lawful, mac_fields, mac_data, mac_data_lawful};

use picky_asn1_tag::{Asn1Value, CopyIn, Tag};
use picky_contract::Bytes;
use picky_der::{DerError, DerForm, DerRead, DerReader, DerWrite};
use picky_fields::{
    DerRecord, read_octets, read_record, write_octets, write_optional, write_record,
};
use picky_x509_algorithms::{Pkcs12DigestAlgorithm, read_optional_count};
use std::alloc::{AllocError, Global};

/// A digest and its algorithm (RFC 2315 section 9.4).
#[derive(Debug, Drop)]
pub struct DigestInfo {
    /// The hash function.
    pub digest_algorithm: Pkcs12DigestAlgorithm,
    /// The digest.
    pub digest: Bytes,
}

impl DigestInfo {
    /// A copy, in memory of its own.
    pub fn clone(&self, alloc: Global) -> Result<DigestInfo, AllocError>
        ensures { IfOk result (λ copy. copy ≡ self.now) }
    {
        let digest = self.digest.clone(alloc)?;
        Ok(DigestInfo {
            digest_algorithm: self.digest_algorithm.clone(alloc)?,
            digest,
        })
    }
}

impl Asn1Value for DigestInfo {
    ghost Meaning = { Digested };

    ghost meaning = { λ d. d };
}

impl CopyIn for DigestInfo {
    fn copy_in(&self, alloc: Global) -> Result<DigestInfo, AllocError> {
        self.clone(alloc)
    }
}

/// In form are those whose algorithm is.
impl DerForm for DigestInfo {
    ghost Abstract = { Digested };

    ghost stands_for = { λ d. d };

    ghost form = { digest_info };

    ghost same_value = { λ _ _ e. e };
}

impl DerRecord for DigestInfo {
    ghost fields = { fields_by (λ x. x) digest_info_fields };

    #[tactic(auto, unfolding(crate::specs::Mac::digest_info_fields))]
    fn read_fields(alloc: Global, reader: &mut DerReader<'_>) -> Result<DigestInfo, DerError> {
        let digest_algorithm = Pkcs12DigestAlgorithm::read_der(alloc, reader)?;
        match read_octets(alloc, reader) {
            Ok(digest) => Ok(DigestInfo {
                digest_algorithm,
                digest: Bytes::new(digest),
            }),
            Err(fault) => {
                drop(digest_algorithm);
                Err(fault)
            }
        }
    }

    #[tactic(auto, unfolding(crate::specs::Mac::digest_info_fields))]
    fn write_fields(&self, alloc: Global, out: &mut Vec<u8>) -> Result<(), DerError> {
        self.digest_algorithm.write_der(alloc, out)?;
        write_octets(self.digest.as_slice(), out)
    }
}

impl DerRead for DigestInfo {
    #[tactic(auto, unfolding(crate::specs::Mac::digest_info))]
    fn begins_with(tag: Tag) -> bool {
        tag == Tag::SEQUENCE
    }

    #[tactic(auto, unfolding(crate::specs::Mac::digest_info))]
    fn read_der(alloc: Global, reader: &mut DerReader<'_>) -> Result<DigestInfo, DerError> {
        read_record(alloc, reader)
    }

    ghost readable = { digest_info_lawful.readable };
}

impl DerWrite for DigestInfo {
    #[tactic(auto, unfolding(crate::specs::Mac::digest_info))]
    fn write_der(&self, alloc: Global, out: &mut Vec<u8>) -> Result<(), DerError> {
        write_record(alloc, self, out)
    }

    ghost writable = { digest_info_lawful.writable };
}

/// The MAC of a store (RFC 7292 section 4).
#[derive(Debug, Drop)]
pub struct MacData {
    /// The MAC and its hash function.
    pub mac: DigestInfo,
    /// The salt.
    pub salt: Bytes,
    /// How many iterations, where it is said; 1 where it isn't. A 1 that is said is kept.
    pub iterations: Option<u32>,
}

impl MacData {
    /// A copy, in memory of its own.
    pub fn clone(&self, alloc: Global) -> Result<MacData, AllocError>
        ensures { IfOk result (λ copy. copy ≡ self.now) }
    {
        let salt = self.salt.clone(alloc)?;
        Ok(MacData {
            mac: self.mac.clone(alloc)?,
            salt,
            iterations: self.iterations,
        })
    }
}

impl Asn1Value for MacData {
    ghost Meaning = { Mac };

    ghost meaning = { λ m. m };
}

impl CopyIn for MacData {
    fn copy_in(&self, alloc: Global) -> Result<MacData, AllocError> {
        self.clone(alloc)
    }
}

/// In form are those whose hash function is.
impl DerForm for MacData {
    ghost Abstract = { Mac };

    ghost stands_for = { λ m. m };

    ghost form = { mac_data };

    ghost same_value = { λ _ _ e. e };
}

impl DerRecord for MacData {
    ghost fields = { fields_by (λ x. x) mac_fields };

    #[tactic(auto, unfolding(crate::specs::Mac::mac_fields))]
    fn read_fields(alloc: Global, reader: &mut DerReader<'_>) -> Result<MacData, DerError> {
        let mac = DigestInfo::read_der(alloc, reader)?;
        let salt = match read_octets(alloc, reader) {
            Ok(salt) => Bytes::new(salt),
            Err(fault) => {
                drop(mac);
                return Err(fault);
            }
        };
        match read_optional_count(alloc, reader) {
            Ok(iterations) => Ok(MacData {
                mac,
                salt,
                iterations,
            }),
            Err(fault) => {
                drop(mac);
                Err(fault)
            }
        }
    }

    #[tactic(auto, unfolding(crate::specs::Mac::mac_fields, picky_x509_algorithms::specs::Counts::count))]
    fn write_fields(&self, alloc: Global, out: &mut Vec<u8>) -> Result<(), DerError> {
        self.mac.write_der(alloc, out)?;
        write_octets(self.salt.as_slice(), out)?;
        write_optional(alloc, &self.iterations, out)
    }
}

impl DerRead for MacData {
    #[tactic(auto, unfolding(crate::specs::Mac::mac_data))]
    fn begins_with(tag: Tag) -> bool {
        tag == Tag::SEQUENCE
    }

    #[tactic(auto, unfolding(crate::specs::Mac::mac_data))]
    fn read_der(alloc: Global, reader: &mut DerReader<'_>) -> Result<MacData, DerError> {
        read_record(alloc, reader)
    }

    ghost readable = { mac_data_lawful.readable };
}

impl DerWrite for MacData {
    #[tactic(auto, unfolding(crate::specs::Mac::mac_data))]
    fn write_der(&self, alloc: Global, out: &mut Vec<u8>) -> Result<(), DerError> {
        write_record(alloc, self, out)
    }

    ghost writable = { mac_data_lawful.writable };
}
