// Stores.
ghost use Rattle.std.specs.Prelude.{◌≡◌, IfOk};
ghost use Rattle.picky_der.specs.Reading.{Reads};
ghost use Rattle.picky_fields.specs.Records.{fields_by};
ghost use Rattle.picky_x509_store.specs.declared.pfx.RawPfx.{RawPfx as Store};
ghost use Rattle.picky_x509_store.specs.declared.pfx.RawAuthenticatedSafe.{RawAuthenticatedSafe as Safe};
ghost use Rattle.picky_x509_store.specs.Pfx.{safe_fields, safe, safe_lawful, version, pfx_fields, pfx, pfx_lawful};

use crate::mac::MacData;
use picky_asn1_oid::ObjectIdentifier;
use picky_asn1_tag::{Asn1Value, CopyIn, Tag};
use picky_contract::Bytes;
use picky_der::{Asn1RawDer, DerError, DerForm, DerRead, DerReader, DerWrite};
use picky_fields::{
    DerRecord, copy_optional, read_explicit_octets, read_optional, read_optional_explicit,
    read_record, write_explicit_octets, write_optional, write_optional_explicit, write_record,
};
use picky_x509_algorithms::KnownIdentifier;
use std::alloc::{AllocError, Global};

/// What a store authenticates (RFC 7292 section 4.1).
#[derive(Debug, Drop)]
pub enum RawAuthenticatedSafe {
    /// Data: the bytes over which a MAC is taken, which spell a SEQUENCE OF ContentInfo.
    Data(Bytes),
    /// Content of another type.
    Unknown {
        /// Its type, which isn't data.
        content_type: ObjectIdentifier,
        /// The content, where it stands in the store.
        content: Option<Asn1RawDer>,
    },
}

impl RawAuthenticatedSafe {
    /// A copy, in memory of its own.
    #[tactic(auto, using(picky_fields::specs::laws::Copies::copied_option))]
    pub fn clone(&self, alloc: Global) -> Result<RawAuthenticatedSafe, AllocError>
        ensures { IfOk result (λ copy. copy ≡ self.now) }
    {
        match self {
            RawAuthenticatedSafe::Data(octets) => {
                Ok(RawAuthenticatedSafe::Data(octets.clone(alloc)?))
            }
            RawAuthenticatedSafe::Unknown {
                content_type,
                content,
            } => Ok(RawAuthenticatedSafe::Unknown {
                content_type: content_type.clone(alloc)?,
                content: copy_optional(alloc, content)?,
            }),
        }
    }
}

impl Asn1Value for RawAuthenticatedSafe {
    ghost Meaning = { Safe };

    ghost meaning = { λ s. s };
}

impl CopyIn for RawAuthenticatedSafe {
    fn copy_in(&self, alloc: Global) -> Result<RawAuthenticatedSafe, AllocError> {
        self.clone(alloc)
    }
}

/// In form are data, and others whose type isn't data.
impl DerForm for RawAuthenticatedSafe {
    ghost Abstract = { Safe };

    ghost stands_for = { λ s. s };

    ghost form = { safe };

    ghost same_value = { λ _ _ e. e };
}

impl DerRecord for RawAuthenticatedSafe {
    ghost fields = { fields_by (λ x. x) safe_fields };

    #[tactic(auto, unfolding(crate::specs::Pfx::safe_fields, crate::specs::Pfx::safe_cases))]
    fn read_fields(
        alloc: Global,
        reader: &mut DerReader<'_>,
    ) -> Result<RawAuthenticatedSafe, DerError> {
        let content_type = ObjectIdentifier::read_der(alloc, reader)?;
        if KnownIdentifier::Data.is(&content_type) {
            let octets = Bytes::new(read_explicit_octets(alloc, 0, reader)?);
            return Ok(RawAuthenticatedSafe::Data(octets));
        }
        let content = read_optional_explicit(alloc, 0, reader)?;
        Ok(RawAuthenticatedSafe::Unknown {
            content_type,
            content,
        })
    }

    #[tactic(auto, unfolding(crate::specs::Pfx::safe_fields, crate::specs::Pfx::safe_cases))]
    fn write_fields(&self, alloc: Global, out: &mut Vec<u8>) -> Result<(), DerError> {
        match self {
            RawAuthenticatedSafe::Data(octets) => {
                KnownIdentifier::Data.write(out)?;
                write_explicit_octets(alloc, 0, octets.as_slice(), out)
            }
            RawAuthenticatedSafe::Unknown {
                content_type,
                content,
            } => {
                content_type.write_der(alloc, out)?;
                write_optional_explicit(alloc, 0, content, out)
            }
        }
    }
}

impl DerRead for RawAuthenticatedSafe {
    #[tactic(auto, unfolding(crate::specs::Pfx::safe))]
    fn begins_with(tag: Tag) -> bool {
        tag == Tag::SEQUENCE
    }

    #[tactic(auto, unfolding(crate::specs::Pfx::safe))]
    fn read_der(
        alloc: Global,
        reader: &mut DerReader<'_>,
    ) -> Result<RawAuthenticatedSafe, DerError> {
        read_record(alloc, reader)
    }

    ghost readable = { safe_lawful.readable };
}

impl DerWrite for RawAuthenticatedSafe {
    #[tactic(auto, unfolding(crate::specs::Pfx::safe))]
    fn write_der(&self, alloc: Global, out: &mut Vec<u8>) -> Result<(), DerError> {
        write_record(alloc, self, out)
    }

    ghost writable = { safe_lawful.writable };
}

/// A store (RFC 7292 section 4).
#[derive(Debug, Drop)]
pub struct RawPfx {
    /// The version, 3 in RFC 7292.
    pub version: u8,
    /// What is authenticated.
    pub auth_safe: RawAuthenticatedSafe,
    /// The MAC over it, where there is one.
    pub mac_data: Option<MacData>,
}

impl RawPfx {
    /// A copy, in memory of its own.
    #[tactic(auto, using(picky_fields::specs::laws::Copies::copied_option))]
    pub fn clone(&self, alloc: Global) -> Result<RawPfx, AllocError>
        ensures { IfOk result (λ copy. copy ≡ self.now) }
    {
        let auth_safe = self.auth_safe.clone(alloc)?;
        match copy_optional(alloc, &self.mac_data) {
            Ok(mac_data) => Ok(RawPfx {
                version: self.version,
                auth_safe,
                mac_data,
            }),
            Err(fault) => {
                drop(auth_safe);
                Err(fault)
            }
        }
    }
}

impl Asn1Value for RawPfx {
    ghost Meaning = { Store };

    ghost meaning = { λ p. p };
}

impl CopyIn for RawPfx {
    fn copy_in(&self, alloc: Global) -> Result<RawPfx, AllocError> {
        self.clone(alloc)
    }
}

/// In form are those whose content and MAC are.
impl DerForm for RawPfx {
    ghost Abstract = { Store };

    ghost stands_for = { λ p. p };

    ghost form = { pfx };

    ghost same_value = { λ _ _ e. e };
}

#[tactic(auto, unfolding(crate::specs::Pfx::version))]
fn read_version(alloc: Global, reader: &mut DerReader<'_>) -> Result<u8, DerError>
    ensures { Reads (λ n. n) version.reading reader.old result reader.new }
{
    u8::read_der(alloc, reader)
}

impl DerRecord for RawPfx {
    ghost fields = { fields_by (λ x. x) pfx_fields };

    #[tactic(auto, unfolding(crate::specs::Pfx::pfx_fields))]
    fn read_fields(alloc: Global, reader: &mut DerReader<'_>) -> Result<RawPfx, DerError> {
        let version = read_version(alloc, reader)?;
        let auth_safe = RawAuthenticatedSafe::read_der(alloc, reader)?;
        match read_optional(alloc, reader) {
            Ok(mac_data) => Ok(RawPfx {
                version,
                auth_safe,
                mac_data,
            }),
            Err(fault) => {
                drop(auth_safe);
                Err(fault)
            }
        }
    }

    #[tactic(auto, unfolding(crate::specs::Pfx::pfx_fields, crate::specs::Pfx::version))]
    fn write_fields(&self, alloc: Global, out: &mut Vec<u8>) -> Result<(), DerError> {
        self.version.write_der(alloc, out)?;
        self.auth_safe.write_der(alloc, out)?;
        write_optional(alloc, &self.mac_data, out)
    }
}

impl DerRead for RawPfx {
    #[tactic(auto, unfolding(crate::specs::Pfx::pfx))]
    fn begins_with(tag: Tag) -> bool {
        tag == Tag::SEQUENCE
    }

    #[tactic(auto, unfolding(crate::specs::Pfx::pfx))]
    fn read_der(alloc: Global, reader: &mut DerReader<'_>) -> Result<RawPfx, DerError> {
        read_record(alloc, reader)
    }

    ghost readable = { pfx_lawful.readable };
}

impl DerWrite for RawPfx {
    #[tactic(auto, unfolding(crate::specs::Pfx::pfx))]
    fn write_der(&self, alloc: Global, out: &mut Vec<u8>) -> Result<(), DerError> {
        write_record(alloc, self, out)
    }

    ghost writable = { pfx_lawful.writable };
}
