// The salt of PBKDF2.
ghost use Rattle.std.specs.Prelude.{◌≡◌, IfOk};
ghost use Rattle.std.proofs.Common.{ap};
ghost use Rattle.picky_der.specs.Reading.{Gives, tag_at};
ghost use Rattle.picky_x509_algorithms.specs.declared.salt.Pbkdf2Salt.{Pbkdf2Salt as TheSalt};
ghost use Rattle.picky_x509_algorithms.specs.Salt.{SaltValue, salt_parts, salt, salt_lawful};

use picky_asn1_tag::{Asn1Value, CopyIn, Tag};
use picky_contract::Bytes;
use picky_der::{DerError, DerForm, DerRead, DerReader, DerWrite};
use picky_fields::{AlgorithmIdentifier, read_octets, write_octets};
use std::alloc::{AllocError, Global};

/// The salt of PBKDF2 (RFC 8018 appendix A.2).
#[derive(Debug, Drop)]
pub enum Pbkdf2Salt {
    /// These octets.
    Specified(Bytes),
    /// What an algorithm gives.
    OtherSource(AlgorithmIdentifier),
}

impl Pbkdf2Salt {
    /// A copy, in memory of its own.
    pub fn clone(&self, alloc: Global) -> Result<Pbkdf2Salt, AllocError>
        ensures { IfOk result (λ copy. copy ≡ self.now) }
    {
        match self {
            Pbkdf2Salt::Specified(octets) => Ok(Pbkdf2Salt::Specified(octets.clone(alloc)?)),
            Pbkdf2Salt::OtherSource(source) => Ok(Pbkdf2Salt::OtherSource(source.clone(alloc)?)),
        }
    }
}

impl Asn1Value for Pbkdf2Salt {
    ghost Meaning = { TheSalt };

    ghost meaning = { λ s. s };
}

impl CopyIn for Pbkdf2Salt {
    fn copy_in(&self, alloc: Global) -> Result<Pbkdf2Salt, AllocError> {
        self.clone(alloc)
    }
}

/// Each value is in form, and spelled one way.
impl DerForm for Pbkdf2Salt {
    ghost Abstract = { SaltValue };

    ghost stands_for = { salt_parts };

    ghost form = { salt };

    ghost same_value = { λ _ _ e. ap salt_parts e };
}

// The next tag.
#[tactic(auto, unfolding(picky_der::specs::Reading::tag_at))]
fn next_tag(reader: &DerReader<'_>) -> Result<Tag, DerError>
    ensures { Gives (λ tag. tag.0) result (tag_at reader.now.left) }
{
    match reader.peek_tag() {
        Ok(peeker) => Ok(peeker.next_tag),
        Err(fault) => Err(fault),
    }
}

impl DerRead for Pbkdf2Salt {
    #[tactic(auto, unfolding(crate::specs::Salt::salt, picky_fields::specs::Algorithm::algorithm))]
    fn begins_with(tag: Tag) -> bool {
        tag == Tag::SEQUENCE || tag == Tag::OCTET_STRING
    }

    #[tactic(auto, unfolding(crate::specs::Salt::salt, picky_fields::specs::Choice::either_at))]
    fn read_der(alloc: Global, reader: &mut DerReader<'_>) -> Result<Pbkdf2Salt, DerError> {
        if AlgorithmIdentifier::begins_with(next_tag(reader)?) {
            let source = AlgorithmIdentifier::read_der(alloc, reader)?;
            return Ok(Pbkdf2Salt::OtherSource(source));
        }
        Ok(Pbkdf2Salt::Specified(Bytes::new(read_octets(alloc, reader)?)))
    }

    ghost readable = { salt_lawful.readable };
}

impl DerWrite for Pbkdf2Salt {
    #[tactic(auto, unfolding(crate::specs::Salt::salt))]
    fn write_der(&self, alloc: Global, out: &mut Vec<u8>) -> Result<(), DerError> {
        match self {
            Pbkdf2Salt::Specified(octets) => write_octets(octets.as_slice(), out),
            Pbkdf2Salt::OtherSource(source) => source.write_der(alloc, out),
        }
    }

    ghost writable = { salt_lawful.writable };
}
