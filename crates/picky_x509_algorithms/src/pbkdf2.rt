// Parameters of PBKDF2.
ghost use Rattle.std.specs.Prelude.{◌≡◌, IfOk};
ghost use Rattle.picky_der.specs.Form.{Writes};
ghost use Rattle.picky_fields.specs.Fields.{SpellsOptional, OptionalRefused};
ghost use Rattle.picky_fields.specs.Records.{fields_by};
ghost use Rattle.picky_x509_algorithms.specs.declared.pbkdf2.Pbkdf2Params.{Pbkdf2Params as Parameters};
ghost use Rattle.picky_x509_algorithms.specs.Prf.{prf as prf_form};
ghost use Rattle.picky_x509_algorithms.specs.Pbkdf2.{without_default, pbkdf2_fields, pbkdf2};
ghost use Rattle.picky_x509_algorithms.specs.laws.Pbkdf2.{pbkdf2_lawful};

use crate::counts::{read_count, read_optional_count};
use crate::prf::Pbkdf2Prf;
use crate::salt::Pbkdf2Salt;
use picky_asn1_tag::{Asn1Value, CopyIn, Tag};
use picky_der::{DerError, DerForm, DerRead, DerReader, DerWrite};
use picky_fields::{
    DerRecord, copy_optional, read_optional, read_record, write_optional, write_record,
};
use std::alloc::{AllocError, Global};

/// Parameters of PBKDF2 (RFC 8018 appendix A.2).
///
/// HMAC with SHA-1 is the default: where it stands, `None` is read, and where it is held, nothing is written.
#[derive(Debug, Drop)]
pub struct Pbkdf2Params {
    /// The salt.
    pub salt: Pbkdf2Salt,
    /// How many iterations.
    pub iteration_count: u32,
    /// The size of the key in bytes, where it is said.
    pub key_length: Option<u32>,
    /// The pseudorandom function; HMAC with SHA-1 where there is none.
    pub prf: Option<Pbkdf2Prf>,
}

impl Pbkdf2Params {
    /// A copy, in memory of its own.
    #[tactic(auto, using(picky_fields::specs::laws::Copies::copied_option))]
    pub fn clone(&self, alloc: Global) -> Result<Pbkdf2Params, AllocError>
        ensures { IfOk result (λ copy. copy ≡ self.now) }
    {
        let salt = self.salt.clone(alloc)?;
        match copy_optional(alloc, &self.prf) {
            Ok(prf) => Ok(Pbkdf2Params {
                salt,
                iteration_count: self.iteration_count,
                key_length: self.key_length,
                prf,
            }),
            Err(fault) => {
                drop(salt);
                Err(fault)
            }
        }
    }
}

impl Asn1Value for Pbkdf2Params {
    ghost Meaning = { Parameters };

    ghost meaning = { λ p. p };
}

impl CopyIn for Pbkdf2Params {
    fn copy_in(&self, alloc: Global) -> Result<Pbkdf2Params, AllocError> {
        self.clone(alloc)
    }
}

/// In form are those whose prf, where there is one, is in form and isn't HMAC with SHA-1.
impl DerForm for Pbkdf2Params {
    ghost Abstract = { Parameters };

    ghost stands_for = { λ p. p };

    ghost form = { pbkdf2 };

    ghost same_value = { λ _ _ e. e };
}

fn without_default(prf: Option<Pbkdf2Prf>) -> Option<Pbkdf2Prf>
    ensures { result ≡ without_default prf }
{
    match prf {
        Some(Pbkdf2Prf::HmacWithSha1) => None,
        other => other,
    }
}

// The prf where there is one beside the default, else nothing.
fn write_prf(alloc: Global, prf: &Option<Pbkdf2Prf>, out: &mut Vec<u8>) -> Result<(), DerError>
    ensures { Writes (λ s. SpellsOptional prf_form.Encodes s (without_default prf.now)) (OptionalRefused prf_form.Refused (without_default prf.now)) result out.old.items out.new.items }
{
    match prf {
        None => Ok(()),
        Some(Pbkdf2Prf::HmacWithSha1) => Ok(()),
        Some(prf) => prf.write_der(alloc, out),
    }
}

impl DerRecord for Pbkdf2Params {
    ghost fields = { fields_by (λ x. x) pbkdf2_fields };

    #[tactic(auto, unfolding(crate::specs::Pbkdf2::pbkdf2_fields))]
    fn read_fields(alloc: Global, reader: &mut DerReader<'_>) -> Result<Pbkdf2Params, DerError> {
        let salt = Pbkdf2Salt::read_der(alloc, reader)?;
        let iteration_count = match read_count(alloc, reader) {
            Ok(iteration_count) => iteration_count,
            Err(fault) => {
                drop(salt);
                return Err(fault);
            }
        };
        let key_length = match read_optional_count(alloc, reader) {
            Ok(key_length) => key_length,
            Err(fault) => {
                drop(salt);
                return Err(fault);
            }
        };
        match read_optional(alloc, reader) {
            Ok(prf) => Ok(Pbkdf2Params {
                salt,
                iteration_count,
                key_length,
                prf: without_default(prf),
            }),
            Err(fault) => {
                drop(salt);
                Err(fault)
            }
        }
    }

    #[tactic(auto, unfolding(crate::specs::Pbkdf2::pbkdf2_fields, crate::specs::Counts::count))]
    fn write_fields(&self, alloc: Global, out: &mut Vec<u8>) -> Result<(), DerError> {
        self.salt.write_der(alloc, out)?;
        self.iteration_count.write_der(alloc, out)?;
        write_optional(alloc, &self.key_length, out)?;
        write_prf(alloc, &self.prf, out)
    }
}

impl DerRead for Pbkdf2Params {
    #[tactic(auto, unfolding(crate::specs::Pbkdf2::pbkdf2))]
    fn begins_with(tag: Tag) -> bool {
        tag == Tag::SEQUENCE
    }

    #[tactic(auto, unfolding(crate::specs::Pbkdf2::pbkdf2))]
    fn read_der(alloc: Global, reader: &mut DerReader<'_>) -> Result<Pbkdf2Params, DerError> {
        read_record(alloc, reader)
    }

    ghost readable = { pbkdf2_lawful.readable };
}

impl DerWrite for Pbkdf2Params {
    #[tactic(auto, unfolding(crate::specs::Pbkdf2::pbkdf2))]
    fn write_der(&self, alloc: Global, out: &mut Vec<u8>) -> Result<(), DerError> {
        write_record(alloc, self, out)
    }

    ghost writable = { pbkdf2_lawful.writable };
}
