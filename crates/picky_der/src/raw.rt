// A value of any type, kept as its bytes.
ghost use Rattle.std.specs.Prelude.{◌≡◌, List, ℕ, Ok, OnOk, IfOk, IfErr};
ghost use Rattle.picky_der.specs.Reading.{IsOfBytes, Answers, raw_at};
ghost use Rattle.picky_der.specs.Form.{IsOneValue};
ghost use Rattle.picky_der.specs.Raw.{raw_form, raw_whole};
ghost use Rattle.picky_der.specs.laws.Raw.{raw_readable, raw_writable};

use crate::fault::DerError;
use crate::form::{DerForm, DerRead, DerWrite};
use crate::reader::DerReader;
use picky_asn1_tag::{Asn1Value, CopyIn, Tag};
use picky_contract::Bytes;
use std::alloc::{AllocError, Global};
use std::marker::Model;

/// One value of any type, kept as its bytes: a header with a definite length in its fewest bytes, and the contents.
/// Contracts see it as the bytes.
#[derive(Debug, Drop, PartialEq, Eq)]
pub struct Asn1RawDer {
    bytes: Bytes,
}

impl Model for Asn1RawDer {
    ghost use Rattle.std.specs.Prelude.{ℕ, List};
    ghost use Rattle.picky_der.specs.Form.{IsOneValue};

    ghost Value = { List ℕ };

    ghost view = { λ r. r.bytes };

    ghost invariant = { λ r. IsOneValue r.bytes };

    ghost inverse = { λ bytes. record { bytes = bytes } };
}

#[tactic(auto, unfolding(crate::specs::Raw::raw_whole))]
fn look_at(bytes: &[u8]) -> Result<(), DerError>
    ensures answers { Answers (λ _. bytes.now) result (raw_whole bytes.now) }
    ensures one { OnOk result (IsOneValue bytes.now) }
    ensures no_memory { IfErr result IsOfBytes }
{
    let mut reader = DerReader::new(bytes);
    reader.read_raw()?;
    reader.end()
}

impl Asn1RawDer {
    /// These bytes, which are one value, without taking memory.
    ///
    /// A refusal is the fault at the first bad place, or `TrailingBytes` where bytes follow the value.
    pub fn new(bytes: Vec<u8>) -> Result<Asn1RawDer, DerError>
        ensures first { Answers (λ x. x) result (raw_whole bytes.items) }
        ensures one { IfOk result IsOneValue }
        ensures no_memory { IfErr result IsOfBytes }
    {
        look_at(&bytes)?;
        Ok(Asn1RawDer {
            bytes: Bytes::new(bytes),
        })
    }

    /// The bytes.
    pub fn as_bytes(&self) -> &[u8]
        ensures bytes { result.now ≡ self.now }
        ensures one { IsOneValue result.now }
    {
        self.bytes.as_slice()
    }

    /// A copy, in memory of its own.
    pub fn clone(&self, alloc: Global) -> Result<Asn1RawDer, AllocError>
        ensures { IfOk result (λ copy. copy ≡ self.now) }
    {
        Ok(Asn1RawDer {
            bytes: self.bytes.clone(alloc)?,
        })
    }
}

impl Asn1Value for Asn1RawDer {
    ghost Meaning = { List ℕ };

    ghost meaning = { λ x. x };
}

impl CopyIn for Asn1RawDer {
    fn copy_in(&self, alloc: Global) -> Result<Asn1RawDer, AllocError> {
        self.clone(alloc)
    }
}

impl DerForm for Asn1RawDer {
    ghost Abstract = { List ℕ };

    ghost stands_for = { λ x. x };

    ghost form = { raw_form };

    ghost same_value = { λ _ _ e. e };
}

impl DerRead for Asn1RawDer {
    fn begins_with(tag: Tag) -> bool {
        tag.0 % 32 != 31
    }

    fn read_der(alloc: Global, reader: &mut DerReader<'_>) -> Result<Asn1RawDer, DerError> {
        let mut ahead = reader.fork();
        let raw = ahead.read_raw()?;
        let bytes = Bytes::new(Vec::from_slice(alloc, raw)?);
        *reader = ahead;
        Ok(Asn1RawDer { bytes })
    }

    ghost readable = { raw_readable };
}

impl DerWrite for Asn1RawDer {
    fn write_der(&self, _alloc: Global, out: &mut Vec<u8>) -> Result<(), DerError> {
        out.extend_from_slice(self.as_bytes())?;
        Ok(())
    }

    ghost writable = { raw_writable };
}
