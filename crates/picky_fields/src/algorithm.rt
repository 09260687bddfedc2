// AlgorithmIdentifiers.
#![tactic(auto, unfolding(crate::specs::Algorithm::algorithm, crate::specs::Fields::enclosed_at, crate::specs::Fields::run_at))]

ghost use Rattle.std.specs.Prelude.{◌≡◌, IfOk};
ghost use Rattle.picky_fields.specs.declared.algorithm.AlgorithmIdentifier.{AlgorithmIdentifier as Algorithm};
ghost use Rattle.picky_fields.specs.Algorithm.{algorithm, algorithm_lawful};

use crate::optional::{copy_optional, read_last, write_optional};
use picky_asn1_oid::ObjectIdentifier;
use picky_asn1_tag::{Asn1Value, CopyIn, Tag};
use picky_der::{Asn1RawDer, DerError, DerForm, DerRead, DerReader, DerWrite, write_value};
use std::alloc::{AllocError, Global};

/// An algorithm and its parameters: a SEQUENCE of an OBJECT IDENTIFIER and, where there are parameters, one value of
/// any type (RFC 5280 section 4.1.1.2).
#[derive(Debug, Drop, PartialEq, Eq)]
pub struct AlgorithmIdentifier {
    /// The algorithm.
    pub oid: ObjectIdentifier,
    /// The parameters, one value of any type, NULL too.
    pub parameters: Option<Asn1RawDer>,
}

impl AlgorithmIdentifier {
    /// A copy, in memory of its own.
    #[tactic(auto, using(crate::specs::laws::Copies::copied_option))]
    pub fn clone(&self, alloc: Global) -> Result<AlgorithmIdentifier, AllocError>
        ensures { IfOk result (λ copy. copy ≡ self.now) }
    {
        Ok(AlgorithmIdentifier {
            oid: self.oid.clone(alloc)?,
            parameters: copy_optional(alloc, &self.parameters)?,
        })
    }
}

impl Asn1Value for AlgorithmIdentifier {
    ghost Meaning = { Algorithm };

    ghost meaning = { λ a. a };
}

impl CopyIn for AlgorithmIdentifier {
    fn copy_in(&self, alloc: Global) -> Result<AlgorithmIdentifier, AllocError> {
        self.clone(alloc)
    }
}

/// In form are the arcs of an identifier, with parameters that are one value or none. Each is spelled one way.
impl DerForm for AlgorithmIdentifier {
    ghost Abstract = { Algorithm };

    ghost stands_for = { λ a. a };

    ghost form = { algorithm };

    ghost same_value = { λ _ _ e. e };
}

impl DerRead for AlgorithmIdentifier {
    fn begins_with(tag: Tag) -> bool {
        tag == Tag::SEQUENCE
    }

    fn read_der(alloc: Global, reader: &mut DerReader<'_>) -> Result<Self, DerError> {
        let mut ahead = reader.fork();
        let mut fields = ahead.nested(Tag::SEQUENCE)?;
        let oid = ObjectIdentifier::read_der(alloc, &mut fields)?;
        let parameters = read_last(alloc, &mut fields)?;
        fields.end()?;
        *reader = ahead;
        Ok(AlgorithmIdentifier { oid, parameters })
    }

    ghost readable = { algorithm_lawful.readable };
}

impl DerWrite for AlgorithmIdentifier {
    fn write_der(&self, alloc: Global, out: &mut Vec<u8>) -> Result<(), DerError> {
        let mut fields = Vec::new(alloc);
        self.oid.write_der(alloc, &mut fields)?;
        write_optional(alloc, &self.parameters, &mut fields)?;
        write_value(out, Tag::SEQUENCE, &fields)
    }

    ghost writable = { algorithm_lawful.writable };
}
