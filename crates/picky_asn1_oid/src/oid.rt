// Object identifiers.
ghost use Rattle.std.specs.Prelude.{◌≡◌, ℕ, List, IfOk, string_bytes, nat_eq};
ghost use Rattle.std.proofs.Common.{rules};
ghost use Rattle.std.specs.Cmp.Lexicographic.{pointwise};
ghost use Rattle.std.specs.Cmp.Rules.{comparing};
ghost use Rattle.picky_contract.specs.Refusals.{Meets, OkOrMemory};
ghost use Rattle.picky_asn1_oid.specs.Arcs.{IsArcs, contents_of, text_of};

use crate::{contents, text};
use picky_asn1_tag::{Asn1Value, CopyIn};
use std::alloc::{AllocError, AllocFailed, Global};
use std::marker::Model;

/// Why a text or contents octets are refused.
#[derive(Debug, Drop, PartialEq, Eq, thiserror::Error)]
pub enum OidError {
    /// The text isn't two or more arcs in decimal without leading zeros, joined by dots.
    #[error("the text isn't an object identifier")]
    BadText,
    /// The bytes aren't the contents of an identifier.
    #[error("the bytes aren't the contents of an object identifier")]
    BadContents,
    /// Memory ran out.
    #[error("out of memory")]
    OutOfMemory,
}

impl From<AllocError> for OidError {
    ghost use Rattle.std.specs.Prelude.{◌≡◌};
    ghost use Rattle.picky_asn1_oid.specs.declared.oid.OidError.TheVariants.{OutOfMemory};

    ghost from_gives = { λ _ e. e ≡ OutOfMemory };

    fn from(_error: AllocError) -> OidError {
        OidError::OutOfMemory
    }
}

impl<T: Drop> From<AllocFailed<T>> for OidError {
    ghost use Rattle.std.specs.Prelude.{◌≡◌};
    ghost use Rattle.picky_asn1_oid.specs.declared.oid.OidError.TheVariants.{OutOfMemory};

    ghost from_gives = { λ _ e. e ≡ OutOfMemory };

    fn from(_error: AllocFailed<T>) -> OidError {
        OidError::OutOfMemory
    }
}

/// An object identifier: two or more arcs of at most 128 bits, with its contents octets.
#[derive(Debug, Drop)]
pub struct ObjectIdentifier {
    arcs: Vec<u128>,
    contents: Vec<u8>,
}

impl Model for ObjectIdentifier {
    ghost use Rattle.std.specs.Prelude.{◌≡◌, ℕ, List};
    ghost use Rattle.picky_asn1_oid.specs.Arcs.{IsArcs, contents_of};

    ghost Value = { List ℕ };

    ghost view = { λ o. o.arcs.items };

    ghost invariant = { λ o. IsArcs o.arcs.items × (o.contents.items ≡ contents_of o.arcs.items) };
}

impl ObjectIdentifier {
    ghost use Rattle.picky_asn1_oid.specs.Fault.{fault, text_table, contents_table, IsTextOf, IsContentsOf};

    /// The identifier of a dotted text such as `1.2.840.113549`. Refused as `BadText` exactly where the text isn't
    /// that of an identifier whose arcs fit 128 bits, and so does 40 times the first with the second.
    #[tactic(auto, unfolding(crate::specs::Fault::text_table))]
    pub fn from_text(alloc: Global, text: &str) -> Result<ObjectIdentifier, OidError>
        ensures found { IfOk result (IsTextOf text.now) }
        ensures every { (arcs : List ℕ) → IsTextOf text.now arcs → OkOrMemory (λ o. o) fault result arcs }
        ensures first { Meets (λ o. o) fault result (text_table text.now) }
    {
        let Some(arcs) = text::arcs_of(alloc, text)? else {
            return Err(OidError::BadText);
        };
        let contents = contents::contents_of(alloc, &arcs)?;
        Ok(ObjectIdentifier { arcs, contents })
    }

    /// The identifier of these contents octets (X.690 section 8.19). Refused as `BadContents` exactly where they
    /// aren't those of an identifier whose arcs fit 128 bits, and so does 40 times the first with the second, each number
    /// in its shortest form.
    #[tactic(auto, unfolding(crate::specs::Fault::contents_table))]
    pub fn from_contents(alloc: Global, bytes: &[u8]) -> Result<ObjectIdentifier, OidError>
        ensures found { IfOk result (IsContentsOf bytes.now) }
        ensures every { (arcs : List ℕ) → IsContentsOf bytes.now arcs → OkOrMemory (λ o. o) fault result arcs }
        ensures first { Meets (λ o. o) fault result (contents_table bytes.now) }
    {
        let Some(arcs) = contents::arcs_of(alloc, bytes)? else {
            return Err(OidError::BadContents);
        };
        let contents = Vec::from_slice(alloc, bytes)?;
        Ok(ObjectIdentifier { arcs, contents })
    }

    /// The contents octets.
    pub fn contents(&self) -> &[u8]
        ensures value { result.now ≡ contents_of self.now }
        ensures arcs { IsArcs self.now }
    {
        self.contents.as_slice()
    }

    /// The arcs in decimal, joined by dots. Refused for want of memory alone.
    pub fn to_text(&self, alloc: Global) -> Result<String, AllocError>
        ensures { IfOk result (λ text. string_bytes text ≡ text_of self.now) }
    {
        text::text_of(alloc, &self.arcs)
    }

    /// A copy, in memory of its own.
    pub fn clone(&self, alloc: Global) -> Result<ObjectIdentifier, AllocError>
        ensures { IfOk result (λ copy. copy ≡ self.now) }
    {
        let arcs = Vec::from_slice(alloc, &self.arcs)?;
        let contents = Vec::from_slice(alloc, &self.contents)?;
        Ok(ObjectIdentifier { arcs, contents })
    }
}

impl PartialEq for ObjectIdentifier {
    ghost eq = { pointwise nat_eq };

    ghost laws = { Prim.search (comparing, rules) };

    fn eq(&self, other: &ObjectIdentifier) -> bool {
        self.arcs.as_slice() == other.arcs.as_slice()
    }
}

impl Eq for ObjectIdentifier {
    ghost laws = { Prim.search (comparing, rules) };
}

impl Asn1Value for ObjectIdentifier {
    ghost Meaning = { List ℕ };

    ghost meaning = { λ o. o };
}

impl CopyIn for ObjectIdentifier {
    fn copy_in(&self, alloc: Global) -> Result<ObjectIdentifier, AllocError> {
        self.clone(alloc)
    }
}
