// Object identifiers under their tag.
ghost use Rattle.std.specs.Prelude.{◌≡◌, ℕ, List, IfOk};
ghost use Rattle.std.proofs.Common.{arith};
ghost use Rattle.picky_der.specs.Primitive.{primitive_form};
ghost use Rattle.picky_der.specs.Identifier.{identifier_contents};
ghost use Rattle.picky_der.specs.laws.Identifier.{identifier_readable, identifier_writable, identifier_tagged};

use picky_asn1_oid::ObjectIdentifier;
use picky_asn1_tag::{Asn1Type, Asn1Value, CopyIn, Tag};
use picky_der::{DerError, DerForm, DerRead, DerReader, DerTagged, DerWrite};
use std::alloc::{AllocError, Global};
use std::ops::{Deref, DerefMut};

/// An OBJECT IDENTIFIER under its tag: its contents are numbers in groups of seven bits, one for the first two
/// arcs and one for each further arc (X.690 section 8.19).
///
/// Reading answers `BadValue` exactly where the contents aren't those of an identifier whose numbers fit 128 bits, each in
/// its shortest form.
#[derive(Debug, Drop, PartialEq, Eq)]
pub struct ObjectIdentifierAsn1(pub ObjectIdentifier);

impl From<ObjectIdentifier> for ObjectIdentifierAsn1 {
    ghost from_gives = { λ identifier wrapped. wrapped.0 ≡ identifier };

    fn from(identifier: ObjectIdentifier) -> ObjectIdentifierAsn1 {
        ObjectIdentifierAsn1(identifier)
    }
}

impl From<ObjectIdentifierAsn1> for ObjectIdentifier {
    ghost from_gives = { λ wrapped identifier. identifier ≡ wrapped.0 };

    fn from(wrapped: ObjectIdentifierAsn1) -> ObjectIdentifier {
        let ObjectIdentifierAsn1(identifier) = wrapped;
        identifier
    }
}

impl Deref for ObjectIdentifierAsn1 {
    type Target = ObjectIdentifier;

    ghost deref_gives = { λ wrapped identifier. identifier ≡ wrapped.0 };

    fn deref(&self) -> &ObjectIdentifier {
        &self.0
    }
}

impl DerefMut for ObjectIdentifierAsn1 {
    ghost use Rattle.std.specs.Prelude.{◌≡◌};
    ghost use Rattle.std.specs.Borrow.{Lends, sem};
    ghost use Rattle.picky_asn1_oid.specs.contracts.oid.ObjectIdentifier as identifier;
    ghost use Rattle.picky_asn1_simple.specs.contracts.object_identifier.ObjectIdentifierAsn1.{the_row};

    ghost deref_mut_gives = { λ wrapped identifier. identifier ≡ wrapped.0 };

    /// The identifier, to be changed in place.
    fn deref_mut(&mut self) -> &mut ObjectIdentifier
        ensures* writes_back { sem 𝓛 (Lends the_row identifier.the_row self.entry result (λ o. record { 0 = o })) }
        ensures shows { result.now ≡ self.old.0 }
    {
        &mut self.0
    }
}

impl ObjectIdentifierAsn1 {
    /// A copy, in memory of its own.
    pub fn clone(&self, alloc: Global) -> Result<ObjectIdentifierAsn1, AllocError>
        ensures { IfOk result (λ copy. copy ≡ self.now) }
    {
        Ok(ObjectIdentifierAsn1(self.0.clone(alloc)?))
    }
}

impl Asn1Type for ObjectIdentifierAsn1 {
    ghost TAG = { record { 0 = 6 } };

    const TAG: Tag = Tag::OID;

    const NAME: &'static str = "ObjectIdentifierAsn1";

    ghost one_byte = { λ h. absurd (Prim.omega arith) };
}

impl Asn1Value for ObjectIdentifierAsn1 {
    ghost Meaning = { List ℕ };

    ghost meaning = { λ wrapped. wrapped.0 };
}

impl CopyIn for ObjectIdentifierAsn1 {
    fn copy_in(&self, alloc: Global) -> Result<ObjectIdentifierAsn1, AllocError> {
        self.clone(alloc)
    }
}

impl DerForm for ObjectIdentifierAsn1 {
    ghost Abstract = { List ℕ };

    ghost stands_for = { λ wrapped. wrapped.0 };

    ghost form = { primitive_form (record { 0 = 6 }) identifier_contents };

    ghost same_value = { λ _ _ e. e };
}

impl DerRead for ObjectIdentifierAsn1 {
    fn begins_with(tag: Tag) -> bool {
        ObjectIdentifier::begins_with(tag)
    }

    fn read_der(
        alloc: Global,
        reader: &mut DerReader<'_>,
    ) -> Result<ObjectIdentifierAsn1, DerError> {
        Ok(ObjectIdentifierAsn1(ObjectIdentifier::read_der(alloc, reader)?))
    }

    ghost readable = { identifier_readable };
}

impl DerWrite for ObjectIdentifierAsn1 {
    fn write_der(&self, alloc: Global, out: &mut Vec<u8>) -> Result<(), DerError> {
        self.0.write_der(alloc, out)
    }

    ghost writable = { identifier_writable };
}

impl DerTagged for ObjectIdentifierAsn1 {
    ghost tagged = { identifier_tagged };
}
