// Values in a BIT STRING or an OCTET STRING.
ghost use Rattle.std.specs.Prelude.{◌≡◌, IfOk};
ghost use Rattle.std.proofs.Common.{arith};
ghost use Rattle.picky_asn1_wrapper.specs.Enclosed.{enclosed_form, enclosed_at, bits_form, bits_at};
ghost use Rattle.picky_asn1_wrapper.specs.laws.Enclosed.{enclosed_readable, enclosed_writable, enclosed_tagged, bits_readable, bits_writable, bits_tagged};

use picky_asn1_tag::{Asn1Type, Asn1Value, CopyIn, Empty, Tag};
use picky_der::{DerError, DerForm, DerRead, DerReader, DerTagged, DerWrite, write_value};
use std::alloc::{AllocError, Global};
use std::ops::{Deref, DerefMut};

/// An OCTET STRING whose octets are the encoding of a value.
#[derive(Debug, Drop, PartialEq, Eq, PartialOrd, Hash)]
pub struct OctetStringAsn1Container<T>(pub T);

/// A BIT STRING of whole bytes that are the encoding of a value.
#[derive(Debug, Drop, PartialEq, Eq, PartialOrd, Hash)]
pub struct BitStringAsn1Container<T>(pub T);

impl<T> Asn1Type for OctetStringAsn1Container<T> {
    ghost TAG = { record { 0 = 4 } };

    const TAG: Tag = Tag::OCTET_STRING;

    const NAME: &'static str = "OctetStringAsn1Container";

    ghost one_byte = { λ h. absurd (Prim.omega arith) };
}

impl<T> From<T> for OctetStringAsn1Container<T> {
    ghost from_gives = { λ value container. container.0 ≡ value };

    fn from(value: T) -> OctetStringAsn1Container<T> {
        OctetStringAsn1Container(value)
    }
}

impl<T> Deref for OctetStringAsn1Container<T> {
    type Target = T;

    ghost deref_gives = { λ container value. value ≡ container.0 };

    fn deref(&self) -> &T {
        &self.0
    }
}

impl<T> DerefMut for OctetStringAsn1Container<T> {
    ghost use Rattle.std.specs.Prelude.{◌≡◌};
    ghost use Rattle.std.specs.Borrow.{Lends, sem};
    ghost use Rattle.picky_asn1_wrapper.specs.contracts.container.OctetStringAsn1Container.{the_row};

    ghost deref_mut_gives = { λ container value. value ≡ container.0 };

    /// The value, to be changed in place.
    fn deref_mut(&mut self) -> &mut T
        ensures* writes_back { sem 𝓛 (Lends (the_row T.row) T.row self.entry result (λ value. record { 0 = value })) }
        ensures shows { result.now ≡ self.old.0 }
    {
        &mut self.0
    }
}

impl<T: Asn1Value> Asn1Value for OctetStringAsn1Container<T> {
    ghost Meaning = { T.Meaning };

    ghost meaning = { λ container. T.meaning container.0 };
}

impl<T: CopyIn> OctetStringAsn1Container<T> {
    /// A copy, in memory of its own: the value in it means the same.
    pub fn clone(&self, alloc: Global) -> Result<OctetStringAsn1Container<T>, AllocError>
        ensures { IfOk result (λ copy. T.meaning copy.0 ≡ T.meaning self.now.0) }
    {
        Ok(OctetStringAsn1Container(self.0.copy_in(alloc)?))
    }
}

impl<T: CopyIn> CopyIn for OctetStringAsn1Container<T> {
    fn copy_in(&self, alloc: Global) -> Result<OctetStringAsn1Container<T>, AllocError> {
        self.clone(alloc)
    }
}

impl<T: Empty> Empty for OctetStringAsn1Container<T> {
    ghost IsDefault = { λ container. T.IsDefault container.0 };

    fn empty(alloc: Global) -> Result<OctetStringAsn1Container<T>, AllocError> {
        Ok(OctetStringAsn1Container(T::empty(alloc)?))
    }

    ghost one_default = { λ x y p. T.one_default x.0 y.0 p };
}

impl<T: DerForm> DerForm for OctetStringAsn1Container<T> {
    ghost Abstract = { T.Abstract };

    ghost stands_for = { λ container. T.stands_for container.0 };

    ghost form = { enclosed_form (record { 0 = 4 }) T.form };

    ghost same_value = { λ x y e. T.same_value x.0 y.0 e };
}

impl<T: DerRead + Drop> DerRead for OctetStringAsn1Container<T> {
    fn begins_with(tag: Tag) -> bool {
        tag == Tag::OCTET_STRING
    }

    #[tactic(auto, unfolding(crate::specs::Enclosed::enclosed_at))]
    fn read_der(
        alloc: Global,
        reader: &mut DerReader<'_>,
    ) -> Result<OctetStringAsn1Container<T>, DerError> {
        let mut ahead = reader.fork();
        let mut inner = ahead.nested(Tag::OCTET_STRING)?;
        let value = T::read_der(alloc, &mut inner)?;
        inner.end()?;
        *reader = ahead;
        Ok(OctetStringAsn1Container(value))
    }

    ghost readable = { enclosed_readable T.form T.readable (record { 0 = 4 }) };
}

impl<T: DerWrite> DerWrite for OctetStringAsn1Container<T> {
    fn write_der(&self, alloc: Global, out: &mut Vec<u8>) -> Result<(), DerError> {
        let mut contents = Vec::new(alloc);
        self.0.write_der(alloc, &mut contents)?;
        write_value(out, Tag::OCTET_STRING, &contents)
    }

    ghost writable = { enclosed_writable T.form T.writable (record { 0 = 4 }) (λ h. absurd (Prim.omega arith)) };
}

impl<T: DerRead + DerWrite + Drop> DerTagged for OctetStringAsn1Container<T> {
    ghost tagged = { enclosed_tagged T.form (record { 0 = 4 }) };
}

impl<T> Asn1Type for BitStringAsn1Container<T> {
    ghost TAG = { record { 0 = 3 } };

    const TAG: Tag = Tag::BIT_STRING;

    const NAME: &'static str = "BitStringAsn1Container";

    ghost one_byte = { λ h. absurd (Prim.omega arith) };
}

impl<T> From<T> for BitStringAsn1Container<T> {
    ghost from_gives = { λ value container. container.0 ≡ value };

    fn from(value: T) -> BitStringAsn1Container<T> {
        BitStringAsn1Container(value)
    }
}

impl<T> Deref for BitStringAsn1Container<T> {
    type Target = T;

    ghost deref_gives = { λ container value. value ≡ container.0 };

    fn deref(&self) -> &T {
        &self.0
    }
}

impl<T> DerefMut for BitStringAsn1Container<T> {
    ghost use Rattle.std.specs.Prelude.{◌≡◌};
    ghost use Rattle.std.specs.Borrow.{Lends, sem};
    ghost use Rattle.picky_asn1_wrapper.specs.contracts.container.BitStringAsn1Container.{the_row};

    ghost deref_mut_gives = { λ container value. value ≡ container.0 };

    /// The value, to be changed in place.
    fn deref_mut(&mut self) -> &mut T
        ensures* writes_back { sem 𝓛 (Lends (the_row T.row) T.row self.entry result (λ value. record { 0 = value })) }
        ensures shows { result.now ≡ self.old.0 }
    {
        &mut self.0
    }
}

impl<T: Asn1Value> Asn1Value for BitStringAsn1Container<T> {
    ghost Meaning = { T.Meaning };

    ghost meaning = { λ container. T.meaning container.0 };
}

impl<T: CopyIn> BitStringAsn1Container<T> {
    /// A copy, in memory of its own: the value in it means the same.
    pub fn clone(&self, alloc: Global) -> Result<BitStringAsn1Container<T>, AllocError>
        ensures { IfOk result (λ copy. T.meaning copy.0 ≡ T.meaning self.now.0) }
    {
        Ok(BitStringAsn1Container(self.0.copy_in(alloc)?))
    }
}

impl<T: CopyIn> CopyIn for BitStringAsn1Container<T> {
    fn copy_in(&self, alloc: Global) -> Result<BitStringAsn1Container<T>, AllocError> {
        self.clone(alloc)
    }
}

impl<T: Empty> Empty for BitStringAsn1Container<T> {
    ghost IsDefault = { λ container. T.IsDefault container.0 };

    fn empty(alloc: Global) -> Result<BitStringAsn1Container<T>, AllocError> {
        Ok(BitStringAsn1Container(T::empty(alloc)?))
    }

    ghost one_default = { λ x y p. T.one_default x.0 y.0 p };
}

impl<T: DerForm> DerForm for BitStringAsn1Container<T> {
    ghost Abstract = { T.Abstract };

    ghost stands_for = { λ container. T.stands_for container.0 };

    ghost form = { bits_form (record { 0 = 3 }) T.form };

    ghost same_value = { λ x y e. T.same_value x.0 y.0 e };
}

impl<T: DerRead + Drop> DerRead for BitStringAsn1Container<T> {
    fn begins_with(tag: Tag) -> bool {
        tag == Tag::BIT_STRING
    }

    #[tactic(auto, unfolding(crate::specs::Enclosed::bits_at))]
    fn read_der(
        alloc: Global,
        reader: &mut DerReader<'_>,
    ) -> Result<BitStringAsn1Container<T>, DerError> {
        let mut ahead = reader.fork();
        let mut inner = ahead.nested_bits(Tag::BIT_STRING)?;
        let value = T::read_der(alloc, &mut inner)?;
        inner.end()?;
        *reader = ahead;
        Ok(BitStringAsn1Container(value))
    }

    ghost readable = { bits_readable T.form T.readable (record { 0 = 3 }) };
}

impl<T: DerWrite> DerWrite for BitStringAsn1Container<T> {
    fn write_der(&self, alloc: Global, out: &mut Vec<u8>) -> Result<(), DerError> {
        let mut contents = Vec::new(alloc);
        contents.push(0)?;
        self.0.write_der(alloc, &mut contents)?;
        write_value(out, Tag::BIT_STRING, &contents)
    }

    ghost writable = { bits_writable T.form T.writable (record { 0 = 3 }) (λ h. absurd (Prim.omega arith)) };
}

impl<T: DerRead + DerWrite + Drop> DerTagged for BitStringAsn1Container<T> {
    ghost tagged = { bits_tagged T.form (record { 0 = 3 }) };
}
