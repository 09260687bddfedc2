// The traits of ASN.1 values on these types.
ghost use Rattle.std.specs.Prelude.{◌≡◌, ℕ, List, [], ◌∷◌};
ghost use Rattle.std.proofs.Common.{arith};
ghost use Rattle.picky_asn1_tag.specs.Default.{one_default};

use crate::bit_string::BitString;
use crate::integer::IntegerAsn1;
use crate::octet_string::OctetStringAsn1;
use picky_asn1_tag::{Asn1Type, Asn1Value, CopyIn, Empty, Tag};
use picky_contract::Bytes;
use std::alloc::{AllocError, Global};

impl Asn1Value for BitString {
    ghost Meaning = { List ℕ };

    ghost meaning = { λ b. b };
}

impl CopyIn for BitString {
    fn copy_in(&self, alloc: Global) -> Result<BitString, AllocError> {
        self.clone(alloc)
    }
}

/// No bits.
impl Empty for BitString {
    ghost IsDefault = { λ b. b ≡ 0 ∷ [] };

    fn empty(alloc: Global) -> Result<BitString, AllocError> {
        BitString::with_bytes(alloc, Vec::new(alloc))
    }

    ghost one_default = { one_default (0 ∷ []) };
}

impl Asn1Type for IntegerAsn1 {
    ghost TAG = { record { 0 = 2 } };

    const TAG: Tag = Tag::INTEGER;

    const NAME: &'static str = "IntegerAsn1";

    ghost one_byte = { λ h. absurd (Prim.omega arith) };
}

impl Asn1Value for IntegerAsn1 {
    ghost Meaning = { List ℕ };

    ghost meaning = { λ v. v.0 };
}

impl CopyIn for IntegerAsn1 {
    fn copy_in(&self, alloc: Global) -> Result<IntegerAsn1, AllocError> {
        self.clone(alloc)
    }
}

/// Zero, with no byte.
impl Empty for IntegerAsn1 {
    ghost IsDefault = { λ v. v.0 ≡ [] };

    fn empty(alloc: Global) -> Result<IntegerAsn1, AllocError> {
        Ok(IntegerAsn1(Bytes::new(Vec::new(alloc))))
    }

    ghost one_default = { λ x y. one_default [] x.0 y.0 };
}

impl Asn1Type for OctetStringAsn1 {
    ghost TAG = { record { 0 = 4 } };

    const TAG: Tag = Tag::OCTET_STRING;

    const NAME: &'static str = "OctetStringAsn1";

    ghost one_byte = { λ h. absurd (Prim.omega arith) };
}

impl Asn1Value for OctetStringAsn1 {
    ghost Meaning = { List ℕ };

    ghost meaning = { λ v. v.0 };
}

impl CopyIn for OctetStringAsn1 {
    fn copy_in(&self, alloc: Global) -> Result<OctetStringAsn1, AllocError> {
        self.clone(alloc)
    }
}

/// No byte.
impl Empty for OctetStringAsn1 {
    ghost IsDefault = { λ v. v.0 ≡ [] };

    fn empty(alloc: Global) -> Result<OctetStringAsn1, AllocError> {
        Ok(OctetStringAsn1(Bytes::new(Vec::new(alloc))))
    }

    ghost one_default = { λ x y. one_default [] x.0 y.0 };
}
