// Octet strings.
ghost use Rattle.std.specs.Prelude.{◌≡◌, ◌++◌, IfOk, Some, codes};
ghost use Rattle.picky_asn1_tag.specs.Hex.{hex_text};

use picky_asn1_tag::HexBytes;
use picky_contract::Bytes;
use std::alloc::{AllocError, Global};
use std::fmt;
use std::ops::{Deref, DerefMut};

/// The bytes of an OCTET STRING.
#[derive(Drop, PartialEq, Eq, PartialOrd, Hash)]
pub struct OctetStringAsn1(pub Bytes);

impl OctetStringAsn1 {
    /// A copy, in memory of its own.
    pub fn clone(&self, alloc: Global) -> Result<OctetStringAsn1, AllocError>
        ensures { IfOk result (λ copy. copy ≡ self.now) }
    {
        Ok(OctetStringAsn1(self.0.clone(alloc)?))
    }
}

impl fmt::Debug for OctetStringAsn1 {
    ghost debug_output = { λ o. Some (codes "OctetString(" ++ hex_text o.0 ++ codes ")") };

    fn fmt<W: fmt::Write>(&self, f: &mut fmt::Formatter<W>) -> fmt::Result {
        write!(f, "OctetString({})", HexBytes(self.0.as_slice()))
    }
}

impl From<Vec<u8>> for OctetStringAsn1 {
    ghost from_gives = { λ v o. o.0 ≡ v.items };

    fn from(bytes: Vec<u8>) -> OctetStringAsn1 {
        OctetStringAsn1(Bytes::new(bytes))
    }
}

impl From<OctetStringAsn1> for Vec<u8> {
    ghost from_gives = { λ o v. v.items ≡ o.0 };

    fn from(octets: OctetStringAsn1) -> Vec<u8> {
        let OctetStringAsn1(bytes) = octets;
        bytes.into_vec()
    }
}

impl Deref for OctetStringAsn1 {
    type Target = Vec<u8>;

    ghost deref_gives = { λ o v. v.items ≡ o.0 };

    fn deref(&self) -> &Vec<u8> {
        self.0.deref()
    }
}

impl DerefMut for OctetStringAsn1 {
    ghost use Rattle.std.specs.Prelude.{◌≡◌};
    ghost use Rattle.std.specs.Borrow.{Lends, sem};
    ghost use Rattle.picky_contract.specs.Rows.{bytes_row};
    ghost use Rattle.picky_asn1_bits.specs.contracts.octet_string.OctetStringAsn1.{the_row};

    ghost deref_mut_gives = { λ o v. v.items ≡ o.0 };

    /// The bytes, to be changed in place.
    fn deref_mut(&mut self) -> &mut Vec<u8>
        ensures* writes_back { sem 𝓛 (Lends the_row bytes_row self.entry result (λ v. record { 0 = v.items })) }
        ensures shows { result.now.items ≡ self.old.0 }
    {
        self.0.deref_mut()
    }
}
