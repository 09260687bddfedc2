//! Whole numbers and octet strings.

pub use picky_asn1_bits::{IntegerAsn1, OctetStringAsn1};
