//! Bit strings.

pub use picky_asn1_bits::BitString;
