//! Bit strings, whole numbers and octet strings of ASN.1 (X.690 sections 8.3, 8.6 and 8.7).
//!
//! - [`BitString`]: a count of unused bits and a payload.
//! - [`IntegerAsn1`]: a whole number in two's complement.
//! - [`OctetStringAsn1`]: bytes.
//! - [`laws`]: what is proved of them beside their calls.
#![tactic(auto)]

mod bit_string;
mod integer;
pub mod laws;
mod octet_string;
mod values;

pub use bit_string::BitString;
pub use integer::IntegerAsn1;
pub use octet_string::OctetStringAsn1;
