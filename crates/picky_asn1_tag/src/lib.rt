//! Tags of ASN.1 values (X.690 section 8.1.2), and the traits that every ASN.1 value has.
//!
//! - [`Tag`], [`TagClass`], [`Encoding`]: one identifier octet and its parts.
//! - [`Asn1Type`]: the tag and the name of a type.
//! - [`Asn1Value`], [`CopyIn`], [`Empty`]: what a value means, its copy, and a type's default.
//! - [`HexBytes`]: bytes in hexadecimal.
//! - [`laws`]: what is proved of tags beside their calls.
#![tactic(auto)]

mod hex;
pub mod laws;
mod tag;
mod value;

pub use hex::HexBytes;
pub use tag::{Encoding, Tag, TagClass};
pub use value::{Asn1Type, Asn1Value, CopyIn, Empty};
