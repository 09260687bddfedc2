//! Tags.

pub use picky_asn1_tag::{Encoding, Tag, TagClass};
