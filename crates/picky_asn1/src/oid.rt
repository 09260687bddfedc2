//! Object identifiers.

pub use picky_asn1_oid::{ObjectIdentifier, OidError};
