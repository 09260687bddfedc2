//! Object identifiers of ASN.1 (X.660; X.690 section 8.19).
//!
//! - [`ObjectIdentifier`]: arcs, read from and written as dotted text and contents octets.
//! - [`OidError`]: why a text or contents are refused.
//! - [`laws`]: what is proved of identifiers beside their calls.
#![tactic(auto)]

mod contents;
pub mod laws;
mod oid;
mod text;

pub use oid::{ObjectIdentifier, OidError};
