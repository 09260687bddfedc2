//! DER (X.690): lengths, a reader, and the traits of values that are written and read.
#![tactic(auto)]

mod fault;
mod form;
mod identifier;
mod integer;
pub mod laws;
mod natural;
mod octet_string;
mod plain;
mod raw;
mod reader;
mod writing;

pub use fault::DerError;
pub use form::{DerForm, DerRead, DerTagged, DerWrite, from_bytes, to_vec};
pub use raw::Asn1RawDer;
pub use reader::{DerReader, TagPeeker, read_length};
pub use writing::write_value;
