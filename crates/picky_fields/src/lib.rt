//! Fields of records in DER: what is read and written of a field that may be left out, of an explicit tag and of a string of octets.
#![tactic(auto)]

mod algorithm;
mod default;
mod explicit;
mod known;
pub mod laws;
mod null;
mod octets;
mod optional;
mod record;

pub use algorithm::AlgorithmIdentifier;
pub use default::{read_default, write_default};
pub use explicit::{
    read_explicit, read_optional_explicit, write_explicit, write_optional_explicit,
};
pub use known::{write_known, write_known_explicit};
pub use null::read_null_or_none;
pub use octets::{read_explicit_octets, read_octets, write_explicit_octets, write_octets};
pub use optional::{copy_optional, read_last, read_optional, write_optional};
pub use record::{DerRecord, read_record, write_record};
