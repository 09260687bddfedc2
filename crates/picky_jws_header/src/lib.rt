//! Headers of signed tokens (RFC 7515 section 4.1), both ways between JSON trees and values.
#![tactic(auto)]

mod copy;
mod fill;
mod header;
pub mod laws;
mod read;
mod written;

pub use header::JwsHeader;
