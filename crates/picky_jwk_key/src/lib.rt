//! What a JSON Web Key holds of its key (RFC 7518 section 6; RFC 8037 section 2), and public keys made of it and back.
#![tactic(auto)]

mod bytes;
mod convert;
mod error;
mod key;
pub mod laws;

pub use error::JwkError;
pub use key::{JwkKeyType, JwkPublicEcKey, JwkPublicEdKey, JwkPublicRsaKey};
