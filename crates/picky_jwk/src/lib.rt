//! JSON Web Keys and their sets (RFC 7517), both ways: between texts and values, and between values and public keys.
#![tactic(auto)]

mod copy;
mod fill;
mod jwk;
mod key;
pub mod laws;
mod read;
mod set;
mod written;

pub use jwk::Jwk;
pub use picky_jwk_key::{JwkError, JwkKeyType, JwkPublicEcKey, JwkPublicEdKey, JwkPublicRsaKey};
pub use picky_jwk_names::{
    Jwa, JweAlg, JweEnc, JwkEcPublicKeyCurve, JwkEdPublicKeyAlgorithm, JwkKeyOps, JwkPubKeyUse,
    JwsAlg,
};
pub use set::JwkSet;
