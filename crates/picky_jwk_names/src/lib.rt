//! The names that JSON Web Keys and the headers of tokens use (RFC 7517, RFC 7518, RFC 8037), each kind an enum.
//!
//! Each has `name`, `from_name` and its form in JSON, which is a string.
#![tactic(auto)]

mod alg;
mod curve;
mod edwards;
mod jwa;
mod jwe_alg;
mod jwe_enc;
mod key_ops;
mod key_use;
pub mod laws;

pub use alg::JwsAlg;
pub use curve::JwkEcPublicKeyCurve;
pub use edwards::JwkEdPublicKeyAlgorithm;
pub use jwa::Jwa;
pub use jwe_alg::JweAlg;
pub use jwe_enc::JweEnc;
pub use key_ops::JwkKeyOps;
pub use key_use::JwkPubKeyUse;
