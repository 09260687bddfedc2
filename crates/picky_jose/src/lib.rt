//! Signed tokens: JSON Web Signatures (RFC 7515) and the claims of JSON Web Tokens (RFC 7519), read and written.
//!
//! - [`RawJws`]: a token that was read and not verified; [`Jws`]: one whose signature holds; [`verify_signature`]: of a text.
//! - [`JwtSig`]: a token whose claims aren't checked; [`CheckedJwtSig`]: one whose dates hold.
//! - [`FromClaims`], [`ToClaims`]: a type that claims are read as, and one that they are written from.
//! - [`JwtDate`], [`JwtValidator`]: which dates hold.
//! - [`signature_algorithm_of`], [`jws_alg_of`]: names of JWS algorithms and signature algorithms.
#![tactic(auto)]

mod algorithm;
mod claims;
mod cut;
mod date;
mod encode;
mod encode_claims;
mod error;
mod from_claims;
mod header;
mod jws;
mod jwt;
pub mod laws;
mod signature;
mod signing;
mod to_claims;

pub use algorithm::{jws_alg_of, signature_algorithm_of};
pub use date::{JwtDate, JwtValidator, no_check_validator};
pub use error::{JwsError, JwtError};
pub use from_claims::FromClaims;
pub use jws::{Jws, OwnedRawJws, RawJws};
pub use jwt::{CheckedJwtSig, CheckedState, Jwt, JwtSig, UncheckedState};
pub use picky_jwk_names::JwsAlg;
pub use picky_jws_header::JwsHeader;
pub use signature::verify_signature;
pub use to_claims::ToClaims;
