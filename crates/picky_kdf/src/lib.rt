//! Message authentication and key derivation over SHA-1 and SHA-2: HMAC (RFC 2104), PBKDF2
//! (RFC 8018, section 5.2), the derivation of PKCS #12 (RFC 7292, appendix B.2) and the
//! Concat KDF of JSON Web Encryption (RFC 7518, section 4.6.2).
//!
//! Each call equals its definition in `specs/` by proof; its only refusal is want of memory.
#![tactic(auto)]

mod concat;
mod hash;
mod mac;
mod pkcs12;
mod pkcs5;

pub use concat::concat_kdf;
pub use hash::Pkcs12HashAlgorithm;
pub use mac::hmac;
pub use pkcs5::pbkdf2;
pub use pkcs12::{Pbkdf1Usage, pbkdf1};
