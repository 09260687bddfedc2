//! Algorithms in the containers of PKCS #12: identifiers, hashes, and the encryption schemes PBES1 and PBES2 with PBKDF2 (RFC 7292
//! appendix C, RFC 8018 appendix A).
//!
//! - [`KnownIdentifier`]: the identifiers that containers know, each with its name in the standard.
//! - [`Pkcs12DigestAlgorithm`], [`Pbkdf2Prf`]: hash functions, and HMAC over them.
//! - [`Pkcs12EncryptionAlgorithm`] with [`Pbes1Params`] or [`Pbes2Params`], and what these hold.
#![tactic(auto)]

mod aes;
mod counts;
mod digest;
mod encryption;
mod hash_name;
mod kdf;
mod known_identifier;
mod pbes1;
mod pbkdf2;
mod prf;
mod salt;
mod writing;

pub use aes::{AesCbcKind, Pbes2Scheme};
pub use counts::{read_count, read_optional_count};
pub use digest::Pkcs12DigestAlgorithm;
pub use encryption::{Pbes2Params, Pkcs12EncryptionAlgorithm};
pub use kdf::Pbes2Kdf;
pub use known_identifier::KnownIdentifier;
pub use pbes1::{Pbes1Cipher, Pbes1Params};
pub use pbkdf2::Pbkdf2Params;
pub use prf::Pbkdf2Prf;
pub use salt::Pbkdf2Salt;
