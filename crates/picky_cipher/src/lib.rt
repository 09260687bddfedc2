//! Ciphers of the JOSE and PKCS #12 libraries, in one place for the crates above.
//!
//! - [`Aes`]: the block cipher AES (FIPS 197) under keys of 16, 24 and 32 bytes.
//! - [`gcm_seal`], [`gcm_open`]: AES-GCM (SP 800-38D) with nonces of 12 bytes and tags of 16, in place.
//! - [`HashTable`]: the hash function GHASH of GCM.
//! - [`cbc_encrypt`], [`cbc_decrypt`]: CBC with the padding of PKCS #7 (SP 800-38A, RFC 5652); [`Pbes1Blocks`],
//!   [`pbes1_cbc_encrypt`], [`pbes1_cbc_decrypt`]: the same over an eight-byte block cipher that is handed in.
//! - [`key_wrap`], [`key_unwrap`]: key wrap (RFC 3394).
//! - [`hmac`], [`pbkdf2`], [`pbkdf1`], [`concat_kdf`]: message authentication and key derivation.
//!
//! The calls are those of `picky_aes`, `picky_gcm`, `picky_modes` and `picky_kdf`, which have the contracts and the proofs. They are apart so
//! that each is quick to check, and so that what needs the block cipher alone stands on no more than that.
#![tactic(auto)]

pub use picky_aes::Aes;
pub use picky_gcm::{HashTable, gcm_open, gcm_seal};
pub use picky_kdf::{Pbkdf1Usage, Pkcs12HashAlgorithm, concat_kdf, hmac, pbkdf1, pbkdf2};
pub use picky_modes::{
    NoPbes1, Pbes1Blocks, Pbes1Kind, cbc_decrypt, cbc_encrypt, key_unwrap, key_wrap,
    pbes1_cbc_decrypt, pbes1_cbc_encrypt,
};
