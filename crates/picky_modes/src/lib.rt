//! Modes of operation over block ciphers.
//!
//! Under AES: key wrap by RFC 3394 ([`key_wrap`], [`key_unwrap`]) and CBC with the padding of PKCS #7
//! ([`cbc_encrypt`], [`cbc_decrypt`]). CBC also stands over the eight-byte block ciphers of PBES1, which a
//! caller brings ([`Pbes1Blocks`]). Each call is proved to give what the standard says; nothing is said of time
//! that depends on secrets.
#![tactic(auto)]

mod block_cipher;
mod cbc;
pub mod laws;
mod pbes1;
mod wrap;

pub use cbc::{cbc_decrypt, cbc_encrypt};
pub use pbes1::{NoPbes1, Pbes1Blocks, Pbes1Kind, pbes1_cbc_decrypt, pbes1_cbc_encrypt};
pub use wrap::{key_unwrap, key_wrap};
