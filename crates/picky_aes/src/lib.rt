//! The block cipher AES (FIPS 197) with keys of 16, 24 and 32 bytes.
//!
//! [`Aes`] holds an expanded key, and encrypts and decrypts single blocks of 16 bytes in place. The bodies work on
//! words of four bytes, with tables. Every result is proved to be the standard's; nothing is said of time that depends on
//! secrets. No call takes memory.
#![tactic(auto)]

mod cipher;
mod key_schedule;
pub mod laws;
mod steps;
mod tables;
mod undo;
mod words;

pub use cipher::Aes;
