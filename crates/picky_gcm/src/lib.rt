//! AES-GCM (SP 800-38D) with nonces of 12 bytes and tags of 16.
//!
//! [`gcm_seal`] encrypts in place and gives the tag, [`gcm_open`] decrypts in place where the tag is right, and
//! [`HashTable`] is the hash function GHASH. Products are formed four coefficients at a time by a table, and counter
//! blocks are taken four at a time. Every result is proved to be the standard's; nothing is said of time that depends
//! on secrets. No call takes memory.
#![tactic(auto)]

mod counter;
mod gcm;
mod hash_table;
pub mod laws;
mod pairs;

pub use gcm::{gcm_open, gcm_seal};
pub use hash_table::HashTable;
