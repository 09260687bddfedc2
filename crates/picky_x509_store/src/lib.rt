//! The outer containers of PKCS #12: the store, its MAC, and its encrypted parts (RFC 7292 section 4, RFC 5652 section 8).
//!
//! - [`RawPfx`] with [`RawAuthenticatedSafe`]: a store, whose parts are kept as the bytes over which the MAC is taken.
//! - [`MacData`], [`DigestInfo`]: the MAC.
//! - [`EncryptedSafeContents`]: an encrypted part.
#![tactic(auto)]

mod encrypted;
mod mac;
mod pfx;

pub use encrypted::EncryptedSafeContents;
pub use mac::{DigestInfo, MacData};
pub use pfx::{RawAuthenticatedSafe, RawPfx};
