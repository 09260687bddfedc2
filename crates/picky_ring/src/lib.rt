//! Rings: finite maps from names to keys, and the ring of a set of JSON Web Keys.
//!
//! - [`Ring`]: names and entries, each a [`RingEntry`].
//! - [`ring_from_jwks`]: the ring of a set (RFC 7517 section 5).
#![tactic(auto)]

mod algorithm;
mod jwks;
pub mod laws;
mod ring;
pub mod text_map;

pub use jwks::ring_from_jwks;
pub use ring::{KeyName, KeysFault, Ring, RingEntry};
