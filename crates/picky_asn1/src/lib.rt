//! ASN.1 values with their laws, under the names of the Rust crate `picky-asn1`.
//!
//! - [`bit_string`]: [`bit_string::BitString`].
//! - [`date`]: [`date::UTCTime`] and [`date::GeneralizedTime`].
//! - [`restricted_string`]: [`restricted_string::PrintableString`] and the other strings of a set.
//! - [`tag`]: [`tag::Tag`] and its parts.
//! - [`wrapper`]: [`wrapper::IntegerAsn1`] and [`wrapper::OctetStringAsn1`].
//! - [`oid`]: [`oid::ObjectIdentifier`].
//! - [`laws`]: what is proved of all of them beside their calls.
//!
//! The values stand in crates of their own: `picky_asn1_tag`, `picky_asn1_bits`, `picky_asn1_oid`,
//! `picky_asn1_text` and `picky_asn1_date`.
#![tactic(auto)]

pub use picky_asn1_tag::{Asn1Type, Asn1Value, CopyIn, Empty};

pub mod bit_string;
pub mod date;
pub mod laws;
pub mod oid;
pub mod restricted_string;
pub mod tag;
pub mod wrapper;
