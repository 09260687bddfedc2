//! Dates of ASN.1 under their tags, as DER: [`DateAsn1`] with [`UtcTimeAsn1`] and [`GeneralizedTimeAsn1`].
#![tactic(auto)]

pub mod laws;
mod time;

pub use time::{DateAsn1, DecidedTime, GeneralizedTimeAsn1, UtcTimeAsn1};
