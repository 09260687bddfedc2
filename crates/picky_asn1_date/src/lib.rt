//! Dates of ASN.1: UTCTime and GeneralizedTime (X.680, clauses 46 and 47).
//!
//! - [`Date`]: six numbers in range, under a form of text.
//! - [`TimeRepr`]: a form of text, with [`UTCTimeRepr`] and [`GeneralizedTimeRepr`].
//! - [`UTCTime`], [`GeneralizedTime`]: the two kinds of dates.
//! - [`DateError`]: why a date isn't read, written or converted.
//! - [`laws`]: what is proved of dates beside their calls.
#![tactic(auto)]

mod date;
mod error;
pub mod laws;
mod repr;
mod text;
mod value;

pub use date::{Date, GeneralizedTime, UTCTime};
pub use error::DateError;
pub use repr::{GeneralizedTimeRepr, TimeRepr, UTCTimeRepr};
