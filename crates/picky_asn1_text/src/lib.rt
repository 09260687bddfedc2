//! Restricted character strings of ASN.1 (X.680, clause 41): bytes of one character set.
//!
//! - [`CharSet`]: a set of byte lists with the test that decides it, and the five sets that stand here.
//! - [`Utf8Set`]: a set whose byte lists are all UTF-8.
//! - [`RestrictedString`]: bytes that are in one set, with the aliases [`NumericString`] to [`BmpString`].
//! - [`CharSetError`]: why bytes or a text aren't taken.
//! - [`laws`]: what is proved of these strings beside their calls.
#![tactic(auto)]

mod bmp;
mod char_set;
mod error;
pub mod laws;
mod restricted_string;
mod texts;
mod traits;

pub use char_set::{
    BmpCharSet, CharSet, Ia5CharSet, NumericCharSet, PrintableCharSet, Utf8CharSet, Utf8Set,
};
pub use error::CharSetError;
pub use restricted_string::{
    BmpString, Ia5String, NumericString, PrintableString, RestrictedString, Utf8String,
};
