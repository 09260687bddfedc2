//! Strings of one character set.

pub use picky_asn1_text::{
    BmpCharSet, BmpString, CharSet, CharSetError, Ia5CharSet, Ia5String, NumericCharSet,
    NumericString, PrintableCharSet, PrintableString, RestrictedString, Utf8CharSet, Utf8Set,
    Utf8String,
};
