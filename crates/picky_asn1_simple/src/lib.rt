//! Simple values of ASN.1 under their tags, as DER: [`StringAsn1`], restricted strings with a name for each kind,
//! [`BitStringAsn1`] and [`ObjectIdentifierAsn1`].
#![tactic(auto)]

mod bit_string;
mod kinds;
pub mod laws;
mod object_identifier;
mod string;

pub use bit_string::BitStringAsn1;
pub use kinds::{
    BmpStringAsn1, GeneralStringAsn1, Ia5StringAsn1, NumericStringAsn1, PrintableStringAsn1,
    Utf8StringAsn1,
};
pub use object_identifier::ObjectIdentifierAsn1;
pub use string::{DecidedSet, StringAsn1};
