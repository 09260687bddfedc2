//! Wrappers that give values their place in DER: lists, containers, tags and optional fields.
#![tactic(auto)]

mod aliases;
mod container;
mod equal_meaning;
mod explicit;
mod header_only;
mod implicit;
mod items;
pub mod laws;
mod lists;
mod optional;

pub use aliases::{
    ExplicitContextTag0, ExplicitContextTag1, ExplicitContextTag2, ExplicitContextTag3,
    ExplicitContextTag4, ExplicitContextTag5, ExplicitContextTag6, ExplicitContextTag7,
    ExplicitContextTag8, ExplicitContextTag9, ExplicitContextTag10, ExplicitContextTag11,
    ExplicitContextTag12, ExplicitContextTag13, ExplicitContextTag14, ExplicitContextTag15,
    ImplicitContextTag0, ImplicitContextTag1, ImplicitContextTag2, ImplicitContextTag3,
    ImplicitContextTag4, ImplicitContextTag5, ImplicitContextTag6, ImplicitContextTag7,
    ImplicitContextTag8, ImplicitContextTag9, ImplicitContextTag10, ImplicitContextTag11,
    ImplicitContextTag12, ImplicitContextTag13, ImplicitContextTag14, ImplicitContextTag15,
};
pub use container::{BitStringAsn1Container, OctetStringAsn1Container};
pub use equal_meaning::EqualMeaning;
pub use explicit::ExplicitContextTag;
pub use header_only::HeaderOnly;
pub use implicit::ImplicitContextTag;
pub use lists::{Asn1SequenceOf, Asn1SetOf};
pub use optional::Optional;
pub use picky_asn1_simple::{
    BitStringAsn1, BmpStringAsn1, DecidedSet, GeneralStringAsn1, Ia5StringAsn1, NumericStringAsn1,
    ObjectIdentifierAsn1, PrintableStringAsn1, StringAsn1, Utf8StringAsn1,
};
