//! What is proved of ASN.1 values beside their calls.

pub use picky_asn1_bits::laws::{
    bit_strings_compare, integers_compare, octet_strings_compare, shortest_integers_are_unique,
    unsigned_integers_keep_their_number, written_payloads_follow_the_count,
};
pub use picky_asn1_date::laws::{
    dates_compare, forms_compare, generalized_times_are_dates, utc_times_are_dates,
};
pub use picky_asn1_oid::laws::{identifiers_are_determined, identifiers_compare};
pub use picky_asn1_tag::laws::{
    classes_compare, components_determine_tag, encodings_compare, tags_compare,
};
pub use picky_asn1_text::laws::{bmp_strings_are_texts, sets_compare, strings_compare};
