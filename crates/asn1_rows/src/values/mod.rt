// Values of ASN.1 with no DER around them. Each file begins with the calls of its notion.
pub(crate) mod bits;
pub(crate) mod date;
pub(crate) mod integer;
pub(crate) mod octets;
pub(crate) mod oid;
pub(crate) mod tag;
pub(crate) mod text;
pub(crate) mod types;
