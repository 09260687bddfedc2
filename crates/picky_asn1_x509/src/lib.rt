//! The containers of PKCS #12 as DER, under the names of the Rust crate `picky-asn1-x509` (RFC 7292, RFC 8018).
//!
//! The types stand in crates of their own: `picky_x509_algorithms` (hashes and encryption), `picky_x509_store` (the store, its MAC
//! and its encrypted parts), `picky_x509_bags` (attributes, what bags hold, and the parts of a store) and `picky_x509_safe_bags` (bags and
//! bags in bags).
#![tactic(auto)]

pub use picky_fields::AlgorithmIdentifier;
pub use picky_x509_algorithms::{
    AesCbcKind, KnownIdentifier, Pbes1Cipher, Pbes1Params, Pbes2Kdf, Pbes2Params, Pbes2Scheme,
    Pbkdf2Params, Pbkdf2Prf, Pbkdf2Salt, Pkcs12DigestAlgorithm, Pkcs12EncryptionAlgorithm,
};
pub use picky_x509_bags::{
    CertificateBag, EncryptedKeyBag, Pkcs12Attribute, SafeContentsInfo, SecretBag,
};
pub use picky_x509_safe_bags::{
    SafeBag, SafeBagKind, SafeContents, SafeContentsContentInfo, read_contents_levels,
};
pub use picky_x509_store::{
    DigestInfo, EncryptedSafeContents, MacData, RawAuthenticatedSafe, RawPfx,
};
