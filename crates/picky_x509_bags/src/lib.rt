//! What the bags of PKCS #12 hold, their attributes, and the parts of a store around them (RFC 7292 section 4).
//!
//! - [`Pkcs12Attribute`]: what is said of a bag. [`read_attributes`], [`write_attributes`] and [`copy_attributes`] are for the
//!   set of a bag.
//! - [`CertificateBag`], [`SecretBag`], [`EncryptedKeyBag`]: a certificate, a secret, an encrypted key.
//! - [`SafeContentsInfo`]: a part of a store, over the list of its bags.
#![tactic(auto)]

mod attribute;
mod certificate;
mod contents;
mod encrypted_key;
pub mod laws;
mod secret;
mod values;

pub use attribute::{Pkcs12Attribute, copy_attributes, read_attributes, write_attributes};
pub use certificate::CertificateBag;
pub use contents::SafeContentsInfo;
pub use encrypted_key::EncryptedKeyBag;
pub use secret::SecretBag;
