//! Private keys in DER: what PKCS #8 bytes say of a key.
#![tactic(auto)]

mod copies;
mod ec;
mod info;
mod part;
mod private;
mod reading;
mod rsa;

pub use picky_key_der::PrivateKeyKind;
pub use private::PrivateKey;
