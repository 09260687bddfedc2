//! Keys and signatures in DER: what is read and written of public keys, private keys and ECDSA signatures.
#![tactic(auto)]

mod algorithm;
mod copies;
mod ecdsa;
mod error;
mod information;
mod kind;
pub mod laws;
mod public;
mod reading;
mod writing;

pub use algorithm::{EcCurve, EdAlgorithm, KeyFamily, NamedEcCurve};
pub use ecdsa::EcdsaSignatureValue;
pub use error::{KeyError, SignatureError};
pub use information::WholeBits;
pub use kind::PrivateKeyKind;
pub use public::{PublicKey, PublicKeyKind};
pub use reading::{read_held, read_kind, read_whole};
