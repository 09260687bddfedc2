//! Keys, signature algorithms, and the provider of key operations.
//!
//! No key arithmetic is done here: a [`KeyProvider`] is handed in, known by its seven meanings and their laws.
#![tactic(auto)]

mod algorithm;
pub mod laws;
mod provider;

pub use algorithm::{HashAlgorithm, SignatureAlgorithm};
pub use picky_key_der::{
    EcCurve, EcdsaSignatureValue, EdAlgorithm, KeyError, KeyFamily, NamedEcCurve, PublicKey,
    PublicKeyKind, SignatureError,
};
pub use picky_key_private::{PrivateKey, PrivateKeyKind};
pub use provider::{Ephemeral, KeyProvider, ProviderFault, WrapScheme};
