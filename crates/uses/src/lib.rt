//! Callers of the crates, as a user writes them, each with the contract that it earns. A module has those of one library.
//!
//! - `keys` and `agreement`: `picky_key`.
//! - `key_sets`: `picky_jwk`.
//! - `tokens`: `picky_jose`.
//! - `requests`: `picky_http`.
//! - `dates`: `picky_asn1`.
//! - `encodings`: `picky_der`.
//! - `seals`: `picky_cipher`.
#![tactic(auto)]

mod agreement;
mod dates;
mod encodings;
mod key_sets;
mod keys;
mod requests;
mod seals;
mod tokens;

pub use agreement::{ephemeral_is_agreed, recorded_is_agreed};
pub use dates::utc_text_of;
pub use encodings::{identifier_again, rewritten};
pub use key_sets::public_key_named;
pub use keys::is_signed_under;
pub use requests::signed_request;
pub use seals::{open_text, seal_text};
pub use tokens::{accepted_claims, recorded_claims};
