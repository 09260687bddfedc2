// The keys under which texts are made.
ghost use Rattle.std.specs.Prelude.{◌≡◌, IfOk, string_bytes};
ghost use Rattle.picky_generate.specs.Texts.{key, key_name as name_of};

use picky_key_der::{EdAlgorithm, PublicKey};
use std::alloc::{AllocError, Global};

/// How many keys there are.
pub const KEYS: u32 = 8;

/// The name of a key: `k` and its number.
///
/// The one error is want of memory.
pub fn key_name(alloc: Global, number: u32) -> Result<String, AllocError>
    ensures { IfOk result (λ name. string_bytes name ≡ name_of number) }
{
    format!(in alloc; "k{number}")
}

/// A key: Ed25519 (RFC 8032), with 32 bytes of its number.
///
/// The one error is want of memory.
pub fn key_of(alloc: Global, number: u8) -> Result<PublicKey, AllocError>
    ensures { IfOk result (λ made. made ≡ key number) }
{
    let bytes = vec![in alloc; number; 32]?;
    match PublicKey::from_ed_encoded_components(EdAlgorithm::Ed25519, bytes) {
        Ok(key) => Ok(key),
        Err(_) => unreachable!(),
    }
}
