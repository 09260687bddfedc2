//! The Concat KDF of JSON Web Encryption.

ghost use Rattle.std.specs.Prelude.{◌≡◌, ◌≤◌, ◌<◌, ◌+◌, ◌-◌, ◌*◌, ◌/◌, ◌%◌, ◌^◌, ◌++◌, ℕ, List, length, take, IfOk};
ghost use Rattle.std.specs.Int.{to_be_bytes, w32};
ghost use Rattle.sha2.specs.Sha256.{sha256};
ghost use Rattle.sha2.specs.Hashers.{Holds256};
ghost use Rattle.picky_kdf.specs.ConcatKdf.{concat_kdf, measured, other_info};

use crate::pkcs5::parts_for;
use sha2::{Digest, Sha256};
use std::alloc::{AllocError, Global};

// Adds to the hasher's message a text after its length in four bytes.
fn update_measured(hasher: &mut Sha256, text: &[u8])
    ensures { (message : List ℕ) → Holds256 hasher.old message
        → Holds256 hasher.new (message ++ measured text.now) }
{
    let length = (text.len() % 0x1_0000_0000) as u32;
    hasher.update(&length.to_be_bytes());
    hasher.update(text);
}

// The hash under one number.
fn numbered_hash(
    number: u32,
    algorithm: &str,
    size: u32,
    secret: &[u8],
    apu: &[u8],
    apv: &[u8],
) -> [u8; 32]
    requires { size ≤ 64 }
    ensures { result ≡ sha256 (to_be_bytes w32 number ++ secret.now
        ++ other_info algorithm.now apu.now apv.now size) }
{
    let mut hasher = Sha256::new();
    hasher.update(&number.to_be_bytes());
    hasher.update(secret);
    update_measured(&mut hasher, algorithm.as_bytes());
    update_measured(&mut hasher, apu);
    update_measured(&mut hasher, apv);
    hasher.update(&(8 * size).to_be_bytes());
    hasher.finalize()
}

/// The key of `size` bytes, 1 to 64, that the Concat KDF with SHA-256 derives from a shared secret
/// for an algorithm's name and the two parties' information (RFC 7518, section 4.6.2). Lengths are
/// hashed in four bytes, a longer one modulo 2^32. The only refusal is want of memory.
pub fn concat_kdf(
    alloc: Global,
    algorithm: &str,
    size: usize,
    secret: &[u8],
    apu: &[u8],
    apv: &[u8],
) -> Result<Vec<u8>, AllocError>
    requires some { 1 ≤ size }
    requires short { size ≤ 64 }
    ensures key { IfOk result (λ key. key.items
        ≡ concat_kdf algorithm.now size secret.now apu.now apv.now) }
    ensures size { IfOk result (λ key. length key.items ≡ size) }
{
    let mut key = Vec::new(alloc);
    for done in 0..parts_for(32, size) {
        let hash = numbered_hash(done + 1, algorithm, size as u32, secret, apu, apv);
        key.extend_from_slice(&hash)?;
    }
    key.truncate(size);
    Ok(key)
}
