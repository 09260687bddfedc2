// Authenticated encryption and decryption (SP 800-38D, 7).
ghost use Rattle.std.specs.Prelude.{◌≡◌, ◌≤◌, ◌-◌, ◌^◌, ◌↔◌, ℕ, List, length, IsNone, IsSome, option_map};
ghost use Rattle.picky_contract.specs.Sums.{add_bytes};
ghost use Rattle.picky_gcm.specs.Gcm.{Open, Seal, tag_of};

use crate::counter::{count, stream_block};
use crate::hash_table::HashTable;
use picky_aes::Aes;
use picky_contract::equal_bytes;

// The sums of the bytes of two blocks.
fn add(block: &mut [u8; 16], other: &[u8; 16])
    ensures { block.new ≡ add_bytes block.old other.now }
{
    for i in 0..16 {
        block[i] ^= other[i];
    }
}

// The tag of a ciphertext.
fn tag_of(aes: &Aes, nonce: &[u8; 12], aad: &[u8], sealed: &[u8]) -> [u8; 16]
    requires aad { length aad.now ≤ 2 ^ 61 - 1 }
    requires text { length sealed.now ≤ 2 ^ 36 - 32 }
    ensures { result ≡ tag_of aes.now nonce.now aad.now sealed.now }
{
    let mut key = [0; 16];
    aes.encrypt_block(&mut key);
    let mut tag = HashTable::new(&key).ghash(aad, sealed);
    add(&mut tag, &stream_block(aes, nonce, 0));
    tag
}

/// Encrypts a text in place and gives its tag (SP 800-38D, 7.1).
///
/// The nonce has 12 bytes and is never to be used twice under a key. At most 2^36 - 32 bytes of text and 2^61 - 1 of
/// additional data.
pub fn gcm_seal(aes: &Aes, nonce: &[u8; 12], aad: &[u8], buffer: &mut [u8]) -> [u8; 16]
    requires aad { length aad.now ≤ 2 ^ 61 - 1 }
    requires text { length buffer.old ≤ 2 ^ 36 - 32 }
    ensures text { buffer.new ≡ (Seal aes.now nonce.now aad.now buffer.old).text }
    ensures tag { result ≡ (Seal aes.now nonce.now aad.now buffer.old).tag }
{
    count(aes, nonce, buffer);
    tag_of(aes, nonce, aad, buffer)
}

/// Decrypts a ciphertext in place where its tag is right (SP 800-38D, 7.2).
///
/// `None` exactly where the tag is not that of the ciphertext; the buffer is then as before. At most 2^36 - 32 bytes of
/// ciphertext and 2^61 - 1 of additional data.
pub fn gcm_open(
    aes: &Aes,
    nonce: &[u8; 12],
    aad: &[u8],
    buffer: &mut [u8],
    tag: &[u8; 16],
) -> Option<()>
    requires aad { length aad.now ≤ 2 ^ 61 - 1 }
    requires text { length buffer.old ≤ 2 ^ 36 - 32 }
    ensures opened { Open aes.now nonce.now aad.now (record { text = buffer.old; tag = tag.now }) (option_map (λ _. buffer.new) result) }

    // What was sealed is opened to the text that it was sealed from.
    ensures back { (text : List ℕ) → Seal aes.now nonce.now aad.now text ≡ record { text = buffer.old; tag = tag.now } → IsSome result × (buffer.new ≡ text) }
    ensures same_tag { IsSome result ↔ (tag_of aes.now nonce.now aad.now buffer.old ≡ tag.now) }
    ensures unchanged { IsNone result → buffer.new ≡ buffer.old }
{
    if !equal_bytes(&tag_of(aes, nonce, aad, buffer), tag) {
        return None;
    }
    count(aes, nonce, buffer);
    Some(())
}
