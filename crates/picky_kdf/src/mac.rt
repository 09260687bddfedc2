//! HMAC, with its two padded hashers made once a key.

ghost use Rattle.std.specs.Prelude.{◌≡◌, ℕ, List, ◌++◌, length, map, take, bit_xor, IfOk};
ghost use Rattle.picky_kdf.specs.Hash.{block_size, digest_size};
ghost use Rattle.picky_kdf.specs.Hmac.{hmac, key_block};

use crate::hash::{Hasher, Pkcs12HashAlgorithm};
use std::alloc::{AllocError, Global};

// The key as one block, in the front of an array.
fn key_block(hash: Pkcs12HashAlgorithm, key: &[u8]) -> [u8; 128]
    ensures { take (block_size hash) result ≡ key_block hash key.now }
{
    let mut block = [0; 128];
    if key.len() > hash.block_size() {
        let digest = Hasher::new(hash).hash_after(key);
        let size = hash.digest_size();
        block[..size].copy_from_slice(&digest[..size]);
    } else {
        block[..key.len()].copy_from_slice(key);
    }
    block
}

fn masked(block: &[u8; 128], pad: u8) -> [u8; 128]
    ensures { result ≡ map (λ byte. bit_xor byte pad) block.now }
{
    let mut out = *block;
    for byte in out.iter_mut() {
        *byte ^= pad;
    }
    out
}

// The two hashers of HMAC under one key, which have taken in the key's padded blocks.
#[derive(Drop)]
pub(crate) struct KeyedHashers {
    pub(crate) inner: Hasher,
    pub(crate) outer: Hasher,
}

impl KeyedHashers {
    ghost use Rattle.picky_kdf.specs.Keyed.{IsKeyed};

    pub(crate) fn new(hash: Pkcs12HashAlgorithm, key: &[u8]) -> KeyedHashers
        ensures { IsKeyed hash result key.now }
    {
        let block = key_block(hash, key);
        let size = hash.block_size();
        let mut inner = Hasher::new(hash);
        inner.update(&masked(&block, 0x36)[..size]);
        let mut outer = Hasher::new(hash);
        outer.update(&masked(&block, 0x5c)[..size]);
        KeyedHashers { inner, outer }
    }

    // The HMAC of `message`, in the front of an array.
    pub(crate) fn mac(&self, hash: Pkcs12HashAlgorithm, message: &[u8]) -> [u8; 64]
        ensures { (key : List ℕ) → IsKeyed hash self.now key
            → take (digest_size hash) result ≡ hmac hash key message.now }
    {
        let digest = self.inner.hash_after(message);
        self.outer.hash_after(&digest[..hash.digest_size()])
    }

    // The HMAC of `first` and `second` as one message, in the front of an array.
    pub(crate) fn mac_of_two(
        &self,
        hash: Pkcs12HashAlgorithm,
        first: &[u8],
        second: &[u8],
    ) -> [u8; 64]
        ensures { (key : List ℕ) → IsKeyed hash self.now key
            → take (digest_size hash) result ≡ hmac hash key (first.now ++ second.now) }
    {
        let mut inner = self.inner.copied();
        inner.update(first);
        let digest = inner.hash_after(second);
        self.outer.hash_after(&digest[..hash.digest_size()])
    }
}

/// The HMAC of `message` under `key`, of any length, by the hash function `hash` (RFC 2104,
/// section 2): as many bytes as its hash has. The only refusal is want of memory.
pub fn hmac(
    alloc: Global,
    hash: Pkcs12HashAlgorithm,
    key: &[u8],
    message: &[u8],
) -> Result<Vec<u8>, AllocError>
    ensures mac { IfOk result (λ mac. mac.items ≡ hmac hash key.now message.now) }
    ensures size { IfOk result (λ mac. length mac.items ≡ digest_size hash) }
{
    let mac = KeyedHashers::new(hash, key).mac(hash, message);
    mac[..hash.digest_size()].to_vec(alloc)
}
