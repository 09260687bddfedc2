//! PBKDF2 with HMAC.

ghost use Rattle.std.specs.Prelude.{◌≡◌, ◌≤◌, ◌<◌, ◌+◌, ◌-◌, ◌/◌, ◌^◌, ℕ, List, length, take, IfOk};
ghost use Rattle.std.specs.Int.{div_ceil};
ghost use Rattle.picky_kdf.specs.Hash.{digest_size};
ghost use Rattle.picky_kdf.specs.Keyed.{IsKeyed};
ghost use Rattle.picky_contract.specs.Sums.{add_bytes};
ghost use Rattle.picky_kdf.specs.Hmac.{padded_key};
ghost use Rattle.picky_kdf.specs.Pbkdf2.{iterated, key_sum, pbkdf2};
ghost use Rattle.picky_kdf.specs.declared.hash.Pkcs12HashAlgorithm.{Pkcs12HashAlgorithm};

use crate::hash::{HashFunction, Hasher, Pkcs12HashAlgorithm};
use crate::mac::KeyedHashers;
use sha1::Sha1;
use sha2::{Sha224, Sha256, Sha384, Sha512};
use std::alloc::{AllocError, Global};

fn add_bytes<const N: usize>(sum: &mut [u8; N], mac: &[u8; N])
    ensures { sum.new ≡ add_bytes sum.old mac.now }
{
    for i in 0..N {
        sum[i] ^= mac[i];
    }
}

// From the first HMAC of a block, in the front of an array, the sum of `iterations` HMACs, each of
// which is made of the one before it.
fn add_macs_by<H: HashFunction<N>, const N: usize>(
    inner: &H,
    outer: &H,
    front: &mut [u8; 64],
    iterations: u32,
)
    requires fits { N ≤ 64 }
    requires sized { digest_size H.function ≡ N }
    requires some { 1 ≤ iterations }
    ensures { (password salt : List ℕ) → (number : ℕ)
        → H.holds inner.now (padded_key H.function 0x36 password)
        → H.holds outer.now (padded_key H.function 0x5C password)
        → take N front.old ≡ iterated H.function password salt number 1
        → take N front.new ≡ key_sum H.function password salt number iterations }
{
    let mut last = [0; N];
    last.copy_from_slice(&front[..N]);
    let mut sum = last;
    for done in 1..iterations {
        last = outer.hash_after(&inner.hash_after(&last));
        add_bytes(&mut sum, &last);
    }
    front[..N].copy_from_slice(&sum);
}

// The same in the loop of the hashers' function. Both are of one function.
fn add_macs(hashers: &KeyedHashers, front: &mut [u8; 64], iterations: u32)
    requires { 1 ≤ iterations }
    ensures { (hash : Pkcs12HashAlgorithm) → (password salt : List ℕ) → (number : ℕ)
        → IsKeyed hash hashers.now password
        → take (digest_size hash) front.old ≡ iterated hash password salt number 1
        → take (digest_size hash) front.new ≡ key_sum hash password salt number iterations }
{
    match (&hashers.inner, &hashers.outer) {
        (Hasher::Sha1(inner), Hasher::Sha1(outer)) => {
            add_macs_by::<Sha1, 20>(inner, outer, front, iterations);
        }
        (Hasher::Sha224(inner), Hasher::Sha224(outer)) => {
            add_macs_by::<Sha224, 28>(inner, outer, front, iterations);
        }
        (Hasher::Sha256(inner), Hasher::Sha256(outer)) => {
            add_macs_by::<Sha256, 32>(inner, outer, front, iterations);
        }
        (Hasher::Sha384(inner), Hasher::Sha384(outer)) => {
            add_macs_by::<Sha384, 48>(inner, outer, front, iterations);
        }
        (Hasher::Sha512(inner), Hasher::Sha512(outer)) => {
            add_macs_by::<Sha512, 64>(inner, outer, front, iterations);
        }
        _ => {}
    }
}

// Block `number` of the derived key, in the front of an array.
fn key_sum(
    hashers: &KeyedHashers,
    hash: Pkcs12HashAlgorithm,
    salt: &[u8],
    number: u32,
    iterations: u32,
) -> [u8; 64]
    requires { 1 ≤ iterations }
    ensures { (password : List ℕ) → IsKeyed hash hashers.now password
        → take (digest_size hash) result ≡ key_sum hash password salt.now number iterations }
{
    let mut front = hashers.mac_of_two(hash, salt, &number.to_be_bytes());
    add_macs(hashers, &mut front, iterations);
    front
}

// How many parts of `part` bytes cover `size` bytes.
pub(crate) fn parts_for(part: usize, size: usize) -> u32
    requires some { 1 ≤ part }
    requires short { size ≤ 1024 }
    ensures { result ≡ div_ceil size part }
{
    size.div_ceil(part) as u32
}

/// The first `size` bytes of the key that PBKDF2 derives from a password and a salt, with HMAC
/// by `hash` as its function and `iterations` HMACs for each block (RFC 8018, section 5.2). At
/// least one iteration and at most 1,024 bytes are asked for. The only refusal is want of memory.
pub fn pbkdf2(
    alloc: Global,
    hash: Pkcs12HashAlgorithm,
    password: &[u8],
    salt: &[u8],
    iterations: u32,
    size: usize,
) -> Result<Vec<u8>, AllocError>
    requires iterated { 1 ≤ iterations }
    requires short { size ≤ 1024 }
    ensures key { IfOk result (λ key. key.items ≡ pbkdf2 hash password.now salt.now iterations size) }
    ensures size { IfOk result (λ key. length key.items ≡ size) }
{
    let hashers = KeyedHashers::new(hash, password);
    let part = hash.digest_size();
    let mut key = Vec::new(alloc);
    for done in 0..parts_for(part, size) {
        let sum = key_sum(&hashers, hash, salt, done + 1, iterations);
        key.extend_from_slice(&sum[..part])?;
    }
    key.truncate(size);
    Ok(key)
}
