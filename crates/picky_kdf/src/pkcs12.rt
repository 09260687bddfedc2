//! The key derivation of PKCS #12.

ghost use Rattle.std.specs.Prelude.{◌≡◌, ◌≤◌, ◌<◌, ◌+◌, ◌-◌, ◌*◌, ◌/◌, ◌^◌, ◌++◌, ℕ, List, length, take, IfOk, OnOk};
ghost use Rattle.picky_kdf.specs.Hash.{digest_size};
ghost use Rattle.picky_kdf.specs.Pkcs12Kdf.{cycled, hashed, pbkdf1, raised, raised_blocks, repeated, usage_id};

use crate::hash::{HashFunction, Hasher, Pkcs12HashAlgorithm};
use crate::pkcs5::parts_for;
use sha1::Sha1;
use sha2::{Sha224, Sha256, Sha384, Sha512};
use std::alloc::{AllocError, Global};

/// What derived bytes are for (RFC 7292, appendix B.3).
#[derive(Clone, Copy, PartialEq, Eq, Debug)]
pub enum Pbkdf1Usage {
    /// The key of a cipher: the byte 1.
    Key,
    /// The initial vector of a cipher: the byte 2.
    Iv,
    /// The key of a MAC: the byte 3.
    Mac,
}

impl Pbkdf1Usage {
    fn id(self) -> u8
        ensures { result ≡ usage_id self }
    {
        match self {
            Pbkdf1Usage::Key => 1,
            Pbkdf1Usage::Iv => 2,
            Pbkdf1Usage::Mac => 3,
        }
    }
}

// Adds `text` over and over to `out`, up to a multiple of `block` bytes.
fn push_repeated(out: &mut Vec<u8>, text: &[u8], block: usize) -> Result<(), AllocError>
    requires some { 1 ≤ block }
    requires short { block ≤ 128 }
    ensures { OnOk result (out.new.items ≡ out.old.items ++ repeated block text.now) }
{
    for i in 0..text.len().div_ceil(block) * block {
        out.push(text[i % text.len()])?;
    }
    Ok(())
}

// As many bytes of `text` over and over as the largest block has.
fn cycled(text: &[u8]) -> [u8; 128]
    requires { 1 ≤ length text.now }
    ensures { result ≡ cycled text.now 128 }
{
    let mut out = [0; 128];
    for i in 0..128usize {
        out[i] = text[i % text.len()];
    }
    out
}

// Hashes the hash in the front of an array again and again.
fn rehash<H: HashFunction<N>, const N: usize>(front: &mut [u8; 64], times: usize)
    requires { N ≤ 64 }
    ensures { (text : List ℕ) → (n : ℕ) → take N front.old ≡ hashed H.function text n
        → take N front.new ≡ hashed H.function text (n + times) }
{
    let mut last = [0; N];
    last.copy_from_slice(&front[..N]);
    for done in 0..times {
        last = H::rehashed(&last);
    }
    front[..N].copy_from_slice(&last);
}

// Hashes the hash in the front of an array again and again, in the loop of its function.
fn rehash_by(hash: Pkcs12HashAlgorithm, front: &mut [u8; 64], times: usize)
    ensures { (text : List ℕ) → (n : ℕ) → take (digest_size hash) front.old ≡ hashed hash text n
        → take (digest_size hash) front.new ≡ hashed hash text (n + times) }
{
    match hash {
        Pkcs12HashAlgorithm::Sha1 => rehash::<Sha1, 20>(front, times),
        Pkcs12HashAlgorithm::Sha224 => rehash::<Sha224, 28>(front, times),
        Pkcs12HashAlgorithm::Sha256 => rehash::<Sha256, 32>(front, times),
        Pkcs12HashAlgorithm::Sha384 => rehash::<Sha384, 48>(front, times),
        Pkcs12HashAlgorithm::Sha512 => rehash::<Sha512, 64>(front, times),
    }
}

// The hash of `diversifier` and `text`, hashed again up to `iterations` hashes, in the front of an
// array.
fn round_hash(
    hash: Pkcs12HashAlgorithm,
    diversifier: &[u8],
    text: &[u8],
    iterations: usize,
) -> [u8; 64]
    requires { 1 ≤ iterations }
    ensures { take (digest_size hash) result ≡ hashed hash (diversifier.now ++ text.now) iterations }
{
    let mut hasher = Hasher::new(hash);
    hasher.update(diversifier);
    let mut front = hasher.hash_after(text);
    rehash_by(hash, &mut front, iterations - 1);
    front
}

// Adds `b` and 1 to `block`, both as numbers with the highest byte first; what does not fit is
// dropped.
fn raise(block: &mut [u8], b: &[u8])
    requires { length b.now ≡ length block.old }
    ensures { block.new ≡ raised (length block.old) b.now block.old }
{
    let mut carry = 1u16;
    for i in (0..block.len()).rev() {
        let sum = u16::from(block[i]) + u16::from(b[i]) + carry;
        block[i] = (sum % 256) as u8;
        carry = sum / 256;
    }
}

// Raises each block of `text` by `b`, a block of the same size.
fn raise_blocks(text: &mut [u8], b: &[u8])
    requires some { 1 ≤ length b.now }
    requires whole { length text.old ≡ length text.old / length b.now * length b.now }
    ensures { text.new ≡ raised_blocks (length b.now) b.now text.old }
{
    let size = b.len();
    for j in 0..text.len() / size {
        raise(&mut text[j * size..j * size + size], b);
    }
}

// The text of the first round: the salt and the password, each over and over.
fn first_text(
    alloc: Global,
    password: &[u8],
    salt: &[u8],
    block: usize,
) -> Result<Vec<u8>, AllocError>
    requires some { 1 ≤ block }
    requires short { block ≤ 128 }
    ensures { IfOk result (λ text. text.items
        ≡ repeated block salt.now ++ repeated block password.now) }
{
    let mut text = Vec::new(alloc);
    push_repeated(&mut text, salt, block)?;
    push_repeated(&mut text, password, block)?;
    Ok(text)
}

// The text of the next round: each block is raised by the round's hash over and over.
fn next_text(text: &mut [u8], digest: &[u8], block: usize)
    requires hashed { 1 ≤ length digest.now }
    requires some { 1 ≤ block }
    requires short { block ≤ 128 }
    requires whole { length text.old ≡ length text.old / block * block }
    ensures { text.new ≡ raised_blocks block (cycled digest.now block) text.old }
{
    let b = cycled(digest);
    raise_blocks(text, &b[..block]);
}

/// The first `output_size` bytes that PKCS #12 derives from a password and a salt for a use, with
/// `kdf_iterations` hashes by `hash` in each round (RFC 7292, appendix B.2). The password is taken
/// as it stands: a store's has two bytes for each UTF-16 unit and two zeros at its end. At least
/// one iteration and at most 1,024 bytes are asked for. The only refusal is want of memory.
pub fn pbkdf1(
    alloc: Global,
    hash: Pkcs12HashAlgorithm,
    password: &[u8],
    salt: &[u8],
    kdf_iterations: usize,
    usage: Pbkdf1Usage,
    output_size: usize,
) -> Result<Vec<u8>, AllocError>
    requires iterated { 1 ≤ kdf_iterations }
    requires short { output_size ≤ 1024 }
    ensures key { IfOk result (λ key. key.items
        ≡ pbkdf1 hash password.now salt.now kdf_iterations usage output_size) }
    ensures size { IfOk result (λ key. length key.items ≡ output_size) }
{
    let block = hash.block_size();
    let part = hash.digest_size();
    let diversifier = [usage.id(); 128];
    let mut text = first_text(alloc, password, salt, block)?;
    let mut key = Vec::new(alloc);
    for done in 0..parts_for(part, output_size) {
        let digest = round_hash(hash, &diversifier[..block], &text, kdf_iterations);
        key.extend_from_slice(&digest[..part])?;
        next_text(&mut text, &digest[..part], block);
    }
    key.truncate(output_size);
    Ok(key)
}
