// Cipher block chaining over any block cipher, and the calls under AES. What is generic is inlined into the calls, where the size of a
// block is a constant.
ghost use Rattle.picky_contract.specs.Sums.{add_bytes};
ghost use Rattle.picky_aes.specs.Cipher.{cipher};
ghost use Rattle.std.specs.Prelude.{◌≡◌, ◌<◌, ◌≤◌, ◌+◌, ◌-◌, ◌%◌, ℕ, List, length, take, IfOk, IfSome};
ghost use Rattle.picky_modes.specs.Blocks.{IsBlock, IsBytes};
ghost use Rattle.picky_modes.specs.Cbc.{IsCbc, IsChained, IsDecryption, IsWholeBlocks, padded};

use crate::block_cipher::{BlockCipher, xor_into};
use picky_aes::Aes;
use std::alloc::{AllocError, Global};

// Enciphers the block behind the sealed block `chain`, which it replaces there.
#[inline(always)]
fn seal_block<C: BlockCipher>(cipher: &C, chain: &mut [u8], block: &mut [u8])
    requires ready { C.is_ready cipher.now }
    requires size { length chain.old ≡ C.size cipher.now }
    requires same { length block.old ≡ length chain.old }
    ensures sealed { block.new ≡ C.enciphered cipher.now (add_bytes block.old chain.old) }
    ensures chain { chain.new ≡ block.new }
{
    xor_into(block, chain);
    cipher.encipher(block);
    chain.copy_from_slice(block);
}

// Deciphers the block behind the sealed block `chain`, which it replaces there.
#[inline(always)]
fn open_block<C: BlockCipher>(cipher: &C, chain: &mut [u8], block: &mut [u8])
    requires ready { C.is_ready cipher.now }
    requires size { length chain.old ≡ C.size cipher.now }
    requires same { length block.old ≡ length chain.old }
    requires small { length chain.old ≤ 16 }
    requires bytes { IsBytes chain.old }
    ensures back { C.enciphered cipher.now (add_bytes block.new chain.old) ≡ block.old }
    ensures alone { (x : List ℕ) → IsBlock (C.size cipher.now) x → C.enciphered cipher.now (add_bytes x chain.old) ≡ block.old → x ≡ block.new }
    ensures chain { chain.new ≡ block.old }
{
    let mut room = [0; 16];
    let sealed = &mut room[..block.len()];
    sealed.copy_from_slice(block);
    cipher.decipher(block);
    xor_into(block, chain);
    chain.copy_from_slice(sealed);
}

// Enciphers whole blocks in place, behind the block `chain`.
#[inline(always)]
fn seal_blocks<C: BlockCipher>(cipher: &C, chain: &mut [u8], buffer: &mut [u8])
    requires ready { C.is_ready cipher.now }
    requires size { length chain.old ≡ C.size cipher.now }
    requires some { 0 < length chain.old }
    requires whole { length buffer.old % length chain.old ≡ 0 }
    ensures { IsChained (C.enciphered cipher.now) (length chain.old) chain.old buffer.old buffer.new }
{
    let size = chain.len();
    for k in 0..buffer.len() / size {
        seal_block(cipher, chain, &mut buffer[size * k..size * k + size]);
    }
}

// Deciphers whole blocks in place, behind the block `chain`.
#[inline(always)]
fn open_blocks<C: BlockCipher>(cipher: &C, chain: &mut [u8], buffer: &mut [u8])
    requires ready { C.is_ready cipher.now }
    requires size { length chain.old ≡ C.size cipher.now }
    requires some { 0 < length chain.old }
    requires small { length chain.old ≤ 16 }
    requires whole { length buffer.old % length chain.old ≡ 0 }
    ensures back { IsChained (C.enciphered cipher.now) (length chain.old) chain.old buffer.new buffer.old }
    ensures alone { (plain : List ℕ) → IsBytes plain → IsChained (C.enciphered cipher.now) (length chain.old) chain.old plain buffer.old → plain ≡ buffer.new }
{
    let size = chain.len();
    for k in 0..buffer.len() / size {
        open_block(cipher, chain, &mut buffer[size * k..size * k + size]);
    }
}

// The text and its padding to whole blocks of `size` bytes.
fn padded_text(alloc: Global, size: usize, text: &[u8]) -> Result<Vec<u8>, AllocError>
    requires some { 0 < size }
    requires small { size ≤ 16 }
    ensures { IfOk result (λ v. v.items ≡ padded size text.now) }
{
    let count = size - text.len() % size;
    let mut padded = Vec::with_capacity(alloc, text.len() + count)?;
    padded.extend_from_slice(text)?;
    padded.resize(text.len() + count, count as u8)?;
    Ok(padded)
}

// The bytes before the padding to whole blocks of `size` bytes, where there is such a padding. All of the last block is
// looked at, whatever its bytes are.
fn text_length(size: usize, plain: &[u8]) -> Option<usize>
    requires some { 0 < size }
    requires small { size ≤ 16 }
    requires whole { IsWholeBlocks size (length plain.now) }
    ensures text { IfSome result (λ n. (n ≤ length plain.now) × (plain.now ≡ padded size (take n plain.now))) }
    ensures every { (text : List ℕ) → plain.now ≡ padded size text → result ≡ Some (length text) }
{
    let count = plain[plain.len() - 1] as usize;
    let mut right = (count != 0) & (count <= size);
    for i in plain.len() - size..plain.len() {
        right &= (plain.len() - i > count) | (plain[i] as usize == count);
    }
    if right {
        Some(plain.len() - count)
    } else {
        None
    }
}

// The CBC encryption of the padded text, behind the block `chain`.
#[inline(always)]
pub(crate) fn sealed_text<C: BlockCipher>(
    alloc: Global,
    cipher: &C,
    chain: &mut [u8],
    text: &[u8],
) -> Result<Vec<u8>, AllocError>
    requires ready { C.is_ready cipher.now }
    requires size { length chain.old ≡ C.size cipher.now }
    requires some { 0 < length chain.old }
    requires small { length chain.old ≤ 16 }
    ensures sealed { IfOk result (λ v. IsCbc (C.enciphered cipher.now) (length chain.old) chain.old text.now v.items) }
    ensures size { IfOk result (λ v. length v.items ≡ length text.now + (length chain.old - length text.now % length chain.old)) }
{
    let mut sealed = padded_text(alloc, chain.len(), text)?;
    seal_blocks(cipher, chain, sealed.as_mut_slice());
    Ok(sealed)
}

// Decrypts the buffer in place, behind the block `chain`: the bytes of the text in its front.
#[inline(always)]
pub(crate) fn open_text<C: BlockCipher>(
    cipher: &C,
    chain: &mut [u8],
    buffer: &mut [u8],
) -> Option<usize>
    requires ready { C.is_ready cipher.now }
    requires size { length chain.old ≡ C.size cipher.now }
    requires some { 0 < length chain.old }
    requires small { length chain.old ≤ 16 }
    ensures { IsDecryption (C.enciphered cipher.now) (length chain.old) chain.old buffer.old buffer.new result }
{
    let size = chain.len();
    if buffer.is_empty() || buffer.len() % size != 0 {
        return None;
    }
    open_blocks(cipher, chain, buffer);
    text_length(size, buffer)
}

/// The CBC encryption under AES (NIST SP 800-38A, 6.2) of the text with the padding of PKCS #7 (RFC
/// 5652, 6.3): 1 to 16 bytes longer than the text, a multiple of 16.
pub fn cbc_encrypt(
    alloc: Global,
    aes: &Aes,
    iv: &[u8; 16],
    text: &[u8],
) -> Result<Vec<u8>, AllocError>
    ensures sealed { IfOk result (λ v. IsCbc (cipher aes.now) 16 iv.now text.now v.items) }
    ensures size { IfOk result (λ v. length v.items ≡ length text.now + (16 - length text.now % 16)) }
{
    let mut chain = *iv;
    sealed_text(alloc, aes, &mut chain, text)
}

/// Decrypts the buffer in place by CBC under AES: the number of bytes of the text, which then
/// stands in its front.
///
/// None where the length isn't a positive multiple of 16, which leaves the buffer as it was, or the
/// padding isn't 1 to 16 bytes of their number, which leaves the buffer decrypted.
pub fn cbc_decrypt(aes: &Aes, iv: &[u8; 16], buffer: &mut [u8]) -> Option<usize>
    ensures { IsDecryption (cipher aes.now) 16 iv.now buffer.old buffer.new result }
{
    let mut chain = *iv;
    open_text(aes, &mut chain, buffer)
}
