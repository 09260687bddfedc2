// Calls of AES on single blocks.
//
//     aes.encrypt KEY BLOCK
//     aes.decrypt KEY BLOCK
//     aes.encrypt_times KEY BLOCK COUNT      the block encrypted so often, one after another
//     aes.agrees KEY BLOCK COUNT     whether it and AES byte by byte agree on so many blocks, one after another, both ways
use crate::byte_aes::ByteAes;
use crate::given::{aes, block};
use anyhow::Result;
use picky_cipher::Aes;
use rows::{Answer, Words, refused};
use std::alloc::Global;

pub(crate) fn answer(alloc: Global, call: &str, words: &mut Words<'_>) -> Result<Answer> {
    match call {
        "encrypt" => encrypted(alloc, words, false),
        "encrypt_times" => encrypted(alloc, words, true),
        "decrypt" => decrypted(alloc, words),
        "agrees" => agrees(alloc, words),
        _ => refused("no such call"),
    }
}

fn encrypted(alloc: Global, words: &mut Words<'_>, often: bool) -> Result<Answer> {
    let aes = aes(alloc, words)?;
    let mut block = block(words)?;
    let times = if often { words.size()? } else { 1 };
    encrypt_often(&aes, &mut block, times);
    Answer::bytes(alloc, &block)
}

fn encrypt_often(aes: &Aes, block: &mut [u8; 16], times: usize) {
    for _ in 0..times {
        aes.encrypt_block(block);
    }
}

fn decrypted(alloc: Global, words: &mut Words<'_>) -> Result<Answer> {
    let aes = aes(alloc, words)?;
    let mut block = block(words)?;
    decrypt(&aes, &mut block);
    Answer::bytes(alloc, &block)
}

fn decrypt(aes: &Aes, block: &mut [u8; 16]) {
    aes.decrypt_block(block);
}

// Both bodies under a key.
fn bodies(key: &[u8]) -> Result<(Aes, ByteAes)> {
    match key.len() {
        16 | 24 | 32 => Ok((Aes::new(key), ByteAes::new(key))),
        _ => refused("a key of 16, 24 or 32 bytes is missing"),
    }
}

fn agrees(alloc: Global, words: &mut Words<'_>) -> Result<Answer> {
    let key = words.bytes(alloc)?;
    let start = block(words)?;
    let times = words.size()?;
    let (aes, slow) = bodies(&key)?;
    Ok(Answer::Truth(agree(&aes, &slow, start, times)))
}

// Whether two bodies agree on so many blocks, each the one before it encrypted, both ways.
fn agree(aes: &Aes, slow: &ByteAes, start: [u8; 16], times: usize) -> bool {
    let mut block = start;
    for _ in 0..times {
        if !agree_on(aes, slow, &mut block) {
            return false;
        }
    }
    true
}

// Encrypts a block, and says whether two bodies agree on it, both ways.
fn agree_on(aes: &Aes, slow: &ByteAes, block: &mut [u8; 16]) -> bool {
    let mut other = *block;
    encrypt_often(aes, block, 1);
    slow.encrypt_block(&mut other);
    let mut back = *block;
    let mut other_back = other;
    decrypt(aes, &mut back);
    slow.decrypt_block(&mut other_back);
    *block == other && back == other_back
}
