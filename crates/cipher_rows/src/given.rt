// What several calls are given: a key's cipher, blocks, nonces, bytes that are counted out, and passwords with their hash.
use anyhow::Result;
use hex::FromHex;
use picky_cipher::{Aes, Pkcs12HashAlgorithm};
use rows::{Words, present, refused};
use std::alloc::{AllocError, Global};

// The cipher under a key.
pub(crate) fn aes(alloc: Global, words: &mut Words<'_>) -> Result<Aes> {
    let key = words.bytes(alloc)?;
    match key.len() {
        16 | 24 | 32 => Ok(Aes::new(&key)),
        _ => refused("a key of 16, 24 or 32 bytes is missing"),
    }
}

// So many bytes of the next word.
pub(crate) fn array<const N: usize>(words: &mut Words<'_>) -> Result<[u8; N]> {
    present(
        <[u8; N] as FromHex>::from_hex(words.next()).ok(),
        "a word of another number of bytes",
    )
}

pub(crate) fn block(words: &mut Words<'_>) -> Result<[u8; 16]> {
    array(words)
}

// So many bytes counted out: byte `j` is `j % 251`.
pub(crate) fn counted(alloc: Global, size: usize) -> Result<Vec<u8>, AllocError> {
    let mut bytes = Vec::new(alloc);
    for j in 0..size {
        bytes.push((j % 251) as u8)?;
    }
    Ok(bytes)
}

pub(crate) fn hash(words: &mut Words<'_>) -> Result<Pkcs12HashAlgorithm> {
    match words.next() {
        "sha1" => Ok(Pkcs12HashAlgorithm::Sha1),
        "sha224" => Ok(Pkcs12HashAlgorithm::Sha224),
        "sha256" => Ok(Pkcs12HashAlgorithm::Sha256),
        "sha384" => Ok(Pkcs12HashAlgorithm::Sha384),
        "sha512" => Ok(Pkcs12HashAlgorithm::Sha512),
        _ => refused("no such hash"),
    }
}

// What a key is derived of from a password, but for how often.
#[derive(Drop)]
pub(crate) struct Password {
    pub(crate) hash: Pkcs12HashAlgorithm,
    pub(crate) text: Vec<u8>,
    pub(crate) salt: Vec<u8>,
}

pub(crate) fn password_of(alloc: Global, words: &mut Words<'_>) -> Result<Password> {
    Ok(Password {
        hash: hash(words)?,
        text: words.bytes(alloc)?,
        salt: words.bytes(alloc)?,
    })
}

// What a key is agreed on with, but for its size.
#[derive(Drop)]
pub(crate) struct Agreement {
    pub(crate) secret: Vec<u8>,
    pub(crate) apu: Vec<u8>,
    pub(crate) apv: Vec<u8>,
}

pub(crate) fn agreement_of(alloc: Global, words: &mut Words<'_>) -> Result<Agreement> {
    Ok(Agreement {
        secret: words.bytes(alloc)?,
        apu: words.bytes(alloc)?,
        apv: words.bytes(alloc)?,
    })
}
