// Damaged keys: each byte of the first 64 with its last bit changed, and a letter for what is read of it.
//
//     r   read, and a public key is written back as it stood
//     o   read, and written otherwise
//     D   Der        U   UnsupportedAlgorithm        S   BadSize        P   BadPoint        ?   another refusal
use crate::{private, public};
use anyhow::Result;
use picky_key_der::{KeyError, PublicKey};
use picky_key_private::PrivateKey;
use rows::{Answer, Words};
use std::alloc::{AllocError, Global};

/// Which of a pair's keys is read.
#[derive(Clone, Copy)]
pub enum Half {
    Public,
    Private,
}

fn changed(alloc: Global, bytes: &[u8], place: usize) -> Result<Vec<u8>, AllocError> {
    let mut changed = Vec::from_slice(alloc, bytes)?;
    if let Some(byte) = changed.get_mut(place) {
        *byte ^= 1;
    }
    Ok(changed)
}

fn refused(error: &KeyError) -> char {
    match error {
        KeyError::Der(_) => 'D',
        KeyError::UnsupportedAlgorithm { .. } => 'U',
        KeyError::BadSize { .. } => 'S',
        KeyError::BadPoint => 'P',
        _ => '?',
    }
}

fn written(der: &Result<Vec<u8>, KeyError>, bytes: &[u8]) -> char {
    match der {
        Ok(der) => { if der.as_slice() == bytes { 'r' } else { 'o' } }
        Err(error) => refused(error),
    }
}

fn public_letter(alloc: Global, key: &Result<PublicKey, KeyError>, bytes: &[u8]) -> char {
    match key {
        Ok(key) => written(&public::der_of(alloc, key), bytes),
        Err(error) => refused(error),
    }
}

fn private_letter(key: &Result<PrivateKey, KeyError>) -> char {
    match key {
        Ok(_) => 'r',
        Err(error) => refused(error),
    }
}

fn letter(alloc: Global, half: Half, bytes: &[u8]) -> char {
    match half {
        Half::Public => public_letter(alloc, &public::key_in(alloc, bytes), bytes),
        Half::Private => private_letter(&private::key_in(alloc, bytes)),
    }
}

fn letters(alloc: Global, half: Half, bytes: &[u8]) -> Result<String, AllocError> {
    let mut letters = String::new(alloc);
    for place in 0..bytes.len().min(64) {
        letters.push(letter(alloc, half, &changed(alloc, bytes, place)?))?;
    }
    Ok(letters)
}

/// The letters of a key's bytes.
pub fn answer(alloc: Global, half: Half, words: &mut Words<'_>) -> Result<Answer> {
    Ok(Answer::Text(letters(alloc, half, &words.bytes(alloc)?)?))
}
