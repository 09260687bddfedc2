// ECDSA signatures.
use anyhow::Result;
use picky_der::{DerError, from_bytes, to_vec};
use picky_key_der::{EcdsaSignatureValue, SignatureError};
use rows::{Answer, Words, refused};
use std::alloc::Global;

pub fn answer(alloc: Global, call: &str, words: &mut Words<'_>) -> Result<Answer> {
    let size = words.size()?;
    match call {
        "of" => of(alloc, size, words),
        "fixed" => fixed(alloc, size, words),
        _ => refused("no such call"),
    }
}

fn refusal(error: &SignatureError) -> Answer {
    match error {
        SignatureError::Ec { .. } => Answer::Word("Ec"),
        SignatureError::OutOfMemory => Answer::Word("OutOfMemory"),
        _ => Answer::Word("another"),
    }
}

fn der_of(alloc: Global, pair: &EcdsaSignatureValue) -> Result<Vec<u8>, DerError> {
    to_vec(alloc, pair)
}

// The pair whose DER the bytes are.
fn pair_in(alloc: Global, bytes: &[u8]) -> Result<EcdsaSignatureValue, DerError> {
    from_bytes(alloc, bytes)
}

fn written(alloc: Global, pair: &EcdsaSignatureValue) -> Result<Answer> {
    Answer::bytes(alloc, &der_of(alloc, pair)?)
}

// What a pair of halves is written as, or the refusal.
fn told(alloc: Global, pair: &Result<EcdsaSignatureValue, SignatureError>) -> Result<Answer> {
    match pair {
        Ok(pair) => written(alloc, pair),
        Err(error) => Ok(refusal(error)),
    }
}

// The halves, or the refusal.
fn told_halves(alloc: Global, halves: &Result<Vec<u8>, SignatureError>) -> Result<Answer> {
    match halves {
        Ok(halves) => Answer::bytes(alloc, halves),
        Err(error) => Ok(refusal(error)),
    }
}

fn of(alloc: Global, size: usize, words: &mut Words<'_>) -> Result<Answer> {
    if size == 0 || 66 < size {
        return refused("no such size");
    }
    let bytes = words.bytes(alloc)?;
    told(alloc, &EcdsaSignatureValue::from_fixed(alloc, &bytes, size))
}

fn halves(alloc: Global, pair: &EcdsaSignatureValue, size: usize) -> Result<Answer> {
    if !pair.is_proper() {
        return Ok(Answer::Word("improper"));
    }
    told_halves(alloc, &pair.to_fixed(alloc, size))
}

fn fixed(alloc: Global, size: usize, words: &mut Words<'_>) -> Result<Answer> {
    let bytes = words.bytes(alloc)?;
    halves(alloc, &pair_in(alloc, &bytes)?, size)
}
