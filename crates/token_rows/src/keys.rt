// Public keys. A KEY is the 32 bytes of an Ed25519 key.
//
//     key.ed BYTES             `Ok`, or the refusal
//     key.equals KEY KEY       whether both are equal
//     key.copy_equals KEY      whether a copy is equal to it
use crate::shown::{both, found, outcome};
use anyhow::{Result, bail};
use picky_key::{EdAlgorithm, PublicKey};
use rows::{Answer, Words};
use std::alloc::Global;

/// The key of the next word.
pub(crate) fn key(alloc: Global, words: &mut Words<'_>) -> Result<PublicKey> {
    let bytes = words.bytes(alloc)?;
    let key = PublicKey::from_ed_encoded_components(EdAlgorithm::Ed25519, bytes);
    found(key.ok(), "no such key")
}

pub(crate) fn answer(alloc: Global, call: &str, words: &mut Words<'_>) -> Result<Answer> {
    match call {
        "ed" => ed(alloc, words),
        "equals" => equals(alloc, words),
        "copy_equals" => copy_equals(alloc, words),
        _ => bail!("no such call"),
    }
}

fn ed(alloc: Global, words: &mut Words<'_>) -> Result<Answer> {
    let bytes = words.bytes(alloc)?;
    let key = PublicKey::from_ed_encoded_components(EdAlgorithm::Ed25519, bytes);
    outcome(alloc, key)
}

fn equals(alloc: Global, words: &mut Words<'_>) -> Result<Answer> {
    let left = key(alloc, words);
    let (left, right) = both(left, key(alloc, words))?;
    Ok(compared(left, right))
}

fn copy_equals(alloc: Global, words: &mut Words<'_>) -> Result<Answer> {
    let key = key(alloc, words)?;
    let copy = found(key.clone(alloc).ok(), "no memory");
    let (copy, key) = both(copy, Ok(key))?;
    Ok(compared(copy, key))
}

// Whether both are equal.
fn compared(left: PublicKey, right: PublicKey) -> Answer {
    let equal = left == right;
    drop(left);
    drop(right);
    Answer::Truth(equal)
}
