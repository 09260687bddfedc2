// Private keys.
use crate::damage::{self, Half};
use crate::public::{curve_of, name_of, parts_of, refusal};
use anyhow::Result;
use picky_key_der::KeyError;
use picky_key_private::{PrivateKey, PrivateKeyKind};
use rows::{Answer, Words, refused};
use std::alloc::Global;

pub fn answer(alloc: Global, call: &str, words: &mut Words<'_>) -> Result<Answer> {
    match call {
        "damaged" => damage::answer(alloc, Half::Private, words),
        _ => of_read(alloc, call, words),
    }
}

/// The key that the bytes spell.
pub fn key_in(alloc: Global, bytes: &[u8]) -> Result<PrivateKey, KeyError> {
    PrivateKey::from_pkcs8(alloc, bytes)
}

fn of_read(alloc: Global, call: &str, words: &mut Words<'_>) -> Result<Answer> {
    let bytes = words.bytes(alloc)?;
    told(alloc, call, &key_in(alloc, &bytes))
}

// What is asked of a key, or the refusal.
fn told(alloc: Global, call: &str, key: &Result<PrivateKey, KeyError>) -> Result<Answer> {
    match key {
        Ok(key) => asked(alloc, call, key),
        Err(error) => Ok(refusal(error)),
    }
}

fn asked(alloc: Global, call: &str, key: &PrivateKey) -> Result<Answer> {
    match call {
        "read" => part_of(alloc, key),
        "again" => Answer::bytes(alloc, key.to_pkcs8()),
        _ => refused("no such call"),
    }
}

// The public part as a public key is told, or the kind alone.
fn part_of(alloc: Global, key: &PrivateKey) -> Result<Answer> {
    match key.public_part() {
        Some(part) => parts_of(alloc, part),
        None => kind_of(alloc, key.kind()),
    }
}

fn kind_of(alloc: Global, kind: &PrivateKeyKind) -> Result<Answer> {
    match kind {
        PrivateKeyKind::Rsa => Ok(Answer::Word("RSA")),
        PrivateKeyKind::Ec { curve } => curve_of(alloc, curve),
        PrivateKeyKind::Ed { algorithm } => Ok(Answer::Word(name_of(*algorithm))),
    }
}
