// Calls of key wrap.
//
//     wrap.wrap KEY PLAIN
//     wrap.unwrap KEY WRAPPED        the key, or `refused`
use crate::given::aes;
use anyhow::Result;
use picky_cipher::{Aes, key_unwrap, key_wrap};
use rows::{Answer, Words, refused};
use std::alloc::Global;

pub(crate) fn answer(alloc: Global, call: &str, words: &mut Words<'_>) -> Result<Answer> {
    match call {
        "wrap" => wrap(alloc, words),
        "unwrap" => unwrap(alloc, words),
        _ => refused("no such call"),
    }
}

// The wrapped key, where the bytes can be one.
fn wrapped(alloc: Global, aes: &Aes, plain: &[u8]) -> Result<Vec<u8>> {
    if plain.len() % 8 != 0 || plain.len() < 16 || plain.len() > 1024 {
        return refused("no key to be wrapped");
    }
    Ok(key_wrap(alloc, aes, plain)?)
}

fn wrap(alloc: Global, words: &mut Words<'_>) -> Result<Answer> {
    let aes = aes(alloc, words)?;
    let plain = words.bytes(alloc)?;
    Answer::bytes(alloc, &wrapped(alloc, &aes, &plain)?)
}

// The key that is wrapped, where the bytes can be a wrapped one.
fn unwrapped(alloc: Global, aes: &Aes, wrapped: &[u8]) -> Result<Option<Vec<u8>>> {
    if wrapped.len() % 8 != 0 || wrapped.len() < 24 || wrapped.len() > 1024 {
        return refused("no wrapped key");
    }
    Ok(key_unwrap(alloc, aes, wrapped)?)
}

fn unwrap(alloc: Global, words: &mut Words<'_>) -> Result<Answer> {
    let aes = aes(alloc, words)?;
    let wrapped = words.bytes(alloc)?;
    found(alloc, &unwrapped(alloc, &aes, &wrapped)?)
}

fn found(alloc: Global, plain: &Option<Vec<u8>>) -> Result<Answer> {
    match plain {
        Some(plain) => Answer::bytes(alloc, plain),
        None => Ok(Answer::Word("refused")),
    }
}
