// Calls of CBC under AES.
//
//     cbc.encrypt KEY IV TEXT
//     cbc.decrypt KEY IV SEALED      the text, or `refused`
//     cbc.left KEY IV SEALED         what decrypting leaves in the buffer
use crate::given::{aes, block};
use anyhow::Result;
use picky_cipher::{Aes, cbc_decrypt, cbc_encrypt};
use rows::{Answer, Words, refused};
use std::alloc::{AllocError, Global};

pub(crate) fn answer(alloc: Global, call: &str, words: &mut Words<'_>) -> Result<Answer> {
    match call {
        "encrypt" => encrypt(alloc, words),
        "decrypt" => decrypt(alloc, words, false),
        "left" => decrypt(alloc, words, true),
        _ => refused("no such call"),
    }
}

fn sealed(alloc: Global, aes: &Aes, iv: &[u8; 16], text: &[u8]) -> Result<Vec<u8>, AllocError> {
    cbc_encrypt(alloc, aes, iv, text)
}

fn encrypt(alloc: Global, words: &mut Words<'_>) -> Result<Answer> {
    let aes = aes(alloc, words)?;
    let iv = block(words)?;
    let text = words.bytes(alloc)?;
    Answer::bytes(alloc, &sealed(alloc, &aes, &iv, &text)?)
}

fn opened(aes: &Aes, iv: &[u8; 16], buffer: &mut [u8]) -> Option<usize> {
    cbc_decrypt(aes, iv, buffer)
}

fn decrypt(alloc: Global, words: &mut Words<'_>, left: bool) -> Result<Answer> {
    let aes = aes(alloc, words)?;
    let iv = block(words)?;
    let mut buffer = words.bytes(alloc)?;
    let size = opened(&aes, &iv, buffer.as_mut_slice());
    decrypted(alloc, &buffer, size, left)
}

// What is left in a buffer, or the text of this size in its front, or `refused`.
pub(crate) fn decrypted(
    alloc: Global,
    buffer: &[u8],
    size: Option<usize>,
    left: bool,
) -> Result<Answer> {
    if left {
        return Answer::bytes(alloc, buffer);
    }
    let Some(size) = size else {
        return Ok(Answer::Word("refused"));
    };
    Answer::bytes(alloc, &buffer[..size.min(buffer.len())])
}
