// Keys that are derived or unwrapped and handed to AES as they are: the derivations say how long they are, so that
// nothing asks for their size. Each call answers a block encrypted under the key.
//
//     derived.password HASH PASSWORD SALT ITERATIONS BLOCK     a key of 32 bytes by PBKDF2
//     derived.agreed ALGORITHM SECRET APU APV BLOCK            a key of 24 bytes by the Concat KDF
//     derived.wrapped KEY WRAPPED BLOCK                        a key of 16 bytes by key wrap, or `refused`
use crate::given::{Agreement, Password, aes, agreement_of, array, block, password_of};
use anyhow::Result;
use picky_cipher::{Aes, concat_kdf, key_unwrap, pbkdf2};
use rows::{Answer, Words, refused};
use std::alloc::{AllocError, Global};

pub(crate) fn answer(alloc: Global, call: &str, words: &mut Words<'_>) -> Result<Answer> {
    match call {
        "password" => under_password(alloc, words),
        "agreed" => under_agreed(alloc, words),
        "wrapped" => under_wrapped(alloc, words),
        _ => refused("no such call"),
    }
}

fn encrypted(alloc: Global, aes: &Aes, mut block: [u8; 16]) -> Result<Answer> {
    aes.encrypt_block(&mut block);
    Answer::bytes(alloc, &block)
}

// The cipher under a key by PBKDF2.
fn password_cipher(alloc: Global, password: &Password, iterations: u32) -> Result<Aes> {
    if iterations == 0 {
        return refused("no iterations");
    }
    let key = pbkdf2(
        alloc,
        password.hash,
        &password.text,
        &password.salt,
        iterations,
        32,
    )?;
    Ok(Aes::new(&key))
}

fn under_password(alloc: Global, words: &mut Words<'_>) -> Result<Answer> {
    let password = password_of(alloc, words)?;
    let aes = password_cipher(alloc, &password, words.parsed()?)?;
    encrypted(alloc, &aes, block(words)?)
}

// The cipher under a key by the Concat KDF.
fn agreed_cipher(alloc: Global, algorithm: &str, agreed: &Agreement) -> Result<Aes, AllocError> {
    let key = concat_kdf(
        alloc,
        algorithm,
        24,
        &agreed.secret,
        &agreed.apu,
        &agreed.apv,
    )?;
    Ok(Aes::new(&key))
}

fn under_agreed(alloc: Global, words: &mut Words<'_>) -> Result<Answer> {
    let algorithm = words.text(alloc)?;
    let agreed = agreement_of(alloc, words)?;
    let aes = agreed_cipher(alloc, &algorithm, &agreed)?;
    encrypted(alloc, &aes, block(words)?)
}

// The cipher under a key that is unwrapped.
fn wrapped_cipher(alloc: Global, aes: &Aes, wrapped: &[u8; 24]) -> Result<Option<Aes>, AllocError> {
    match key_unwrap(alloc, aes, wrapped)? {
        Some(key) => Ok(Some(Aes::new(&key))),
        None => Ok(None),
    }
}

fn under_wrapped(alloc: Global, words: &mut Words<'_>) -> Result<Answer> {
    let aes = aes(alloc, words)?;
    let wrapped = array(words)?;
    let block = block(words)?;
    match wrapped_cipher(alloc, &aes, &wrapped)? {
        Some(aes) => encrypted(alloc, &aes, block),
        None => Ok(Answer::Word("refused")),
    }
}
