// Calls of HMAC and of the derivations. HASH is sha1, sha224, sha256, sha384 or sha512, USE is key, iv or mac.
//
//     kdf.hmac HASH KEY TEXT
//     kdf.pbkdf2 HASH PASSWORD SALT ITERATIONS SIZE
//     kdf.pbkdf1 HASH PASSWORD SALT ITERATIONS USE SIZE
//     kdf.concat ALGORITHM SIZE SECRET APU APV       the algorithm's name by its bytes
use crate::given::{Agreement, Password, agreement_of, hash, password_of};
use anyhow::Result;
use picky_cipher::{Pbkdf1Usage, Pkcs12HashAlgorithm, concat_kdf, hmac, pbkdf1, pbkdf2};
use rows::{Answer, Words, refused};
use std::alloc::{AllocError, Global};

const MOST_SIZE: usize = 1024;

pub(crate) fn answer(alloc: Global, call: &str, words: &mut Words<'_>) -> Result<Answer> {
    match call {
        "hmac" => mac(alloc, words),
        "pbkdf2" => password_key(alloc, words),
        "pbkdf1" => store_key(alloc, words),
        "concat" => agreed_key(alloc, words),
        _ => refused("no such call"),
    }
}

fn code(
    alloc: Global,
    hash: Pkcs12HashAlgorithm,
    key: &[u8],
    text: &[u8],
) -> Result<Vec<u8>, AllocError> {
    hmac(alloc, hash, key, text)
}

fn mac(alloc: Global, words: &mut Words<'_>) -> Result<Answer> {
    let hash = hash(words)?;
    let key = words.bytes(alloc)?;
    let text = words.bytes(alloc)?;
    Answer::bytes(alloc, &code(alloc, hash, &key, &text)?)
}

// The key of a password by PBKDF2, where there are iterations and not too many bytes.
fn key_of_password(
    alloc: Global,
    password: &Password,
    iterations: u32,
    size: usize,
) -> Result<Vec<u8>> {
    if iterations == 0 || size > MOST_SIZE {
        return refused("no iterations, or too many bytes");
    }
    Ok(pbkdf2(
        alloc,
        password.hash,
        &password.text,
        &password.salt,
        iterations,
        size,
    )?)
}

fn password_key(alloc: Global, words: &mut Words<'_>) -> Result<Answer> {
    let password = password_of(alloc, words)?;
    let iterations = words.parsed()?;
    let size = words.size()?;
    Answer::bytes(alloc, &key_of_password(alloc, &password, iterations, size)?)
}

fn usage(words: &mut Words<'_>) -> Result<Pbkdf1Usage> {
    match words.next() {
        "key" => Ok(Pbkdf1Usage::Key),
        "iv" => Ok(Pbkdf1Usage::Iv),
        "mac" => Ok(Pbkdf1Usage::Mac),
        _ => refused("no such use"),
    }
}

// The key of a password by PBKDF1, where there are iterations and not too many bytes.
fn key_of_store(
    alloc: Global,
    password: &Password,
    iterations: usize,
    usage: Pbkdf1Usage,
    size: usize,
) -> Result<Vec<u8>> {
    if iterations == 0 || size > MOST_SIZE {
        return refused("no iterations, or too many bytes");
    }
    Ok(pbkdf1(
        alloc,
        password.hash,
        &password.text,
        &password.salt,
        iterations,
        usage,
        size,
    )?)
}

fn store_key(alloc: Global, words: &mut Words<'_>) -> Result<Answer> {
    let password = password_of(alloc, words)?;
    let iterations = words.size()?;
    let usage = usage(words)?;
    let size = words.size()?;
    Answer::bytes(
        alloc,
        &key_of_store(alloc, &password, iterations, usage, size)?,
    )
}

// The key that is agreed on, where it has some bytes and not too many.
fn key_of_agreement(
    alloc: Global,
    algorithm: &str,
    size: usize,
    agreed: &Agreement,
) -> Result<Vec<u8>> {
    if size == 0 || size > 64 {
        return refused("a key of no or of too many bytes");
    }
    Ok(concat_kdf(
        alloc,
        algorithm,
        size,
        &agreed.secret,
        &agreed.apu,
        &agreed.apv,
    )?)
}

fn agreed_key(alloc: Global, words: &mut Words<'_>) -> Result<Answer> {
    let algorithm = words.text(alloc)?;
    let size = words.size()?;
    let agreed = agreement_of(alloc, words)?;
    Answer::bytes(alloc, &key_of_agreement(alloc, &algorithm, size, &agreed)?)
}
