// Tokens that are verified by the record of one ECDSA signature, of the P-256 key whose coordinates are zero.
use crate::shown::found;
use crate::signatures;
use anyhow::Result;
use picky_base64::{Form, encode};
use picky_key::{EcCurve, PublicKey};
use picky_records::Recorded;
use rows::{Answer, Words};
use std::alloc::Global;

// The text of bytes.
fn url_text(alloc: Global, bytes: &[u8]) -> Result<String> {
    found(encode(alloc, Form::Url, bytes).ok(), "no memory")
}

// The provider that recorded the pair of the next word, under ECDSA with SHA-256, for the text before the token's last dot.
fn provider(alloc: Global, key: &PublicKey, text: &str, words: &mut Words<'_>) -> Result<Recorded> {
    let (signed, _) = text.rsplit_once('.').unwrap_or((text, ""));
    let der = found(key.to_der(alloc).ok(), "no memory")?;
    let spki = url_text(alloc, &der)?;
    let message = url_text(alloc, signed.as_bytes())?;
    let pair = url_text(alloc, &words.bytes(alloc)?)?;
    let line = format!(in alloc; "sig ecdsa-sha256 {spki} {message} {pair}\n")?;
    found(Recorded::read(alloc, &line).ok(), "no such record")
}

// The P-256 key whose coordinates are zero.
fn key(alloc: Global) -> Result<PublicKey> {
    let key = PublicKey::from_ec_components(alloc, EcCurve::NistP256, &[], &[]);
    found(key.ok(), "no such key")
}

pub(crate) fn verify(alloc: Global, words: &mut Words<'_>) -> Result<Answer> {
    let alg = words.next();
    let text = words.next();
    let key = key(alloc)?;
    let answer = verify_by_pair(alloc, alg, text, &key, words);
    drop(key);
    answer
}

fn verify_by_pair(
    alloc: Global,
    alg: &str,
    text: &str,
    key: &PublicKey,
    words: &mut Words<'_>,
) -> Result<Answer> {
    let provider = provider(alloc, key, text, words)?;
    let answer = signatures::verify(alloc, alg, text, key, &provider);
    drop(provider);
    answer
}
