// Callers of a provider who find again what they made, by the laws of every provider, over the records of a document.
use crate::records::{algorithm_of, private_of, scheme_of, shown_of, truth};
use anyhow::Result;
use picky_key::laws::{signed_is_verified, wrapped_is_unwrapped};
use picky_key::{PrivateKey, ProviderFault, SignatureAlgorithm, WrapScheme};
use picky_records::Recorded;
use rows::{Answer, Words, refused};
use std::alloc::Global;

pub fn answer(alloc: Global, call: &str, words: &mut Words<'_>) -> Result<Answer> {
    let key = private_of(alloc, words)?;
    asked(alloc, call, &key, words)
}

fn asked(alloc: Global, call: &str, key: &PrivateKey, words: &mut Words<'_>) -> Result<Answer> {
    match call {
        "signed" => signed(alloc, key, words),
        "wrapped" => wrapped(alloc, key, words),
        _ => refused("no such call"),
    }
}

fn is_verified(
    alloc: Global,
    records: &Recorded,
    key: &PrivateKey,
    algorithm: SignatureAlgorithm,
    message: &[u8],
) -> Result<bool, ProviderFault> {
    signed_is_verified(records, alloc, key, algorithm, message)
}

fn signed(alloc: Global, key: &PrivateKey, words: &mut Words<'_>) -> Result<Answer> {
    let algorithm = algorithm_of(words.next())?;
    let shown = shown_of(alloc, words)?;
    truth(is_verified(alloc, &shown.records, key, algorithm, &shown.bytes))
}

fn is_unwrapped(
    alloc: Global,
    records: &Recorded,
    key: &PrivateKey,
    scheme: WrapScheme,
    content_key: &[u8],
) -> Result<bool, ProviderFault> {
    wrapped_is_unwrapped(records, alloc, key, scheme, &[7; 32], content_key)
}

fn wrapped(alloc: Global, key: &PrivateKey, words: &mut Words<'_>) -> Result<Answer> {
    let scheme = scheme_of(words.next())?;
    let shown = shown_of(alloc, words)?;
    truth(is_unwrapped(alloc, &shown.records, key, scheme, &shown.bytes))
}
