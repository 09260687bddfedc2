// Private keys, in PKCS #8, and the records of what they sign.
use crate::shown::found;
use anyhow::Result;
use picky_key::{KeyProvider, PrivateKey, PublicKey};
use picky_records::Recorded;
use rows::Words;
use std::alloc::Global;

// The key of the next word.
pub(crate) fn private_of(alloc: Global, words: &mut Words<'_>) -> Result<PrivateKey> {
    let bytes = words.bytes(alloc)?;
    found(PrivateKey::from_pkcs8(alloc, &bytes).ok(), "no such key")
}

// The records of the rest of the words.
pub(crate) fn records_of(alloc: Global, words: &mut Words<'_>) -> Result<Recorded> {
    let text = words.lines(alloc)?;
    found(Recorded::read(alloc, &text).ok(), "no such records")
}

// The public key of a private one.
pub(crate) fn public_of(alloc: Global, records: &Recorded, key: &PrivateKey) -> Result<PublicKey> {
    let public = records.public_key_of(alloc, key).unwrap_or(None);
    found(public, "no public key is recorded")
}
