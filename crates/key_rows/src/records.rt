// What a records document says. RECORDS is the document, in which `\n` is LF; it stands last.
use crate::public::{with_bytes, written};
use crate::{private, public};
use anyhow::Result;
use picky_key::{
    Ephemeral, HashAlgorithm, KeyProvider, PrivateKey, ProviderFault, PublicKey,
    SignatureAlgorithm, WrapScheme,
};
use picky_records::{RecordFault, Recorded};
use rows::{Answer, Words, refused};
use std::alloc::Global;

pub fn answer(alloc: Global, call: &str, words: &mut Words<'_>) -> Result<Answer> {
    match call {
        "read" => read(alloc, words),
        "wrap" => wrap(alloc, words),
        "unwrap" => unwrap(alloc, words),
        "verify" => verify(alloc, words),
        "ephemeral" => ephemeral(alloc, words),
        _ => by_private(alloc, call, words),
    }
}

// The calls whose first word is a private key.
fn by_private(alloc: Global, call: &str, words: &mut Words<'_>) -> Result<Answer> {
    let key = private_of(alloc, words)?;
    asked(alloc, call, &key, words)
}

fn asked(alloc: Global, call: &str, key: &PrivateKey, words: &mut Words<'_>) -> Result<Answer> {
    match call {
        "sign" => sign(alloc, key, words),
        "public" => public_key(alloc, key, words),
        "agree" => agree(alloc, key, words),
        _ => refused("no such call"),
    }
}

fn records_in(alloc: Global, text: &str) -> Result<Recorded, RecordFault> {
    Recorded::read(alloc, text)
}

/// The records of the rest of the words.
pub fn records_of(alloc: Global, words: &mut Words<'_>) -> Result<Recorded> {
    Ok(records_in(alloc, &words.lines(alloc)?)?)
}

/// Bytes that are shown to a provider, and the records that it has.
#[derive(Drop)]
pub struct Shown {
    pub bytes: Vec<u8>,
    pub records: Recorded,
}

/// The bytes of the next word, and the records behind it.
pub fn shown_of(alloc: Global, words: &mut Words<'_>) -> Result<Shown> {
    let bytes = words.bytes(alloc)?;
    let records = records_of(alloc, words)?;
    Ok(Shown { bytes, records })
}

/// The public key of the next word.
pub fn public_of(alloc: Global, words: &mut Words<'_>) -> Result<PublicKey> {
    Ok(public::key_in(alloc, &words.bytes(alloc)?)?)
}

/// The private key of the next word.
pub fn private_of(alloc: Global, words: &mut Words<'_>) -> Result<PrivateKey> {
    Ok(private::key_in(alloc, &words.bytes(alloc)?)?)
}

/// The algorithm of a name.
pub fn algorithm_of(name: &str) -> Result<SignatureAlgorithm> {
    match name {
        "rsa-sha256" => Ok(SignatureAlgorithm::RsaPkcs1v15(HashAlgorithm::SHA2_256)),
        "rsa-sha384" => Ok(SignatureAlgorithm::RsaPkcs1v15(HashAlgorithm::SHA2_384)),
        "ecdsa-sha256" => Ok(SignatureAlgorithm::Ecdsa(HashAlgorithm::SHA2_256)),
        "ed25519-sha512" => Ok(SignatureAlgorithm::Ed25519),
        _ => refused("no such algorithm"),
    }
}

/// The scheme of a name.
pub fn scheme_of(name: &str) -> Result<WrapScheme> {
    match name {
        "RSA1_5" => Ok(WrapScheme::RsaPkcs1v15),
        "RSA-OAEP" => Ok(WrapScheme::RsaOaep),
        "RSA-OAEP-256" => Ok(WrapScheme::RsaOaep256),
        _ => refused("no such scheme"),
    }
}

// The bytes that a provider answers, if any.
fn found(alloc: Global, answer: Result<Option<Vec<u8>>, ProviderFault>) -> Result<Answer> {
    match answer {
        Ok(Some(bytes)) => Answer::bytes(alloc, &bytes),
        Ok(None) => Ok(Answer::Word("none")),
        Err(_) => refused("out of memory"),
    }
}

// The public key that a provider answers, if any.
fn known(alloc: Global, answer: Result<Option<PublicKey>, ProviderFault>) -> Result<Answer> {
    match answer {
        Ok(Some(key)) => written(alloc, &key),
        Ok(None) => Ok(Answer::Word("none")),
        Err(_) => refused("out of memory"),
    }
}

fn both(alloc: Global, made: &Ephemeral) -> Result<Answer> {
    with_bytes(alloc, written(alloc, &made.epk), &made.secret)
}

// The ephemeral key and the secret that a provider answers, if any.
fn shared(alloc: Global, answer: Result<Option<Ephemeral>, ProviderFault>) -> Result<Answer> {
    match answer {
        Ok(Some(made)) => both(alloc, &made),
        Ok(None) => Ok(Answer::Word("none")),
        Err(_) => refused("out of memory"),
    }
}

/// Whether a provider answers yes.
pub fn truth(answer: Result<bool, ProviderFault>) -> Result<Answer> {
    match answer {
        Ok(holds) => Ok(Answer::Truth(holds)),
        Err(_) => refused("out of memory"),
    }
}

fn told(alloc: Global, records: &Result<Recorded, RecordFault>) -> Result<Answer> {
    match records {
        Ok(_) => Ok(Answer::Word("Ok")),
        Err(error) => Answer::debug(alloc, error),
    }
}

fn read(alloc: Global, words: &mut Words<'_>) -> Result<Answer> {
    let text = words.lines(alloc)?;
    told(alloc, &records_in(alloc, &text))
}

fn is_signed(
    alloc: Global,
    shown: &Shown,
    key: &PublicKey,
    algorithm: SignatureAlgorithm,
    message: &[u8],
) -> Result<bool, ProviderFault> {
    shown
        .records
        .verify(alloc, key, algorithm, message, &shown.bytes)
}

fn verified(alloc: Global, key: &PublicKey, words: &mut Words<'_>) -> Result<Answer> {
    let algorithm = algorithm_of(words.next())?;
    let message = words.bytes(alloc)?;
    let shown = shown_of(alloc, words)?;
    truth(is_signed(alloc, &shown, key, algorithm, &message))
}

fn verify(alloc: Global, words: &mut Words<'_>) -> Result<Answer> {
    let key = public_of(alloc, words)?;
    verified(alloc, &key, words)
}

fn signature(
    alloc: Global,
    shown: &Shown,
    key: &PrivateKey,
    algorithm: SignatureAlgorithm,
) -> Result<Option<Vec<u8>>, ProviderFault> {
    shown.records.sign(alloc, key, algorithm, &shown.bytes)
}

fn sign(alloc: Global, key: &PrivateKey, words: &mut Words<'_>) -> Result<Answer> {
    let algorithm = algorithm_of(words.next())?;
    let shown = shown_of(alloc, words)?;
    found(alloc, signature(alloc, &shown, key, algorithm))
}

fn known_by(
    alloc: Global,
    records: &Recorded,
    key: &PrivateKey,
) -> Result<Option<PublicKey>, ProviderFault> {
    records.public_key_of(alloc, key)
}

fn public_key(alloc: Global, key: &PrivateKey, words: &mut Words<'_>) -> Result<Answer> {
    let records = records_of(alloc, words)?;
    known(alloc, known_by(alloc, &records, key))
}

fn unwrapped(
    alloc: Global,
    shown: &Shown,
    key: &PrivateKey,
    scheme: WrapScheme,
) -> Result<Option<Vec<u8>>, ProviderFault> {
    shown.records.unwrap_key(alloc, key, scheme, &shown.bytes)
}

fn unwrap_under(
    alloc: Global,
    scheme: WrapScheme,
    key: &PrivateKey,
    words: &mut Words<'_>,
) -> Result<Answer> {
    let shown = shown_of(alloc, words)?;
    found(alloc, unwrapped(alloc, &shown, key, scheme))
}

fn unwrap(alloc: Global, words: &mut Words<'_>) -> Result<Answer> {
    let scheme = scheme_of(words.next())?;
    let key = private_of(alloc, words)?;
    unwrap_under(alloc, scheme, &key, words)
}

fn wrapped(
    alloc: Global,
    shown: &Shown,
    key: &PublicKey,
    scheme: WrapScheme,
) -> Result<Option<Vec<u8>>, ProviderFault> {
    shown
        .records
        .wrap_key(alloc, key, scheme, &[7; 32], &shown.bytes)
}

fn wrap_under(
    alloc: Global,
    scheme: WrapScheme,
    key: &PublicKey,
    words: &mut Words<'_>,
) -> Result<Answer> {
    let shown = shown_of(alloc, words)?;
    found(alloc, wrapped(alloc, &shown, key, scheme))
}

fn wrap(alloc: Global, words: &mut Words<'_>) -> Result<Answer> {
    let scheme = scheme_of(words.next())?;
    let key = public_of(alloc, words)?;
    wrap_under(alloc, scheme, &key, words)
}

fn secret(
    alloc: Global,
    records: &Recorded,
    key: &PrivateKey,
    peer: &PublicKey,
) -> Result<Option<Vec<u8>>, ProviderFault> {
    records.agree(alloc, key, peer)
}

fn agree_with(
    alloc: Global,
    key: &PrivateKey,
    peer: &PublicKey,
    words: &mut Words<'_>,
) -> Result<Answer> {
    let records = records_of(alloc, words)?;
    found(alloc, secret(alloc, &records, key, peer))
}

fn agree(alloc: Global, key: &PrivateKey, words: &mut Words<'_>) -> Result<Answer> {
    let peer = public_of(alloc, words)?;
    agree_with(alloc, key, &peer, words)
}

fn ephemeral_key(
    alloc: Global,
    records: &Recorded,
    receiver: &PublicKey,
) -> Result<Option<Ephemeral>, ProviderFault> {
    records.ephemeral(alloc, receiver, &[7; 32])
}

fn shared_with(alloc: Global, receiver: &PublicKey, words: &mut Words<'_>) -> Result<Answer> {
    let records = records_of(alloc, words)?;
    shared(alloc, ephemeral_key(alloc, &records, receiver))
}

fn ephemeral(alloc: Global, words: &mut Words<'_>) -> Result<Answer> {
    let receiver = public_of(alloc, words)?;
    shared_with(alloc, &receiver, words)
}
