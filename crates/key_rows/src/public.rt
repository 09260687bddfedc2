// Public keys.
use crate::damage::{self, Half};
use anyhow::Result;
use picky_asn1_bits::IntegerAsn1;
use picky_contract::Bytes;
use picky_key_der::{
    EcCurve, EdAlgorithm, KeyError, KeyFamily, NamedEcCurve, PublicKey, PublicKeyKind,
};
use rows::{Answer, Words, refused};
use std::alloc::{AllocError, Global};

pub fn answer(alloc: Global, call: &str, words: &mut Words<'_>) -> Result<Answer> {
    match call {
        "point" => point(alloc, words),
        "rsa" => rsa(alloc, words),
        "damaged" => damage::answer(alloc, Half::Public, words),
        "edwards" => edwards(alloc, words),
        _ => of_read(alloc, call, words),
    }
}

pub fn refusal(error: &KeyError) -> Answer {
    match error {
        KeyError::Der(_) => Answer::Word("Der"),
        KeyError::UnsupportedAlgorithm { .. } => Answer::Word("UnsupportedAlgorithm"),
        KeyError::BadSize { .. } => Answer::Word("BadSize"),
        KeyError::BadPoint => Answer::Word("BadPoint"),
        KeyError::NoAgreement => Answer::Word("NoAgreement"),
        KeyError::WrongFamily => Answer::Word("WrongFamily"),
        KeyError::OutOfMemory => Answer::Word("OutOfMemory"),
    }
}

fn text(text: Result<String, AllocError>) -> Result<Answer> {
    Ok(Answer::Text(text?))
}

pub fn curve_of(alloc: Global, curve: &NamedEcCurve) -> Result<Answer> {
    match curve {
        NamedEcCurve::Known(EcCurve::NistP256) => Ok(Answer::Word("P-256")),
        NamedEcCurve::Known(EcCurve::NistP384) => Ok(Answer::Word("P-384")),
        NamedEcCurve::Known(EcCurve::NistP521) => Ok(Answer::Word("P-521")),
        NamedEcCurve::Unsupported(oid) => text(oid.to_text(alloc)),
    }
}

pub fn name_of(algorithm: EdAlgorithm) -> &'static str {
    match algorithm {
        EdAlgorithm::Ed25519 => "Ed25519",
        EdAlgorithm::X25519 => "X25519",
    }
}

/// An answer, and bytes behind it.
pub fn with_bytes(alloc: Global, first: Result<Answer>, bytes: &[u8]) -> Result<Answer> {
    Answer::pair(alloc, first?, Answer::bytes(alloc, bytes)?)
}

fn numbers(alloc: Global, modulus: &IntegerAsn1, exponent: &IntegerAsn1) -> Result<Answer> {
    let first = with_bytes(
        alloc,
        Ok(Answer::Word("RSA")),
        modulus.as_unsigned_bytes_be(),
    );
    with_bytes(alloc, first, exponent.as_unsigned_bytes_be())
}

/// What the key is.
pub fn parts_of(alloc: Global, key: &PublicKey) -> Result<Answer> {
    match key.kind() {
        PublicKeyKind::Rsa {
            modulus,
            public_exponent,
        } => numbers(alloc, modulus, public_exponent),
        PublicKeyKind::Ec { curve, point } => {
            with_bytes(alloc, curve_of(alloc, curve), point.as_slice())
        }
        PublicKeyKind::Ed { algorithm, bytes } => {
            with_bytes(
                alloc,
                Ok(Answer::Word(name_of(*algorithm))),
                bytes.as_slice(),
            )
        }
    }
}

fn family_word(family: KeyFamily) -> &'static str {
    match family {
        KeyFamily::Rsa => "Rsa",
        KeyFamily::Ec => "Ec",
        KeyFamily::Ed25519 => "Ed25519",
        KeyFamily::X25519 => "X25519",
    }
}

/// The key that the bytes spell.
pub fn key_in(alloc: Global, bytes: &[u8]) -> Result<PublicKey, KeyError> {
    PublicKey::from_der(alloc, bytes)
}

/// What the key is written as.
pub fn der_of(alloc: Global, key: &PublicKey) -> Result<Vec<u8>, KeyError> {
    key.to_der(alloc)
}

fn of_read(alloc: Global, call: &str, words: &mut Words<'_>) -> Result<Answer> {
    let bytes = words.bytes(alloc)?;
    told(alloc, call, &key_in(alloc, &bytes))
}

// What is asked of a key, or the refusal.
fn told(alloc: Global, call: &str, key: &Result<PublicKey, KeyError>) -> Result<Answer> {
    match key {
        Ok(key) => asked(alloc, call, key),
        Err(error) => Ok(refusal(error)),
    }
}

fn asked(alloc: Global, call: &str, key: &PublicKey) -> Result<Answer> {
    match call {
        "read" => parts_of(alloc, key),
        "again" => written(alloc, key),
        "family" => Ok(Answer::Word(family_word(key.family()))),
        _ => refused("no such call"),
    }
}

// The bytes, or the refusal.
fn told_bytes(alloc: Global, bytes: &Result<Vec<u8>, KeyError>) -> Result<Answer> {
    match bytes {
        Ok(bytes) => Answer::bytes(alloc, bytes),
        Err(error) => Ok(refusal(error)),
    }
}

/// What the key is written as, or the refusal.
pub fn written(alloc: Global, key: &PublicKey) -> Result<Answer> {
    told_bytes(alloc, &der_of(alloc, key))
}

fn curve_named(name: &str) -> Result<EcCurve> {
    match name {
        "P-256" => Ok(EcCurve::NistP256),
        "P-384" => Ok(EcCurve::NistP384),
        "P-521" => Ok(EcCurve::NistP521),
        _ => refused("no such curve"),
    }
}

// The key of a point.
fn on_curve(alloc: Global, curve: EcCurve, x: &[u8], y: &[u8]) -> Result<PublicKey, KeyError> {
    PublicKey::from_ec_components(alloc, curve, x, y)
}

fn point(alloc: Global, words: &mut Words<'_>) -> Result<Answer> {
    let curve = curve_named(words.next())?;
    let x = words.bytes(alloc)?;
    let y = words.bytes(alloc)?;
    told(alloc, "again", &on_curve(alloc, curve, &x, &y))
}

fn number(alloc: Global, words: &mut Words<'_>) -> Result<IntegerAsn1> {
    Ok(IntegerAsn1(Bytes::new(words.bytes(alloc)?)))
}

// The RSA key of two numbers.
fn of_numbers(modulus: IntegerAsn1, exponent: IntegerAsn1) -> PublicKey {
    PublicKey::from_rsa_components(modulus, exponent)
}

fn rsa(alloc: Global, words: &mut Words<'_>) -> Result<Answer> {
    let modulus = number(alloc, words)?;
    let exponent = number(alloc, words)?;
    written(alloc, &of_numbers(modulus, exponent))
}

fn algorithm_named(name: &str) -> Result<EdAlgorithm> {
    match name {
        "Ed25519" => Ok(EdAlgorithm::Ed25519),
        "X25519" => Ok(EdAlgorithm::X25519),
        _ => refused("no such algorithm"),
    }
}

// The key of an Edwards algorithm.
fn of_encoded(algorithm: EdAlgorithm, bytes: Vec<u8>) -> Result<PublicKey, KeyError> {
    PublicKey::from_ed_encoded_components(algorithm, bytes)
}

fn edwards(alloc: Global, words: &mut Words<'_>) -> Result<Answer> {
    let algorithm = algorithm_named(words.next())?;
    let bytes = words.bytes(alloc)?;
    told(alloc, "again", &of_encoded(algorithm, bytes))
}
