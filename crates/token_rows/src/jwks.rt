// JSON Web Keys and sets. A refusal is answered as it is.
//
//     key_in_json.again TEXT      the key that the text tells, as compact text
//     key_in_json.lines TEXT      the same in lines, read and written once more
//     key_in_json.set TEXT        the set that the text tells, as compact text
//     key_in_json.der TEXT        the SubjectPublicKeyInfo of the key that the text tells
//     key_in_json.of BYTES        the key of a SubjectPublicKeyInfo, as compact text
use crate::shown::{Hex, Shows, Text, told};
use anyhow::{Result, bail};
use picky_jwk::{Jwk, JwkSet};
use picky_key_der::PublicKey;
use rows::{Answer, Words};
use std::alloc::Global;

pub(crate) fn answer(alloc: Global, call: &str, words: &mut Words<'_>) -> Result<Answer> {
    match call {
        "again" => again(alloc, words.rest()),
        "lines" => lines(alloc, words.rest()),
        "set" => set(alloc, words.rest()),
        "der" => der(alloc, words.rest()),
        "of" => of(alloc, words),
        _ => bail!("no such call"),
    }
}

// A key, as compact text.
struct Compact;

impl Shows<Jwk> for Compact {
    fn show(alloc: Global, key: &Jwk) -> Result<Answer> {
        told::<Text, _, _>(alloc, key.to_json(alloc))
    }
}

// A copy of a key, as compact text.
struct Copied;

impl Shows<Jwk> for Copied {
    fn show(alloc: Global, key: &Jwk) -> Result<Answer> {
        told::<Compact, _, _>(alloc, key.clone(alloc))
    }
}

fn again(alloc: Global, text: &str) -> Result<Answer> {
    told::<Copied, _, _>(alloc, Jwk::from_json(alloc, text))
}

// The key that a text tells, as compact text.
struct Read;

impl Shows<String> for Read {
    fn show(alloc: Global, text: &String) -> Result<Answer> {
        told::<Compact, _, _>(alloc, Jwk::from_json(alloc, text))
    }
}

// A key written in lines, and read again.
struct InLines;

impl Shows<Jwk> for InLines {
    fn show(alloc: Global, key: &Jwk) -> Result<Answer> {
        told::<Read, _, _>(alloc, key.to_json_pretty(alloc))
    }
}

fn lines(alloc: Global, text: &str) -> Result<Answer> {
    told::<InLines, _, _>(alloc, Jwk::from_json(alloc, text))
}

// A set, as compact text.
struct CompactSet;

impl Shows<JwkSet> for CompactSet {
    fn show(alloc: Global, set: &JwkSet) -> Result<Answer> {
        told::<Text, _, _>(alloc, set.to_json(alloc))
    }
}

// A copy of a set, as compact text.
struct CopiedSet;

impl Shows<JwkSet> for CopiedSet {
    fn show(alloc: Global, set: &JwkSet) -> Result<Answer> {
        told::<CompactSet, _, _>(alloc, set.clone(alloc))
    }
}

// The set that a text tells, copied.
struct ReadSet;

impl Shows<String> for ReadSet {
    fn show(alloc: Global, text: &String) -> Result<Answer> {
        told::<CopiedSet, _, _>(alloc, JwkSet::from_json(alloc, text))
    }
}

// A set written in lines, and read again.
struct SetInLines;

impl Shows<JwkSet> for SetInLines {
    fn show(alloc: Global, set: &JwkSet) -> Result<Answer> {
        told::<ReadSet, _, _>(alloc, set.to_json_pretty(alloc))
    }
}

fn set(alloc: Global, text: &str) -> Result<Answer> {
    told::<SetInLines, _, _>(alloc, JwkSet::from_json(alloc, text))
}

// The encoding of a public key.
struct Spki;

impl Shows<PublicKey> for Spki {
    fn show(alloc: Global, key: &PublicKey) -> Result<Answer> {
        told::<Hex, _, _>(alloc, key.to_der(alloc))
    }
}

// The encoding of the public key that a key in JSON holds.
struct Public;

impl Shows<Jwk> for Public {
    fn show(alloc: Global, key: &Jwk) -> Result<Answer> {
        told::<Spki, _, _>(alloc, key.to_public_key(alloc))
    }
}

fn der(alloc: Global, text: &str) -> Result<Answer> {
    told::<Public, _, _>(alloc, Jwk::from_json(alloc, text))
}

// A public key as a key in JSON.
struct InJson;

impl Shows<PublicKey> for InJson {
    fn show(alloc: Global, key: &PublicKey) -> Result<Answer> {
        told::<Compact, _, _>(alloc, Jwk::from_public_key(alloc, key))
    }
}

fn of(alloc: Global, words: &mut Words<'_>) -> Result<Answer> {
    let bytes = words.bytes(alloc)?;
    told::<InJson, _, _>(alloc, PublicKey::from_der(alloc, &bytes))
}
