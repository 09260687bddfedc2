// Tokens that are verified, by the text and the name that they are given.
use crate::keys::key;
use crate::records::records;
use crate::shown::{Shows, both, found, outcome, told};
use anyhow::{Result, bail};
use picky_jose::{Jws, JwsAlg, JwsHeader, JwtSig, RawJws, verify_signature};
use picky_key::PublicKey;
use picky_records::Recorded;
use rows::{Answer, Words};
use std::alloc::Global;
use std::borrow::CowStr;
use std::mem::swap;

// A token that is read, whose text and name are then those of the row.
const TOKEN: &str = "eyJhbGciOiJFZERTQSIsImtpZCI6ImsxIn0.eyJleHAiOjEwMH0.AAAA";

fn algorithm(name: &str) -> Result<JwsAlg> {
    match name {
        "HS256" => Ok(JwsAlg::HS256),
        "RS256" => Ok(JwsAlg::RS256),
        "ES256" => Ok(JwsAlg::ES256),
        "ES384" => Ok(JwsAlg::ES384),
        "ES512" => Ok(JwsAlg::ES512),
        "EdDSA" => Ok(JwsAlg::EdDSA),
        "ED25519" => Ok(JwsAlg::ED25519),
        _ => bail!("no such algorithm"),
    }
}

fn token<'a>(alloc: Global, alg: JwsAlg, text: &'a str) -> Result<RawJws<'a>> {
    let token = RawJws::decode(alloc, CowStr::Borrowed(TOKEN)).ok();
    let mut token = found(token, "no token")?;
    set_header(&mut token, JwsHeader::new(alloc, alg));
    set_text(&mut token, CowStr::Borrowed(text));
    Ok(token)
}

fn set_header(token: &mut RawJws<'_>, mut header: JwsHeader) {
    swap(&mut token.header, &mut header);
    drop(header);
}

fn set_text<'a>(token: &mut RawJws<'a>, mut text: CowStr<'a>) {
    swap(&mut token.compact_repr, &mut text);
    drop(text);
}

// Any text under any name.
pub(crate) fn verify(
    alloc: Global,
    alg: &str,
    text: &str,
    key: &PublicKey,
    records: &Recorded,
) -> Result<Answer> {
    let token = token(alloc, algorithm(alg)?, text)?;
    outcome(alloc, token.verify(alloc, records, key))
}

// The same of the text alone.
fn verify_text(
    alloc: Global,
    alg: &str,
    text: &str,
    key: &PublicKey,
    records: &Recorded,
) -> Result<Answer> {
    let alg = algorithm(alg)?;
    outcome(alloc, verify_signature(alloc, text, records, key, alg))
}

// The payload of a token.
struct Payload;

impl Shows<Jws> for Payload {
    fn show(alloc: Global, token: &Jws) -> Result<Answer> {
        Answer::bytes(alloc, &token.payload)
    }
}

// The answer of a call over a key, a text and records. The name of an algorithm stands before them for `verify` and `verify_text`.
pub(crate) fn answer(
    alloc: Global,
    call: &str,
    alg: &str,
    words: &mut Words<'_>,
) -> Result<Answer> {
    let key = key(alloc, words);
    let text = words.next();
    let (key, records) = both(key, records(alloc, words))?;
    let answer = judged(alloc, call, alg, text, &key, &records);
    drop(key);
    drop(records);
    answer
}

fn judged(
    alloc: Global,
    call: &str,
    alg: &str,
    text: &str,
    key: &PublicKey,
    records: &Recorded,
) -> Result<Answer> {
    match call {
        "verify" => verify(alloc, alg, text, key, records),
        "verify_text" => verify_text(alloc, alg, text, key, records),
        "verified" => told::<Payload, _, _>(alloc, Jws::decode(alloc, text, records, key)),
        "decode" => outcome(alloc, JwtSig::decode(alloc, text, records, key)),
        _ => bail!("no such call"),
    }
}
