// Signed tokens that are read. A refusal is answered as it is.
//
//     jws.decode TEXT                        `Ok`
//     jws.payload TEXT                       the payload
//     jws.alg TEXT                           the name of its algorithm
//     jws.kid TEXT                           the key's name, or `none`
//     jws.copy TEXT                          the text of a copy
//     jws.unsigned TEXT                      the payload, where the signature is discarded
//     jws.verified KEY TEXT RECORDS          the payload, where the signature holds by a provider of these records
//     jws.verify ALG KEY TEXT RECORDS        `Ok`; any text under any name, by a provider of these records
//     jws.verify_text ALG KEY TEXT RECORDS   the same by `verify_signature`, of the text alone
//     jws.verify_p256 ALG TEXT BYTES         `Ok`; under a P-256 key, by a provider of this one ECDSA signature with SHA-256
use crate::shown::{Shows, found, told};
use crate::{pairs, signatures};
use anyhow::{Result, bail};
use picky_jose::{JwsError, RawJws};
use rows::{Answer, Words};
use std::alloc::Global;
use std::borrow::CowStr;

pub(crate) fn answer(alloc: Global, call: &str, words: &mut Words<'_>) -> Result<Answer> {
    match call {
        "verified" => signatures::answer(alloc, call, "", words),
        "verify" | "verify_text" => signatures::answer(alloc, call, words.next(), words),
        "verify_p256" => pairs::verify(alloc, words),
        "unsigned" => unsigned(alloc, words.rest()),
        _ => read(alloc, call, words.rest()),
    }
}

fn read(alloc: Global, call: &str, text: &str) -> Result<Answer> {
    let token = RawJws::decode(alloc, CowStr::Borrowed(text));
    let answer = seen(alloc, call, &token);
    drop(token);
    answer
}

fn seen(alloc: Global, call: &str, token: &Result<RawJws<'_>, JwsError>) -> Result<Answer> {
    match token {
        Ok(token) => asked(alloc, call, token),
        Err(error) => Answer::debug(alloc, error),
    }
}

fn unsigned(alloc: Global, text: &str) -> Result<Answer> {
    let token = RawJws::decode(alloc, CowStr::Borrowed(text)).ok();
    let token = found(token, "no token")?.discard_signature();
    let answer = Answer::bytes(alloc, &token.payload);
    drop(token);
    answer
}

fn asked(alloc: Global, call: &str, token: &RawJws<'_>) -> Result<Answer> {
    match call {
        "decode" => Ok(Answer::Word("Ok")),
        "payload" => Answer::bytes(alloc, token.peek_payload()),
        "alg" => Answer::text(alloc, token.header.alg.name()),
        "kid" => kid(alloc, token),
        "copy" => told::<Repr, _, _>(alloc, token.clone(alloc)),
        _ => bail!("no such call"),
    }
}

fn kid(alloc: Global, token: &RawJws<'_>) -> Result<Answer> {
    match &token.header.kid {
        Some(kid) => Answer::text(alloc, kid),
        None => Ok(Answer::Word("none")),
    }
}

// The text of a token.
struct Repr;

impl Shows<RawJws<'static>> for Repr {
    fn show(alloc: Global, token: &RawJws<'static>) -> Result<Answer> {
        Answer::text(alloc, token.compact_repr.as_str())
    }
}
