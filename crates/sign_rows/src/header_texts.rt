// HTTP signatures, over the Ed25519 key of 32 zero bytes. A refusal is answered as it is.
//
//     http.read TEXT                                            what the header text says
//     http.head BYTES                                           the request head that the bytes begin with
//     http.verify MOMENT LEEWAY BYTES MESSAGE SIGNATURE TEXT    `Ok`; by a provider that recorded this signature of
//                                                               this message, over the head of BYTES
//     http.given MOMENT LEEWAY STRING MESSAGE SIGNATURE TEXT    the same over a signing string that is given
//
// A moment that isn't set is `-`, no request is `none`.
use crate::requests::head_of;
use crate::shown::{both, debugged, found, outcome};
use anyhow::{Result, bail};
use picky_base64::{Form, encode};
use picky_http::{HttpRequest, HttpSignature, HttpSignatureVerifier, NoRequest, read_head};
use picky_key::{EdAlgorithm, PublicKey, SignatureAlgorithm};
use picky_records::Recorded;
use rows::{Answer, Words};
use std::alloc::Global;

const SPKI: &str = "MCowBQYDK2VwAyEAAAAAAAAAAAAAAAAAAAAAAAAAAAAAAAAAAAAAAAAAAAA";

pub(crate) fn answer(alloc: Global, call: &str, words: &mut Words<'_>) -> Result<Answer> {
    match call {
        "read" => read(alloc, words.rest()),
        "head" => head(alloc, words),
        "verify" => verify(alloc, words),
        "given" => given(alloc, words),
        _ => bail!("no such call"),
    }
}

fn read(alloc: Global, text: &str) -> Result<Answer> {
    debugged(alloc, HttpSignature::from_str(alloc, text))
}

fn head(alloc: Global, words: &mut Words<'_>) -> Result<Answer> {
    let bytes = words.bytes(alloc)?;
    debugged(alloc, read_head(alloc, &bytes))
}

// The moment and the leeway of the next two words.
#[derive(Clone, Copy)]
pub(crate) struct Dates {
    now: Option<u64>,
    leeway: u64,
}

pub(crate) fn moment(words: &mut Words<'_>) -> Result<Dates> {
    let now = words.next();
    let leeway = words.parsed::<u64>()?;
    match now {
        "-" => Ok(Dates { now: None, leeway }),
        _ => dated(now, leeway),
    }
}

fn dated(now: &str, leeway: u64) -> Result<Dates> {
    let now = found(now.parse::<u64>().ok(), "no such second")?;
    Ok(Dates {
        now: Some(now),
        leeway,
    })
}

// A header text's value, and what it is held against.
#[derive(Drop)]
pub(crate) struct Asked {
    signature: HttpSignature,
    provider: Recorded,
    key: PublicKey,
    dates: Dates,
}

// What is asked of the next three words.
pub(crate) fn asked_of(alloc: Global, dates: Dates, words: &mut Words<'_>) -> Result<Asked> {
    let provider = recorded(alloc, words);
    let signature = HttpSignature::from_str(alloc, words.rest()).ok();
    let signature = found(signature, "no such signature");
    let ((provider, signature), key) = both(both(provider, signature), key(alloc))?;
    Ok(Asked {
        signature,
        provider,
        key,
        dates,
    })
}

// The text of the bytes of the next word.
fn url_word(alloc: Global, words: &mut Words<'_>) -> Result<String> {
    let bytes = words.bytes(alloc)?;
    found(encode(alloc, Form::Url, &bytes).ok(), "no memory")
}

// The provider that recorded the signature of the next two words.
fn recorded(alloc: Global, words: &mut Words<'_>) -> Result<Recorded> {
    let message = url_word(alloc, words)?;
    let signature = url_word(alloc, words)?;
    let line = format!(in alloc; "sig ed25519-sha512 {SPKI} {message} {signature}\n")?;
    found(Recorded::read(alloc, &line).ok(), "no such record")
}

fn key(alloc: Global) -> Result<PublicKey> {
    let bytes = Vec::from_slice(alloc, &[0; 32])?;
    let key = PublicKey::from_ed_encoded_components(EdAlgorithm::Ed25519, bytes);
    found(key.ok(), "no such key")
}

fn verify(alloc: Global, words: &mut Words<'_>) -> Result<Answer> {
    let dates = moment(words)?;
    let bytes = words.next();
    let asked = asked_of(alloc, dates, words)?;
    let answer = over_bytes(alloc, bytes, &asked);
    drop(asked);
    answer
}

fn over_bytes(alloc: Global, bytes: &str, asked: &Asked) -> Result<Answer> {
    match bytes {
        "none" => over(alloc, &NoRequest, asked),
        _ => over_head(alloc, bytes, asked),
    }
}

fn over_head(alloc: Global, bytes: &str, asked: &Asked) -> Result<Answer> {
    let head = head_of(alloc, &mut Words::new(bytes))?;
    let answer = over(alloc, &head, asked);
    drop(head);
    answer
}

pub(crate) fn over<Q: HttpRequest>(alloc: Global, request: &Q, asked: &Asked) -> Result<Answer> {
    let mut verifier = asked.signature.verifier();
    verifier.generate_signing_string_using_http_request(request);
    let answer = decided(alloc, &mut verifier, asked);
    drop(verifier);
    answer
}

fn given(alloc: Global, words: &mut Words<'_>) -> Result<Answer> {
    let dates = moment(words)?;
    let string = words.text(alloc)?;
    let asked = asked_of(alloc, dates, words)?;
    let answer = over_text(alloc, &string, &asked);
    drop(asked);
    answer
}

fn over_text(alloc: Global, string: &str, asked: &Asked) -> Result<Answer> {
    let mut verifier = asked.signature.verifier::<NoRequest>();
    verifier.pre_generated_signing_string(string);
    let answer = decided(alloc, &mut verifier, asked);
    drop(verifier);
    answer
}

// What the verifier says, with its key and its dates.
fn decided<'a, Q: HttpRequest>(
    alloc: Global,
    verifier: &mut HttpSignatureVerifier<'a, Q>,
    asked: &'a Asked,
) -> Result<Answer> {
    verifier.signature_method(&asked.key, SignatureAlgorithm::Ed25519);
    verifier.leeway(asked.dates.leeway);
    set_moment(verifier, asked.dates.now);
    outcome(alloc, verifier.verify(alloc, &asked.provider))
}

fn set_moment<Q: HttpRequest>(verifier: &mut HttpSignatureVerifier<'_, Q>, moment: Option<u64>) {
    if let Some(moment) = moment {
        verifier.now(moment);
    }
}
