// How long the steps of admitting a token take. No row of `stdout` asks for that, since the answers change: `scripts/bench-admit` does.
//
//     speed.STEP COUNT KEYS RECORDS TEXT      the microseconds of a step, done so often
//
// The files are a set of keys, a document of records, and a text of the scheme `Bearer`; the moment is 1700000000. The steps are those of
// `step_of`.
use crate::admission::{judged, records_of, strict};
use crate::timing::{Work, timed};
use anyhow::{Context, Result};
use picky_base64::Form;
use picky_gate::{Admitted, Policy, Refusal, Ring, ring_from_jwks};
use picky_jose::{JwtSig, JwtValidator, RawJws};
use picky_jwk::JwkSet;
use picky_key::{KeyProvider, PublicKey, SignatureAlgorithm};
use picky_records::Recorded;
use rows::{Answer, Words};
use serde_json::Value;
use std::alloc::Global;
use std::borrow::CowStr;
use std::fs;

#[derive(Clone, Copy)]
enum Step {
    // The documents.
    SetRead,
    RingMade,
    RecordsRead,

    // The whole decision.
    Admit,

    // What a token spells, which is base64, the header's JSON and its members; its three parts as base64 alone; its claims, without a
    // look at its signature; and its payload as JSON alone.
    Decode,
    Base64,
    Validate,
    Json,

    // The entry under the token's name, and what the provider answers of its signature.
    Lookup,
    Provider,
}

fn step_of(word: &str) -> Option<Step> {
    match word {
        "set-read" => Some(Step::SetRead),
        "ring-made" => Some(Step::RingMade),
        "records-read" => Some(Step::RecordsRead),
        "admit" => Some(Step::Admit),
        "decode" => Some(Step::Decode),
        "base64" => Some(Step::Base64),
        "decode-and-validate" => Some(Step::Validate),
        "json-of-payload" => Some(Step::Json),
        "lookup" => Some(Step::Lookup),
        "provider" => Some(Step::Provider),
        _ => None,
    }
}

// The documents, and the token that stands in the text.
#[derive(Clone, Copy)]
struct Documents<'a> {
    keys: &'a str,
    lines: &'a str,
    text: &'a str,
    token: &'a str,
}

// What is read of the documents.
#[derive(Drop)]
struct Found<'a> {
    set: Option<JwkSet>,
    ring: Option<Ring>,
    records: Option<Recorded>,
    token: Option<RawJws<'a>>,
    policy: Policy,
}

// A step, and what it is done with.
#[derive(Drop)]
struct Case<'a> {
    step: Step,
    documents: Documents<'a>,
    set: &'a JwkSet,
    ring: &'a Ring,
    records: &'a Recorded,
    policy: &'a Policy,
    payload: &'a [u8],
    name: &'a str,
    key: &'a PublicKey,
    algorithm: SignatureAlgorithm,
    message: &'a [u8],
    signature: &'a [u8],
}

// What is read and made, each by the call that is timed; none where it is refused.
fn set_of(alloc: Global, keys: &str) -> Option<JwkSet> {
    JwkSet::from_json(alloc, keys).ok()
}

fn ring_of(alloc: Global, set: &JwkSet) -> Option<Ring> {
    ring_from_jwks(alloc, set).ok()
}

fn token_of(alloc: Global, token: &str) -> Option<RawJws<'_>> {
    RawJws::decode(alloc, CowStr::Borrowed(token)).ok()
}

// Whether that is an admission, whatever a refusal says.
fn is_admission(decision: &Result<Admitted, Refusal>) -> bool {
    match decision {
        Ok(_) => true,
        Err(_) => false,
    }
}

fn is_admitted(
    alloc: Global,
    text: &str,
    ring: &Ring,
    records: &Recorded,
    policy: &Policy,
) -> bool {
    let decision = judged(alloc, text, ring, records, policy);
    is_admission(&decision)
}

fn is_base64(alloc: Global, token: &str) -> bool {
    for part in token.split('.') {
        if picky_base64::decode(alloc, Form::Url, part).is_err() {
            return false;
        }
    }
    true
}

fn is_validated(alloc: Global, token: RawJws<'_>, validator: &JwtValidator) -> bool {
    JwtSig::from(token.discard_signature())
        .validate::<Value>(alloc, validator)
        .is_ok()
}

fn is_read_and_validated(alloc: Global, token: &str, validator: &JwtValidator) -> bool {
    match token_of(alloc, token) {
        Some(token) => is_validated(alloc, token, validator),
        None => false,
    }
}

fn is_json(alloc: Global, payload: &[u8]) -> bool {
    picky_json::parse(alloc, payload).is_ok()
}

fn is_signed(alloc: Global, case: &Case<'_>) -> bool {
    case.records
        .verify(
            alloc,
            case.key,
            case.algorithm,
            case.message,
            case.signature,
        )
        .unwrap_or(false)
}

impl Work for Case<'_> {
    fn is_done(&self, alloc: Global) -> bool {
        match self.step {
            Step::SetRead => set_of(alloc, self.documents.keys).is_some(),
            Step::RingMade => ring_of(alloc, self.set).is_some(),
            Step::RecordsRead => records_of(alloc, self.documents.lines).is_some(),
            Step::Admit => is_admitted(
                alloc,
                self.documents.text,
                self.ring,
                self.records,
                self.policy,
            ),
            Step::Decode => token_of(alloc, self.documents.token).is_some(),
            Step::Base64 => is_base64(alloc, self.documents.token),
            Step::Validate => {
                is_read_and_validated(alloc, self.documents.token, &self.policy.validator)
            }
            Step::Json => is_json(alloc, self.payload),
            Step::Lookup => self.ring.lookup(self.name).is_some(),
            Step::Provider => is_signed(alloc, self),
        }
    }
}

// The ring of a set; none where there is no set, or its keys can't be taken.
fn ring_if_read(alloc: Global, set: Option<&JwkSet>) -> Option<Ring> {
    ring_of(alloc, set?)
}

// What a token is signed over: the bytes before its last dot.
fn message_of(token: &str) -> Option<&[u8]> {
    let (message, _) = token.rsplit_once('.')?;
    Some(message.as_bytes())
}

// The key of a name, and its algorithm.
fn key_of<'a>(ring: &'a Ring, name: &str) -> Option<(&'a PublicKey, SignatureAlgorithm)> {
    ring.lookup(name)?.verifying()
}

// What a token is judged with.
fn case_of<'a>(step: Step, documents: Documents<'a>, found: &'a Found<'a>) -> Option<Case<'a>> {
    let set = found.set.as_ref()?;
    let ring = found.ring.as_ref()?;
    let records = found.records.as_ref()?;
    let token = found.token.as_ref()?;
    let name = token.header.kid.as_ref()?.as_str();
    let (key, algorithm) = key_of(ring, name)?;
    let message = message_of(documents.token)?;
    Some(Case {
        step,
        documents,
        set,
        ring,
        records,
        policy: &found.policy,
        payload: token.peek_payload(),
        name,
        key,
        algorithm,
        message,
        signature: &token.signature,
    })
}

fn time(rt: &HostRuntime, step: Step, count: u64, documents: Documents<'_>) -> Result<Answer> {
    let alloc = rt.alloc();
    let set = set_of(alloc, documents.keys);
    let ring = ring_if_read(alloc, set.as_ref());
    let found = Found {
        set,
        ring,
        records: records_of(alloc, documents.lines),
        token: token_of(alloc, documents.token),
        policy: strict(),
    };
    let case = case_of(step, documents, &found);
    timed(rt, count, case.as_ref())
}

fn document(rt: &HostRuntime, path: &str) -> Result<String> {
    Ok(fs::read_to_string(rt, path)?)
}

pub(crate) fn answer(rt: &HostRuntime, call: &str, words: &mut Words<'_>) -> Result<Answer> {
    let step = step_of(call).context("no such step")?;
    let count = words.parsed::<u64>()?;
    let keys = document(rt, words.next())?;
    let lines = document(rt, words.next())?;
    let text = document(rt, words.next())?;
    let documents = Documents {
        keys: &keys,
        lines: &lines,
        text: &text,
        token: text.strip_prefix("Bearer ").unwrap_or(""),
    };
    time(rt, step, count, documents)
}
