// HTTP signatures that are built. KIND is `head`, `parts`, `request` or `none`: the request is the head of HEAD, the same as `Parts` or as
// `Request` of the crate `http`, or none. STRING is a signing string in hex. STEPS are the calls of one builder, a comma between two:
//
//     key=NAME, created=N, expires=N, target, name=NAME, legacy    the setters
//     method=ALGORITHM                                            `signature_method`, with the private key
//     asked, given                                                the request, or STRING
//     build                                                       `build`
//
//     build.KIND PKCS8 HEAD STRING STEPS RECORDS    what each `build` gives, a ` | ` between two: the refusal as it is, or the text that is
//                                                   printed, whether that reads back as the same value, and what a verifier says
//                                                   of it, at the moment of its `created`, over what the builder was given
use crate::keys::{private_of, public_of, records_of};
use crate::printed::{ReadBack, pair};
use crate::requests::ask_kind;
use crate::shown::{Shows, found, kept, outcome};
use anyhow::{Result, bail};
use picky_http::{
    HttpRequest, HttpSignature, HttpSignatureBuilder, HttpSignatureError, HttpSignatureVerifier,
};
use picky_key::{HashAlgorithm, PrivateKey, PublicKey, SignatureAlgorithm};
use picky_records::Recorded;
use rows::{Answer, Words};
use std::alloc::Global;

pub(crate) fn answer(alloc: Global, kind: &str, words: &mut Words<'_>) -> Result<Answer> {
    let key = private_of(alloc, words)?;
    let answer = ask_kind(alloc, kind, Some(&key), "build", words);
    drop(key);
    answer
}

fn algorithm_of(name: &str) -> Result<SignatureAlgorithm> {
    match name {
        "rsa-sha224" => Ok(SignatureAlgorithm::RsaPkcs1v15(HashAlgorithm::SHA2_224)),
        "rsa-sha256" => Ok(SignatureAlgorithm::RsaPkcs1v15(HashAlgorithm::SHA2_256)),
        "ecdsa-sha256" => Ok(SignatureAlgorithm::Ecdsa(HashAlgorithm::SHA2_256)),
        "ecdsa-sha512" => Ok(SignatureAlgorithm::Ecdsa(HashAlgorithm::SHA2_512)),
        "ed25519-sha512" => Ok(SignatureAlgorithm::Ed25519),
        _ => bail!("no such algorithm"),
    }
}

// What a row is about.
#[derive(Drop)]
struct Given<'a, Q> {
    key: &'a PrivateKey,
    public: &'a PublicKey,
    request: &'a Q,
    string: &'a str,
    records: &'a Recorded,
}

// A builder, what was set last, for the verifier, and what was built.
#[derive(Drop)]
struct Made<'a, Q> {
    builder: HttpSignatureBuilder<'a, Q>,
    algorithm: SignatureAlgorithm,
    is_given: bool,
    told: String,
}

// What is built over a request.
pub(crate) fn build<Q: HttpRequest>(
    alloc: Global,
    request: &Q,
    key: Result<&PrivateKey>,
    words: &mut Words<'_>,
) -> Result<Answer> {
    let key = key?;
    let string = words.text(alloc)?;
    let steps = words.next();
    let records = records_of(alloc, words)?;
    let answer = over_string(alloc, request, key, &string, steps, &records);
    drop(records);
    answer
}

fn over_string<Q: HttpRequest>(
    alloc: Global,
    request: &Q,
    key: &PrivateKey,
    string: &str,
    steps: &str,
    records: &Recorded,
) -> Result<Answer> {
    let public = public_of(alloc, records, key)?;
    let given = Given {
        key,
        public: &public,
        request,
        string,
        records,
    };
    let answer = make_all(alloc, &given, steps);
    drop(public);
    answer
}

// What the steps give.
fn make_all<Q: HttpRequest>(alloc: Global, given: &Given<'_, Q>, steps: &str) -> Result<Answer> {
    let mut made = Made {
        builder: HttpSignatureBuilder::new(alloc),
        algorithm: SignatureAlgorithm::Ed25519,
        is_given: false,
        told: String::new(alloc),
    };
    let outcome = take_steps(alloc, &mut made, given, steps);
    let Made { builder, told, .. } = made;
    drop(builder);
    Ok(Answer::Text(kept(outcome, told)?))
}

fn take_steps<'a, Q: HttpRequest>(
    alloc: Global,
    made: &mut Made<'a, Q>,
    given: &Given<'a, Q>,
    steps: &str,
) -> Result<()> {
    for step in steps.split(',') {
        take_step(alloc, made, given, step)?;
    }
    Ok(())
}

fn take_step<'a, Q: HttpRequest>(
    alloc: Global,
    made: &mut Made<'a, Q>,
    given: &Given<'a, Q>,
    step: &str,
) -> Result<()> {
    let (word, value) = step.split_once('=').unwrap_or((step, ""));
    match word {
        "build" => build_once(alloc, made, given),
        "method" => set_method(made, given, value),
        "asked" => ask(made, given),
        "given" => give(made, given),
        "legacy" => flag(made),
        _ => cover(&mut made.builder, word, value),
    }
}

fn ask<'a, Q: HttpRequest>(made: &mut Made<'a, Q>, given: &Given<'a, Q>) -> Result<()> {
    made.is_given = false;
    made.builder
        .generate_signing_string_using_http_request(given.request);
    Ok(())
}

fn give<'a, Q: HttpRequest>(made: &mut Made<'a, Q>, given: &Given<'a, Q>) -> Result<()> {
    made.is_given = true;
    made.builder.pre_generated_signing_string(given.string);
    Ok(())
}

fn flag<Q: HttpRequest>(made: &mut Made<'_, Q>) -> Result<()> {
    made.builder.legacy();
    Ok(())
}

fn set_method<'a, Q: HttpRequest>(
    made: &mut Made<'a, Q>,
    given: &Given<'a, Q>,
    value: &str,
) -> Result<()> {
    made.algorithm = algorithm_of(value)?;
    made.builder.signature_method(given.key, made.algorithm);
    Ok(())
}

// The setters that take memory.
fn cover<Q: HttpRequest>(
    builder: &mut HttpSignatureBuilder<'_, Q>,
    word: &str,
    value: &str,
) -> Result<()> {
    match word {
        "key" => done(builder.key_id(value)),
        "target" => done(builder.request_target()),
        "name" => done(builder.http_header(value)),
        _ => set_moment(builder, word, number(value)),
    }
}

fn set_moment<Q: HttpRequest>(
    builder: &mut HttpSignatureBuilder<'_, Q>,
    word: &str,
    moment: Result<u64>,
) -> Result<()> {
    let moment = moment?;
    match word {
        "created" => done(builder.created(moment)),
        "expires" => done(builder.expires(moment)),
        _ => bail!("no such step"),
    }
}

fn done(outcome: Result<(), HttpSignatureError>) -> Result<()> {
    found(outcome.ok(), "out of memory")
}

fn number(text: &str) -> Result<u64> {
    found(text.parse::<u64>().ok(), "no such second")
}

fn build_once<'a, Q: HttpRequest>(
    alloc: Global,
    made: &mut Made<'a, Q>,
    given: &Given<'a, Q>,
) -> Result<()> {
    let signature = made.builder.build(given.records);
    let answer = judged(alloc, made, given, &signature);
    drop(signature);
    tell(alloc, &mut made.told, answer)
}

// Writes an answer behind those before it.
fn tell(alloc: Global, told: &mut String, answer: Result<Answer>) -> Result<()> {
    let answer = answer?;
    let text = format!(in alloc; "{answer}");
    drop(answer);
    if !told.is_empty() {
        told.push_str(" | ")?;
    }
    told.push_str(&text?)?;
    Ok(())
}

// What `build` gave.
fn judged<Q: HttpRequest>(
    alloc: Global,
    made: &Made<'_, Q>,
    given: &Given<'_, Q>,
    signature: &Result<HttpSignature, HttpSignatureError>,
) -> Result<Answer> {
    match signature {
        Ok(signature) => shown(alloc, made, given, signature),
        Err(error) => Answer::debug(alloc, error),
    }
}

fn shown<Q: HttpRequest>(
    alloc: Global,
    made: &Made<'_, Q>,
    given: &Given<'_, Q>,
    signature: &HttpSignature,
) -> Result<Answer> {
    let verdict = verified(alloc, made, given, signature);
    pair(alloc, ReadBack::show(alloc, signature), verdict)
}

// What a verifier says of a signature, at the moment of its `created`.
fn verified<Q: HttpRequest>(
    alloc: Global,
    made: &Made<'_, Q>,
    given: &Given<'_, Q>,
    signature: &HttpSignature,
) -> Result<Answer> {
    let mut verifier = signature.verifier();
    set_up(&mut verifier, made.algorithm, given, signature);
    set_way(&mut verifier, made.is_given, given);
    let verdict = verifier.verify(alloc, given.records);
    drop(verifier);
    outcome(alloc, verdict)
}

fn set_up<'a, Q: HttpRequest>(
    verifier: &mut HttpSignatureVerifier<'a, Q>,
    algorithm: SignatureAlgorithm,
    given: &Given<'a, Q>,
    signature: &HttpSignature,
) {
    verifier.signature_method(given.public, algorithm);
    verifier.now(signature.created.unwrap_or(0));
}

fn set_way<'a, Q: HttpRequest>(
    verifier: &mut HttpSignatureVerifier<'a, Q>,
    is_given: bool,
    given: &Given<'a, Q>,
) {
    match is_given {
        true => verifier.pre_generated_signing_string(given.string),
        false => verifier.generate_signing_string_using_http_request(given.request),
    }
}
