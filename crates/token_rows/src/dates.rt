// Dates, and the claims of tokens.
//
//     date.print SECONDS LEEWAY                  the date as it is printed
//     date.print_new SECONDS                     the same, without leeway
//     date.is_before SECONDS LEEWAY OTHER
//     date.is_before_strict SECONDS LEEWAY OTHER
//     date.is_after SECONDS LEEWAY OTHER
//     date.is_after_strict SECONDS LEEWAY OTHER
//     jwt.validate SECONDS LEEWAY CLAIMS         `Ok`, or the refusal, by a lenient validator
//     jwt.validate_by CHECKS CLAIMS              the same by another: `none`, `undated` (both claims required, no date), or
//                                                `strict`, `lenient`, `nbf` (that alone required), `exp` (that alone looked at), at 100
//     jwt.check_by CHECKS CLAIMS                 the same of claims that were read already
//     jwt.decode KEY TEXT RECORDS                `Ok`, where the signature holds by a provider of these records, or the refusal
use crate::shown::{found, outcome, printed};
use crate::signatures;
use anyhow::{Result, bail};
use picky_jose::{Jws, JwsAlg, JwsHeader, JwtDate, JwtSig, JwtValidator, no_check_validator};
use picky_json::parse;
use rows::{Answer, Words};
use serde_json::Value;
use std::alloc::Global;

/// The seconds of the next word.
pub(crate) fn seconds(words: &mut Words<'_>) -> Result<i64> {
    words.parsed::<i64>()
}

/// The date and the leeway of the next two words.
pub(crate) fn date(words: &mut Words<'_>) -> Result<JwtDate> {
    let seconds = seconds(words)?;
    let leeway = words.parsed::<u16>()?;
    Ok(JwtDate::new_with_leeway(seconds, leeway))
}

pub(crate) fn answer_of_date(alloc: Global, call: &str, words: &mut Words<'_>) -> Result<Answer> {
    match call {
        "print" => printed(alloc, date(words)),
        "print_new" => printed(alloc, new_date(words)),
        _ => compared(call, words),
    }
}

fn new_date(words: &mut Words<'_>) -> Result<JwtDate> {
    let seconds = seconds(words)?;
    Ok(JwtDate::new(seconds))
}

fn compared(call: &str, words: &mut Words<'_>) -> Result<Answer> {
    let date = date(words)?;
    let other = seconds(words)?;
    match call {
        "is_before" => Ok(Answer::Truth(date.is_before(other))),
        "is_before_strict" => Ok(Answer::Truth(date.is_before_strict(other))),
        "is_after" => Ok(Answer::Truth(date.is_after(other))),
        "is_after_strict" => Ok(Answer::Truth(date.is_after_strict(other))),
        _ => bail!("no such call"),
    }
}

pub(crate) fn answer(alloc: Global, call: &str, words: &mut Words<'_>) -> Result<Answer> {
    match call {
        "validate" => validate(alloc, words),
        "validate_by" => validate_by(alloc, words),
        "check_by" => check_by(alloc, words),
        "decode" => signatures::answer(alloc, call, "", words),
        _ => bail!("no such call"),
    }
}

fn validate(alloc: Global, words: &mut Words<'_>) -> Result<Answer> {
    let date = date(words)?;
    validated(alloc, JwtValidator::lenient(date), words)
}

fn validator(name: &str) -> Result<JwtValidator> {
    let date = JwtDate::new(100);
    match name {
        "none" => Ok(no_check_validator()),
        "undated" => Ok(
            JwtValidator::no_check()
                .not_before_check_required()
                .expiration_check_required(),
        ),
        "strict" => Ok(JwtValidator::strict(date)),
        "lenient" => Ok(JwtValidator::lenient(date)),
        "nbf" => Ok(JwtValidator::lenient(date).not_before_check_required()),
        "exp" => Ok(
            JwtValidator::no_check()
                .current_date(date)
                .not_before_check_ignored()
                .expiration_check_optional(),
        ),
        _ => bail!("no such validator"),
    }
}

fn validate_by(alloc: Global, words: &mut Words<'_>) -> Result<Answer> {
    let validator = validator(words.next())?;
    validated(alloc, validator, words)
}

fn check_by(alloc: Global, words: &mut Words<'_>) -> Result<Answer> {
    let validator = validator(words.next())?;
    let claims = tree(alloc, words.rest())?;
    outcome(alloc, validator.check_dates(&claims))
}

fn tree(alloc: Global, text: &str) -> Result<Value> {
    let tree = parse(alloc, text.as_bytes());
    found(tree.unwrap_or(None), "no JSON")
}

fn validated(alloc: Global, validator: JwtValidator, words: &mut Words<'_>) -> Result<Answer> {
    let token = token(alloc, words.rest())?;
    outcome(alloc, token.validate::<Value>(alloc, &validator))
}

// The token with these claims, under a name that signs.
fn token(alloc: Global, claims: &str) -> Result<JwtSig> {
    let payload = claims.as_bytes().to_vec(alloc)?;
    let header = JwsHeader::new(alloc, JwsAlg::EdDSA);
    Ok(JwtSig::from(Jws { header, payload }))
}
