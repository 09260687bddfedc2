// The texts of errors: each is made of its name and of what it holds, and printed.
//
//     message.key BadSize EXPECTED GOT
//     message.signature UnsupportedAlgorithm | BadSignature | Ec EXPECTED GOT
//     message.records OutOfMemory | BadLine LINE | Family LINE | Conflict LINE
//     message.jwk Json | Base64Decoding | InvalidEdPublicKey | OutOfMemory
//     message.jws Json | Signature SIGNATURE.. | InvalidEncoding INPUT | Base64Decoding | Float | OutOfMemory
//     message.jwt Jws JWS.. | Json | InvalidRegisteredClaimType CLAIM | RequiredClaimMissing CLAIM
//         | NotYetValid NBF SECONDS LEEWAY | Expired EXP SECONDS LEEWAY | InvalidValidator | Float | OutOfMemory
use crate::dates::{date, seconds};
use crate::shown::printed;
use anyhow::{Result, bail};
use picky_jose::{JwsError, JwtError};
use picky_jwk::JwkError;
use picky_key::{KeyError, SignatureError};
use picky_records::RecordFault;
use rows::{Answer, Words};
use std::alloc::Global;

pub(crate) fn answer(alloc: Global, call: &str, words: &mut Words<'_>) -> Result<Answer> {
    match call {
        "key" => printed(alloc, key(words)),
        "signature" => printed(alloc, signature(words)),
        "records" => printed(alloc, records(words)),
        "jwk" => printed(alloc, jwk(words.next())),
        "jws" => printed(alloc, jws(alloc, words)),
        "jwt" => printed(alloc, jwt(alloc, words)),
        _ => bail!("no such call"),
    }
}

fn key(words: &mut Words<'_>) -> Result<KeyError> {
    match words.next() {
        "BadSize" => bad_size(words),
        _ => bail!("no such error"),
    }
}

fn bad_size(words: &mut Words<'_>) -> Result<KeyError> {
    let expected = words.size()?;
    let got = words.size()?;
    Ok(KeyError::BadSize { expected, got })
}

fn signature(words: &mut Words<'_>) -> Result<SignatureError> {
    match words.next() {
        "UnsupportedAlgorithm" => Ok(SignatureError::UnsupportedAlgorithm),
        "BadSignature" => Ok(SignatureError::BadSignature),
        "Ec" => too_long(words),
        _ => bail!("no such error"),
    }
}

fn too_long(words: &mut Words<'_>) -> Result<SignatureError> {
    let expected = words.size()?;
    let got = words.size()?;
    Ok(SignatureError::Ec { expected, got })
}

fn records(words: &mut Words<'_>) -> Result<RecordFault> {
    match words.next() {
        "OutOfMemory" => Ok(RecordFault::OutOfMemory),
        name => at_line(name, words),
    }
}

fn at_line(name: &str, words: &mut Words<'_>) -> Result<RecordFault> {
    let line = words.parsed::<u64>()?;
    match name {
        "BadLine" => Ok(RecordFault::BadLine { line }),
        "Family" => Ok(RecordFault::Family { line }),
        "Conflict" => Ok(RecordFault::Conflict { line }),
        _ => bail!("no such error"),
    }
}

fn jwk(name: &str) -> Result<JwkError> {
    match name {
        "Json" => Ok(JwkError::Json),
        "Base64Decoding" => Ok(JwkError::Base64Decoding),
        "InvalidEdPublicKey" => Ok(JwkError::InvalidEdPublicKey {
            cause: "the key isn't 32 bytes",
        }),
        "OutOfMemory" => Ok(JwkError::OutOfMemory),
        _ => bail!("no such error"),
    }
}

fn jws(alloc: Global, words: &mut Words<'_>) -> Result<JwsError> {
    match words.next() {
        "Json" => Ok(JwsError::Json),
        "Signature" => of_signature(signature(words)),
        "InvalidEncoding" => of_input(alloc, words.rest()),
        "Base64Decoding" => Ok(JwsError::Base64Decoding),
        "Float" => Ok(JwsError::Float),
        "OutOfMemory" => Ok(JwsError::OutOfMemory),
        _ => bail!("no such error"),
    }
}

fn of_signature(source: Result<SignatureError>) -> Result<JwsError> {
    let source = source?;
    Ok(JwsError::Signature { source })
}

fn of_input(alloc: Global, input: &str) -> Result<JwsError> {
    let input = String::from_str(alloc, input)?;
    Ok(JwsError::InvalidEncoding { input })
}

fn jwt(alloc: Global, words: &mut Words<'_>) -> Result<JwtError> {
    match words.next() {
        "Jws" => of_jws(jws(alloc, words)),
        "InvalidRegisteredClaimType" => of_type(words.next()),
        "RequiredClaimMissing" => of_missing(words.next()),
        "NotYetValid" => too_early(words),
        "Expired" => too_late(words),
        name => of_name(name),
    }
}

fn of_name(name: &str) -> Result<JwtError> {
    match name {
        "Json" => Ok(JwtError::Json),
        "InvalidValidator" => Ok(JwtError::InvalidValidator {
            description: "current date is missing",
        }),
        "Float" => Ok(JwtError::Float),
        "OutOfMemory" => Ok(JwtError::OutOfMemory),
        _ => bail!("no such error"),
    }
}

fn of_jws(source: Result<JwsError>) -> Result<JwtError> {
    let source = source?;
    Ok(JwtError::Jws { source })
}

fn of_type(name: &str) -> Result<JwtError> {
    let claim = claim(name)?;
    Ok(JwtError::InvalidRegisteredClaimType { claim })
}

fn of_missing(name: &str) -> Result<JwtError> {
    let claim = claim(name)?;
    Ok(JwtError::RequiredClaimMissing { claim })
}

fn claim(name: &str) -> Result<&'static str> {
    match name {
        "nbf" => Ok("nbf"),
        "exp" => Ok("exp"),
        _ => bail!("no such claim"),
    }
}

fn too_early(words: &mut Words<'_>) -> Result<JwtError> {
    let not_before = seconds(words)?;
    let now = date(words)?;
    Ok(JwtError::NotYetValid { not_before, now })
}

fn too_late(words: &mut Words<'_>) -> Result<JwtError> {
    let not_after = seconds(words)?;
    let now = date(words)?;
    Ok(JwtError::Expired { not_after, now })
}
