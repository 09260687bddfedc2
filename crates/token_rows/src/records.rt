// Records of signatures. RECORDS is a document, in which `\n` is LF.
//
//     records.read RECORDS                                    `Ok`, or the refusal
//     records.verify KEY ALGORITHM MESSAGE BYTES RECORDS      whether they record it; MESSAGE is a word as it stands
use crate::keys::key;
use crate::shown::{found, outcome};
use anyhow::{Result, bail};
use picky_key::{HashAlgorithm, KeyProvider, PublicKey, SignatureAlgorithm};
use picky_records::Recorded;
use rows::{Answer, Words};
use std::alloc::Global;

/// The records of the rest of the words.
pub(crate) fn records(alloc: Global, words: &mut Words<'_>) -> Result<Recorded> {
    let text = words.lines(alloc)?;
    found(Recorded::read(alloc, &text).ok(), "no such records")
}

fn algorithm(name: &str) -> Result<SignatureAlgorithm> {
    match name {
        "Ed25519" => Ok(SignatureAlgorithm::Ed25519),
        "RsaPkcs1v15-SHA2_256" => Ok(SignatureAlgorithm::RsaPkcs1v15(HashAlgorithm::SHA2_256)),
        _ => bail!("no such algorithm"),
    }
}

pub(crate) fn answer(alloc: Global, call: &str, words: &mut Words<'_>) -> Result<Answer> {
    match call {
        "read" => read(alloc, words),
        "verify" => verify(alloc, words),
        _ => bail!("no such call"),
    }
}

fn read(alloc: Global, words: &mut Words<'_>) -> Result<Answer> {
    let text = words.lines(alloc)?;
    outcome(alloc, Recorded::read(alloc, &text))
}

fn verify(alloc: Global, words: &mut Words<'_>) -> Result<Answer> {
    let key = key(alloc, words)?;
    let answer = holds(alloc, &key, words);
    drop(key);
    answer
}

fn holds(alloc: Global, key: &PublicKey, words: &mut Words<'_>) -> Result<Answer> {
    let algorithm = algorithm(words.next())?;
    let message = words.next().as_bytes();
    let signature = words.bytes(alloc)?;
    let records = records(alloc, words)?;
    let holds = records
        .verify(alloc, key, algorithm, message, &signature)
        .ok();
    drop(records);
    Ok(Answer::Truth(found(holds, "no memory")?))
}
