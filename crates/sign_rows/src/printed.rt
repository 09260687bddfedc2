// Header texts that are printed.
//
//     print.again TEXT                what the value of the header text is printed as, and whether that reads back as the same value
//     print.key BYTES TEXT            the same of the value with another key id
//     print.custom BYTES TEXT         the same with another algorithm, which isn't known
//     print.name BYTES TEXT           the same with a name more that is covered
use crate::shown::{Shows, both, found, kept, told};
use anyhow::{Result, bail};
use picky_http::{Header, HttpSigAlgorithm, HttpSignature, HttpSignatureError};
use rows::{Answer, Words};
use std::alloc::Global;
use std::mem::swap;

pub(crate) fn answer(alloc: Global, call: &str, words: &mut Words<'_>) -> Result<Answer> {
    match call {
        "again" => again(alloc, words.rest()),
        _ => changed(alloc, call, words),
    }
}

fn again(alloc: Global, text: &str) -> Result<Answer> {
    told::<ReadBack, _, _>(alloc, HttpSignature::from_str(alloc, text))
}

fn changed(alloc: Global, call: &str, words: &mut Words<'_>) -> Result<Answer> {
    let text = words.text(alloc)?;
    let signature = HttpSignature::from_str(alloc, words.rest()).ok();
    let mut signature = found(signature, "no such header text")?;
    let outcome = change(call, &mut signature, text);
    let signature = kept(outcome, signature)?;
    let answer = ReadBack::show(alloc, &signature);
    drop(signature);
    answer
}

// Sets what a row asks for to a text.
fn change(call: &str, signature: &mut HttpSignature, text: String) -> Result<()> {
    match call {
        "key" => set_key(signature, text),
        "custom" => set_custom(signature, text),
        "name" => cover(signature, text),
        _ => bail!("no such call"),
    }
}

fn set_key(signature: &mut HttpSignature, key_id: String) -> Result<()> {
    signature.key_id = key_id;
    Ok(())
}

fn set_custom(signature: &mut HttpSignature, name: String) -> Result<()> {
    let mut algorithm = Some(HttpSigAlgorithm::Custom(name));
    swap(&mut signature.algorithm, &mut algorithm);
    drop(algorithm);
    Ok(())
}

fn cover(signature: &mut HttpSignature, name: String) -> Result<()> {
    signature.headers.push(Header::new_name(name))?;
    Ok(())
}

// The text that is printed, by both calls that print it, and what it reads back as.
pub(crate) struct ReadBack;

impl Shows<HttpSignature> for ReadBack {
    fn show(alloc: Global, signature: &HttpSignature) -> Result<Answer> {
        let text = found(signature.to_signing_string(alloc).ok(), "out of memory")?;
        let again = read_again(alloc, &text, signature);
        pair(alloc, Answer::display(alloc, signature), Ok(again))
    }
}

// Both answers, a space between them.
pub(crate) fn pair(alloc: Global, first: Result<Answer>, second: Result<Answer>) -> Result<Answer> {
    let (first, second) = both(first, second)?;
    Answer::pair(alloc, first, second)
}

fn read_again(alloc: Global, text: &str, signature: &HttpSignature) -> Answer {
    let again = HttpSignature::from_str(alloc, text);
    let said = compared(&again, signature);
    drop(again);
    Answer::Word(said)
}

fn compared(
    again: &Result<HttpSignature, HttpSignatureError>,
    signature: &HttpSignature,
) -> &'static str {
    match again {
        Ok(again) => same(again, signature),
        Err(_) => "refused",
    }
}

fn same(again: &HttpSignature, signature: &HttpSignature) -> &'static str {
    if again == signature {
        "same"
    } else {
        "another"
    }
}
