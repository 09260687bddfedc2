// Base64. FORM is `url` or `standard`.
//
//     base64.encode FORM BYTES     the text, `-` for an empty one
//     base64.decode FORM TEXT      the bytes, or `none`
use crate::shown::found;
use anyhow::{Result, bail};
use picky_base64::Form;
use rows::{Answer, Words};
use std::alloc::Global;

fn form(words: &mut Words<'_>) -> Result<Form> {
    match words.next() {
        "url" => Ok(Form::Url),
        "standard" => Ok(Form::Standard),
        _ => bail!("no such form"),
    }
}

pub(crate) fn answer(alloc: Global, call: &str, words: &mut Words<'_>) -> Result<Answer> {
    match call {
        "encode" => encode(alloc, words),
        "decode" => decode(alloc, words),
        _ => bail!("no such call"),
    }
}

fn encode(alloc: Global, words: &mut Words<'_>) -> Result<Answer> {
    let form = form(words)?;
    let bytes = words.bytes(alloc)?;
    let text = found(picky_base64::encode(alloc, form, &bytes).ok(), "no memory")?;
    Answer::lines(alloc, &text)
}

fn decode(alloc: Global, words: &mut Words<'_>) -> Result<Answer> {
    let form = form(words)?;
    let bytes = picky_base64::decode(alloc, form, words.rest()).ok();
    told(alloc, found(bytes, "no memory")?)
}

fn told(alloc: Global, bytes: Option<Vec<u8>>) -> Result<Answer> {
    match bytes {
        Some(bytes) => Answer::bytes(alloc, &bytes),
        None => Ok(Answer::Word("none")),
    }
}
