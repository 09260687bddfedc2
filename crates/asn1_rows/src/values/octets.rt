// Octet strings. One is given and answered by its bytes.
//
//     octets.debug OCTETS           what `{:?}` prints
//     octets.push OCTETS BYTE       with one byte more, by `DerefMut`
//     octets.len OCTETS             by `Deref`
//     octets.clone OCTETS
//     octets.into_vec OCTETS
//     octets.eq OCTETS OCTETS
//     octets.le OCTETS OCTETS
use crate::bad_row;
use anyhow::Result;
use picky_asn1::wrapper::OctetStringAsn1;
use rows::{Answer, Words};
use std::alloc::Global;

pub(crate) fn answer(alloc: Global, call: &str, words: &mut Words<'_>) -> Result<Answer> {
    let octets = OctetStringAsn1::from(words.bytes(alloc)?);
    match call {
        "push" => push(alloc, octets, words),
        "into_vec" => Answer::bytes(alloc, &Vec::from(octets)),
        _ => of_octets(alloc, call, octets, words),
    }
}

fn push(alloc: Global, octets: OctetStringAsn1, words: &mut Words<'_>) -> Result<Answer> {
    let mut octets = octets;
    push_byte(&mut octets, words)?;
    Answer::bytes(alloc, octets.0.as_slice())
}

fn push_byte(octets: &mut OctetStringAsn1, words: &mut Words<'_>) -> Result<()> {
    let byte = words.byte()?;
    octets.push(byte)?;
    Ok(())
}

fn of_octets(
    alloc: Global,
    call: &str,
    octets: OctetStringAsn1,
    words: &mut Words<'_>,
) -> Result<Answer> {
    seen(alloc, call, &octets, words)
}

fn seen(
    alloc: Global,
    call: &str,
    octets: &OctetStringAsn1,
    words: &mut Words<'_>,
) -> Result<Answer> {
    match call {
        "debug" => Answer::debug(alloc, octets),
        "len" => Ok(Answer::Size(octets.len())),
        "clone" => Answer::bytes(alloc, octets.clone(alloc)?.0.as_slice()),
        _ => compared(alloc, call, octets, words),
    }
}

fn compared(
    alloc: Global,
    call: &str,
    one: &OctetStringAsn1,
    words: &mut Words<'_>,
) -> Result<Answer> {
    let other = OctetStringAsn1::from(words.bytes(alloc)?);
    match call {
        "eq" => Ok(Answer::Truth(*one == other)),
        "le" => Ok(Answer::Truth(*one <= other)),
        _ => bad_row("no such call"),
    }
}
