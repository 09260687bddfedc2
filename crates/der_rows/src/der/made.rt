// Values made of bytes.
//
//     der_integer.of BYTES              what an IntegerAsn1 of these octets is written as, or the fault
//     der_raw.of BYTES                  what an Asn1RawDer of these bytes is written as, or the fault of making it
//     der_algorithm.of TEXT BYTES       an AlgorithmIdentifier with this identifier and these parameters, `-` for none
use crate::der::plain::bad_row;
use crate::der::values::{read, written};
use anyhow::Result;
use picky_asn1_bits::IntegerAsn1;
use picky_asn1_oid::ObjectIdentifier;
use picky_der::{Asn1RawDer, DerError};
use picky_fields::AlgorithmIdentifier;
use rows::{Answer, Words};
use std::alloc::Global;

pub fn answer(alloc: Global, notion: &str, call: &str, words: &mut Words<'_>) -> Result<Answer> {
    if call != "of" {
        return bad_row("no such call");
    }
    match notion {
        "der_integer" => written(alloc, &IntegerAsn1::from(words.bytes(alloc)?)),
        "der_raw" => read(alloc, Asn1RawDer::new(words.bytes(alloc)?)),
        "der_algorithm" => algorithm_of(alloc, words),
        _ => bad_row("no such notion"),
    }
}

fn algorithm_of(alloc: Global, words: &mut Words<'_>) -> Result<Answer> {
    let oid = ObjectIdentifier::from_text(alloc, words.next())?;
    let parameters = parameters_of(words.bytes(alloc)?)?;
    written(alloc, &AlgorithmIdentifier { oid, parameters })
}

fn parameters_of(bytes: Vec<u8>) -> Result<Option<Asn1RawDer>, DerError> {
    if bytes.is_empty() {
        return Ok(None);
    }
    Ok(Some(Asn1RawDer::new(bytes)?))
}
