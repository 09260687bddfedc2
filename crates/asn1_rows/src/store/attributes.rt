// What attributes hold.
//
//     attribute.holds BYTES       the name or the id that an attribute is, `unknown` for another, or the fault
use crate::bad_row;
use crate::store::{refusal, value_of};
use anyhow::Result;
use picky_asn1_x509::Pkcs12Attribute;
use rows::{Answer, Words};
use std::alloc::Global;

pub(crate) fn answer(alloc: Global, call: &str, words: &mut Words<'_>) -> Result<Answer> {
    if call != "holds" {
        return bad_row("no such call");
    }
    let bytes = words.bytes(alloc)?;
    match value_of(alloc, &bytes) {
        Ok(attribute) => held(alloc, &attribute),
        Err(fault) => refusal(fault),
    }
}

fn held(alloc: Global, attribute: &Pkcs12Attribute) -> Result<Answer> {
    match attribute {
        Pkcs12Attribute::FriendlyName(name) => Ok(Answer::Text(name.to_utf8(alloc)?)),
        Pkcs12Attribute::LocalKeyId(id) => Answer::bytes(alloc, id.as_slice()),
        Pkcs12Attribute::Unknown { .. } => Ok(Answer::Word("unknown")),
    }
}
