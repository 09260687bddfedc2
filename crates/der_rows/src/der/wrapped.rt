// Wrappers made of their inner values, and changed in place.
//
//     der_list.sequence N..             what the numbers are written as, under SEQUENCE
//     der_list.bits N..                 the same in a BIT STRING
//     der_list.octets N..               the same in an OCTET STRING
//     der_list.push N N..               a SEQUENCE of the numbers behind the first, which was pushed in place
//     der_list.push_to_set TRUTH..      a SET of the truths behind the first, which was pushed in place
//     der_tagged.explicit N N           the first number under [1], changed in place to the second
//     der_tagged.implicit N N           under [2]
//     der_tagged.bits N N               in a BIT STRING
//     der_tagged.octets N N             in an OCTET STRING
//     der_tagged.optional N N           as a field that is left out where it is 0
//     der_tagged.header                 the header of a value under [0]
//     der_tagged.implicit_octets BYTES  octets under [0]
use crate::der::plain::bad_row;
use crate::der::values::written;
use anyhow::Result;
use picky_asn1_bits::OctetStringAsn1;
use picky_asn1_tag::CopyIn;
use picky_asn1_wrapper::{
    Asn1SequenceOf, Asn1SetOf, BitStringAsn1Container, ExplicitContextTag0, ExplicitContextTag1,
    HeaderOnly, ImplicitContextTag0, ImplicitContextTag2, OctetStringAsn1Container, Optional,
};
use picky_der::{DerRead, DerWrite};
use rows::{Answer, Words};
use std::alloc::Global;
use std::ops::DerefMut;

pub fn list(alloc: Global, call: &str, words: &mut Words<'_>) -> Result<Answer> {
    match call {
        "push_to_set" => push_to_set(alloc, words),
        "push" => push(alloc, words),
        "sequence" => written(alloc, &sequence(alloc, words)?),
        "bits" => written(alloc, &BitStringAsn1Container(sequence(alloc, words)?)),
        "octets" => written(alloc, &OctetStringAsn1Container(sequence(alloc, words)?)),
        _ => bad_row("no such call"),
    }
}

fn sequence(alloc: Global, words: &mut Words<'_>) -> Result<Asn1SequenceOf<u32>> {
    let mut items = Vec::new(alloc);
    for word in words.rest().split(' ') {
        items.push(Words::new(word).parsed()?)?;
    }
    Ok(Asn1SequenceOf(items))
}

fn push(alloc: Global, words: &mut Words<'_>) -> Result<Answer> {
    let number = words.parsed()?;
    let mut list = sequence(alloc, words)?;
    list.deref_mut().push(number)?;
    written(alloc, &list)
}

fn push_to_set(alloc: Global, words: &mut Words<'_>) -> Result<Answer> {
    let truth = words.truth()?;
    let mut set = Asn1SetOf(Vec::new(alloc));
    set.deref_mut().push(words.truth()?)?;
    set.deref_mut().push(truth)?;
    written(alloc, &set)
}

pub fn tagged(alloc: Global, call: &str, words: &mut Words<'_>) -> Result<Answer> {
    match call {
        "header" => written(alloc, &HeaderOnly::<ExplicitContextTag0<u8>>::new()),
        "implicit_octets" => {
            let octets = OctetStringAsn1::from(words.bytes(alloc)?);
            written(alloc, &ImplicitContextTag0::from(octets))
        }
        "explicit" => changed::<ExplicitContextTag1<u32>>(alloc, words),
        "implicit" => changed::<ImplicitContextTag2<u32>>(alloc, words),
        "bits" => changed::<BitStringAsn1Container<u32>>(alloc, words),
        "octets" => changed::<OctetStringAsn1Container<u32>>(alloc, words),
        "optional" => optional(alloc, words),
        _ => bad_row("no such call"),
    }
}

// A value made of the first number and changed in place to the second.
fn changed<W>(alloc: Global, words: &mut Words<'_>) -> Result<Answer>
where
    W: From<u32> + DerefMut<Target = u32> + DerRead + DerWrite + CopyIn + PartialEq + Drop,
{
    let mut value = W::from(words.parsed()?);
    *value = words.parsed()?;
    written(alloc, &value)
}

fn optional(alloc: Global, words: &mut Words<'_>) -> Result<Answer> {
    let mut field = Optional(words.parsed::<u32>()?);
    *field = words.parsed()?;
    let copy = field.clone(alloc)?;
    let mut fields = Vec::new(alloc);
    copy.write_in(alloc, &mut fields)?;
    Answer::bytes(alloc, &fields)
}
