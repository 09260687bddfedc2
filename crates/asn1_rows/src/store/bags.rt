// Bags, the bags of a part, and parts.
//
//     bags.again BYTES            what the bag that is read is written as, or the fault; bags.list of the bags of a part, bags.part of a part
//     bags.kind BYTES             the variant of what a bag holds, or the fault; bags.part_variant that of a part
//     bags.attributes BYTES       how many attributes a bag has, `none` where it has no set of them, or the fault
//     bags.within LEVELS BYTES    what the bag in front is written as, `none` where one stands deeper than the levels, or the fault
//     bags.contents LEVELS BYTES  the same of the bags of a part
use crate::bad_row;
use crate::store::{part_of_debug, refusal, value, value_of, written};
use anyhow::Result;
use picky_asn1::CopyIn;
use picky_asn1_x509::{SafeBag, SafeContents, SafeContentsContentInfo, read_contents_levels};
use picky_der::{DerError, DerReader, DerWrite};
use rows::{Answer, Words};
use std::alloc::Global;

pub(crate) fn answer(alloc: Global, call: &str, words: &mut Words<'_>) -> Result<Answer> {
    match call {
        "again" => value::<SafeBag>(alloc, call, words),
        "list" => value::<SafeContents>(alloc, "again", words),
        "part" => value::<SafeContentsContentInfo>(alloc, "again", words),
        "part_variant" => value::<SafeContentsContentInfo>(alloc, "variant", words),
        "kind" | "attributes" => of_bag(alloc, call, words),
        "within" | "contents" => within(alloc, call, words),
        _ => bad_row("no such call"),
    }
}

fn of_bag(alloc: Global, call: &str, words: &mut Words<'_>) -> Result<Answer> {
    let bytes = words.bytes(alloc)?;
    match value_of(alloc, &bytes) {
        Ok(bag) => seen(alloc, call, &bag),
        Err(fault) => refusal(fault),
    }
}

fn seen(alloc: Global, call: &str, bag: &SafeBag) -> Result<Answer> {
    match &bag.attributes {
        _ if call == "kind" => part_of_debug(alloc, "variant", &bag.kind),
        Some(set) => Ok(Answer::Size(set.0.len())),
        None => Ok(Answer::Word("none")),
    }
}

// What stands first, written again, `none` where a bag stands deeper than is allowed.
fn within(alloc: Global, call: &str, words: &mut Words<'_>) -> Result<Answer> {
    let levels = words.parsed()?;
    let bytes = words.bytes(alloc)?;
    read_within(alloc, call, &mut DerReader::new(&bytes), levels)
}

fn read_within(
    alloc: Global,
    call: &str,
    reader: &mut DerReader<'_>,
    levels: u32,
) -> Result<Answer> {
    match call {
        "within" => allowed(alloc, SafeBag::read_levels(alloc, reader, levels)),
        _ => allowed(alloc, read_contents_levels(alloc, reader, levels)),
    }
}

fn allowed<T: CopyIn + DerWrite + Drop>(
    alloc: Global,
    read: Result<Option<T>, DerError>,
) -> Result<Answer> {
    match read {
        Ok(Some(value)) => written(alloc, &value),
        Ok(None) => Ok(Answer::Word("none")),
        Err(fault) => refusal(fault),
    }
}
