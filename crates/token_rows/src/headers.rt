// Headers of signed tokens. A refusal is answered as it is; a text that has no tree tells no header.
//
//     header_in_json.again TEXT         the header that the text's tree tells, copied, as compact text
//     header_in_json.names TEXT         the names of its additional members, in order, `-` for none
//     header_in_json.equal TEXT TEXT    whether the headers of two texts are equal
//     header_in_json.beside NAME TEXT   the header with EdDSA and one additional member, whose tree is the text's, as compact text
//     header_in_json.new TEXT           the header with EdDSA and this content type, as compact text
use crate::shown::{Shows, Text, told};
use anyhow::{Result, bail};
use indexmap::IndexMap;
use picky_json::parse;
use picky_jwk_names::JwsAlg;
use picky_jws_header::JwsHeader;
use picky_members::FormError;
use rows::{Answer, Words};
use serde_json::Value;
use std::alloc::{AllocError, Global};

pub(crate) fn answer(alloc: Global, call: &str, words: &mut Words<'_>) -> Result<Answer> {
    match call {
        "again" => again(alloc, words.rest()),
        "names" => names(alloc, words.rest()),
        "equal" => equal(alloc, words),
        "beside" => beside(alloc, words),
        "new" => new(alloc, words.rest()),
        _ => bail!("no such call"),
    }
}

fn tree_in(alloc: Global, text: &str) -> Result<Value, FormError> {
    match parse(alloc, text.as_bytes())? {
        Some(tree) => Ok(tree),
        None => Err(FormError::NotOfForm),
    }
}

fn header_in(alloc: Global, text: &str) -> Result<JwsHeader, FormError> {
    let tree = tree_in(alloc, text)?;
    let header = JwsHeader::from_tree(alloc, &tree);
    drop(tree);
    header
}

// A tree, as compact text.
struct CompactTree;

impl Shows<Value> for CompactTree {
    fn show(alloc: Global, tree: &Value) -> Result<Answer> {
        told::<Text, _, _>(alloc, tree.to_string(alloc))
    }
}

// A header, as compact text.
struct Compact;

impl Shows<JwsHeader> for Compact {
    fn show(alloc: Global, header: &JwsHeader) -> Result<Answer> {
        told::<CompactTree, _, _>(alloc, header.to_tree(alloc))
    }
}

// A copy of a header, as compact text.
struct Copied;

impl Shows<JwsHeader> for Copied {
    fn show(alloc: Global, header: &JwsHeader) -> Result<Answer> {
        told::<Compact, _, _>(alloc, header.clone(alloc))
    }
}

fn again(alloc: Global, text: &str) -> Result<Answer> {
    told::<Copied, _, _>(alloc, header_in(alloc, text))
}

// The names of a header's additional members.
struct MemberNames;

impl Shows<JwsHeader> for MemberNames {
    fn show(alloc: Global, header: &JwsHeader) -> Result<Answer> {
        told::<Text, _, _>(alloc, keys(alloc, &header.additional))
    }
}

fn keys(alloc: Global, members: &IndexMap<String, Value>) -> Result<String, AllocError> {
    let mut keys = String::new(alloc);
    for (key, _tree) in members.iter() {
        if !keys.is_empty() {
            keys.push(' ')?;
        }
        keys.push_str(key)?;
    }
    Ok(keys)
}

fn names(alloc: Global, text: &str) -> Result<Answer> {
    told::<MemberNames, _, _>(alloc, header_in(alloc, text))
}

fn equal(alloc: Global, words: &mut Words<'_>) -> Result<Answer> {
    let header = header_in(alloc, words.next());
    let other = header_in(alloc, words.rest());
    let answer = compared(alloc, &header, &other);
    drop(header);
    drop(other);
    answer
}

// Whether both are equal, or the first refusal.
fn compared(
    alloc: Global,
    header: &Result<JwsHeader, FormError>,
    other: &Result<JwsHeader, FormError>,
) -> Result<Answer> {
    match (header, other) {
        (Ok(header), Ok(other)) => Ok(Answer::Truth(header == other)),
        (Err(error), _) => Answer::debug(alloc, error),
        (_, Err(error)) => Answer::debug(alloc, error),
    }
}

fn member(alloc: Global, name: &str, tree: Value) -> Result<IndexMap<String, Value>, AllocError> {
    let mut members = IndexMap::new(alloc);
    drop(members.insert(String::from_str(alloc, name)?, tree)?);
    Ok(members)
}

fn with_members(alloc: Global, members: IndexMap<String, Value>) -> JwsHeader {
    let mut header = JwsHeader::new(alloc, JwsAlg::EdDSA);
    header.additional = members;
    header
}

// The header with one additional member.
fn with_member(alloc: Global, name: &str, text: &str) -> Result<JwsHeader, FormError> {
    let members = member(alloc, name, tree_in(alloc, text)?)?;
    Ok(with_members(alloc, members))
}

fn beside(alloc: Global, words: &mut Words<'_>) -> Result<Answer> {
    let name = words.next();
    told::<Compact, _, _>(alloc, with_member(alloc, name, words.rest()))
}

fn new(alloc: Global, cty: &str) -> Result<Answer> {
    told::<Compact, _, _>(alloc, JwsHeader::new_with_cty(alloc, JwsAlg::EdDSA, cty))
}
