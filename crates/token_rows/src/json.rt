// JSON trees.
//
//     json.compact TEXT     the compact text of its tree; `float` where a number of that is held as a float;
//                           `none` where it has no tree
//     json.nested DEPTH     `tree` or `none`, of so many lists in one another
//     json.quote LINES      the text as JSON
use crate::shown::found;
use anyhow::{Result, bail};
use picky_json::{compact, has_float, json_text_of, parse};
use rows::{Answer, Words};
use serde_json::Value;
use std::alloc::Global;

pub(crate) fn answer(alloc: Global, call: &str, words: &mut Words<'_>) -> Result<Answer> {
    match call {
        "compact" => compact_of(alloc, words.rest()),
        "nested" => nested(alloc, words),
        "quote" => quote(alloc, words),
        _ => bail!("no such call"),
    }
}

fn compact_of(alloc: Global, text: &str) -> Result<Answer> {
    match tree_of(alloc, text.as_bytes())? {
        Some(tree) => compact_tree(alloc, &tree),
        None => Ok(Answer::Word("none")),
    }
}

// The tree of the bytes.
fn tree_of(alloc: Global, bytes: &[u8]) -> Result<Option<Value>> {
    found(parse(alloc, bytes).ok(), "no memory")
}

fn compact_tree(alloc: Global, tree: &Value) -> Result<Answer> {
    if has_float(tree) {
        return Ok(Answer::Word("float"));
    }
    told(compact(alloc, tree).ok())
}

fn told(text: Option<String>) -> Result<Answer> {
    Ok(Answer::Text(found(text, "no memory")?))
}

fn nested(alloc: Global, words: &mut Words<'_>) -> Result<Answer> {
    let depth = words.size()?;
    let mut text = Vec::new(alloc);
    push_all(&mut text, b'[', depth)?;
    push_all(&mut text, b']', depth)?;
    match tree_of(alloc, &text)? {
        Some(_) => Ok(Answer::Word("tree")),
        None => Ok(Answer::Word("none")),
    }
}

fn push_all(text: &mut Vec<u8>, byte: u8, count: usize) -> Result<()> {
    for _ in 0..count {
        text.push(byte)?;
    }
    Ok(())
}

fn quote(alloc: Global, words: &mut Words<'_>) -> Result<Answer> {
    let text = words.lines(alloc)?;
    told(json_text_of(alloc, &text).ok())
}
