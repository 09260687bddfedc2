// What a request answers to an HTTP signature. KIND is `head`, `parts`, `request` or `none`: the head of BYTES, the same as
// `Parts` and as `Request` of the crate `http`, or no request. A refusal is answered as it is.
//
//     request.line KIND BYTES           the method and the target
//     request.values KIND BYTES NAME    the values of the header
//     request.verify KIND BYTES MOMENT LEEWAY MESSAGE SIGNATURE TEXT    as `http.verify`
use crate::builders::build;
use crate::header_texts::{asked_of, moment, over};
use crate::shown::{Shows, both, found, told};
use anyhow::{Result, bail};
use http::request::Request;
use picky_http::{HttpRequest, NoRequest, RequestHead, read_head};
use picky_key::PrivateKey;
use rows::{Answer, Words};
use std::alloc::Global;
use std::borrow::CowStr;

pub(crate) fn answer(alloc: Global, call: &str, words: &mut Words<'_>) -> Result<Answer> {
    ask_kind(alloc, words.next(), None, call, words)
}

// What is asked of a request of this kind, whose bytes are the next word: `line`, `values` or `verify`, or `build` under a private key.
pub(crate) fn ask_kind(
    alloc: Global,
    kind: &str,
    key: Option<&PrivateKey>,
    call: &str,
    words: &mut Words<'_>,
) -> Result<Answer> {
    match kind {
        "none" => ask_none(alloc, key, call, words),
        _ => ask_bytes(alloc, kind, key, call, words),
    }
}

fn ask_none(
    alloc: Global,
    key: Option<&PrivateKey>,
    call: &str,
    words: &mut Words<'_>,
) -> Result<Answer> {
    let _bytes = words.next();
    ask(alloc, &NoRequest, key, call, words)
}

fn ask_bytes(
    alloc: Global,
    kind: &str,
    key: Option<&PrivateKey>,
    call: &str,
    words: &mut Words<'_>,
) -> Result<Answer> {
    let head = head_of(alloc, words)?;
    let answer = ask_head(alloc, kind, &head, key, call, words);
    drop(head);
    answer
}

// The request head that the bytes of the next word begin with.
pub(crate) fn head_of(alloc: Global, words: &mut Words<'_>) -> Result<RequestHead> {
    let bytes = words.bytes(alloc)?;
    found(read_head(alloc, &bytes).ok(), "no such head")
}

fn ask_head(
    alloc: Global,
    kind: &str,
    head: &RequestHead,
    key: Option<&PrivateKey>,
    call: &str,
    words: &mut Words<'_>,
) -> Result<Answer> {
    match kind {
        "head" => ask(alloc, head, key, call, words),
        "parts" => ask_parts(alloc, head, key, call, words),
        "request" => ask_request(alloc, head, key, call, words),
        _ => bail!("no such kind"),
    }
}

fn ask_parts(
    alloc: Global,
    head: &RequestHead,
    key: Option<&PrivateKey>,
    call: &str,
    words: &mut Words<'_>,
) -> Result<Answer> {
    let (parts, ()) = request_of(alloc, head)?.into_parts();
    let answer = ask(alloc, &parts, key, call, words);
    drop(parts);
    answer
}

fn ask_request(
    alloc: Global,
    head: &RequestHead,
    key: Option<&PrivateKey>,
    call: &str,
    words: &mut Words<'_>,
) -> Result<Answer> {
    let request = request_of(alloc, head)?;
    let answer = ask(alloc, &request, key, call, words);
    drop(request);
    answer
}

// The head as a request of the crate `http`.
fn request_of(alloc: Global, head: &RequestHead) -> Result<Request<()>> {
    let mut builder = Request::builder(alloc)
        .method(head.method.as_str())
        .uri(head.target.as_str());
    for field in &head.fields {
        builder = builder.header(field.name.as_str(), field.value.as_slice());
    }
    found(builder.body(()).ok(), "no such request")
}

fn ask<Q: HttpRequest>(
    alloc: Global,
    request: &Q,
    key: Option<&PrivateKey>,
    call: &str,
    words: &mut Words<'_>,
) -> Result<Answer> {
    match call {
        "line" => line(alloc, request),
        "values" => values(alloc, request, words.rest()),
        "verify" => verify(alloc, request, words),
        "build" => build(alloc, request, found(key, "no key"), words),
        _ => bail!("no such call"),
    }
}

// A text in quotes.
struct Quoted;

impl<'a> Shows<CowStr<'a>> for Quoted {
    fn show(alloc: Global, text: &CowStr<'a>) -> Result<Answer> {
        Answer::debug(alloc, &text.as_str())
    }
}

fn line<Q: HttpRequest>(alloc: Global, request: &Q) -> Result<Answer> {
    let method = told::<Quoted, _, _>(alloc, request.get_lowercased_method(alloc));
    let target = told::<Quoted, _, _>(alloc, request.get_target(alloc));
    let (method, target) = both(method, target)?;
    Answer::pair(alloc, method, target)
}

fn values<Q: HttpRequest>(alloc: Global, request: &Q, name: &str) -> Result<Answer> {
    told::<Quoted, _, _>(alloc, request.get_header_concatenated_values(alloc, name))
}

fn verify<Q: HttpRequest>(alloc: Global, request: &Q, words: &mut Words<'_>) -> Result<Answer> {
    let dates = moment(words)?;
    let asked = asked_of(alloc, dates, words)?;
    let answer = over(alloc, request, &asked);
    drop(asked);
    answer
}
