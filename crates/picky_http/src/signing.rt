// The signing string of a request.
ghost use Rattle.std.specs.Prelude.{◌≡◌, ◌++◌, ◌∷◌, map, OnOk, IfOk, string_bytes};
ghost use Rattle.std.specs.Cow.{cow_str_bytes};
ghost use Rattle.picky_contract.specs.Refusals.{Meets};
ghost use Rattle.picky_http.specs.Faults.{http_fault};
ghost use Rattle.picky_http.specs.Lines.{part_answer, counted, both as both_said, request_of, text_table, Says};
ghost use Rattle.picky_http.specs.Parts.{part_of};
ghost use Rattle.picky_http.specs.Signing.{line_text, space};

use crate::error::HttpSignatureError;
use crate::header::Header;
use picky_http_request::HttpRequest;
use std::alloc::{AllocError, Global};
use std::borrow::CowStr;

// Writes one line at the end of the text.
fn push_line(out: &mut String, header: &Header, answer: &str) -> Result<(), AllocError>
    ensures { OnOk result (string_bytes out.new ≡ string_bytes out.old ++ line_text (part_of header.now) answer.now) }
{
    out.push_str(header.as_str())?;
    if answer.is_empty() {
        out.push(':')?;
        return Ok(());
    }
    out.push_str(": ")?;
    out.push_str(answer)?;
    Ok(())
}

// The digits of a number that a line covers.
fn digits(
    alloc: Global,
    parameter: &'static str,
    number: Option<u64>,
) -> Result<String, HttpSignatureError>
    ensures { Says string_bytes result (counted parameter.now number) }
{
    match number {
        Some(n) => match n.to_string(alloc) {
            Ok(text) => Ok(text),
            Err(_) => Err(HttpSignatureError::OutOfMemory),
        },
        None => Err(HttpSignatureError::MissingRequiredParameter { parameter }),
    }
}

fn both(alloc: Global, method: &str, target: &str) -> Result<String, AllocError>
    ensures { IfOk result (λ s. string_bytes s ≡ method.now ++ space ∷ target.now) }
{
    let mut text = String::from_str(alloc, method)?;
    text.push(' ')?;
    text.push_str(target)?;
    Ok(text)
}

// The method, a space and the target.
fn method_and_target<Q: HttpRequest>(
    alloc: Global,
    request: &Q,
) -> Result<String, HttpSignatureError>
    ensures { Says string_bytes result (both_said (Q.method request.now) (Q.target request.now)) }
{
    let method = match request.get_lowercased_method(alloc) {
        Ok(method) => method,
        Err(e) => return Err(HttpSignatureError::from(e)),
    };
    let target = match request.get_target(alloc) {
        Ok(target) => target,
        Err(e) => return Err(HttpSignatureError::from(e)),
    };
    match both(alloc, method.as_str(), target.as_str()) {
        Ok(text) => Ok(text),
        Err(_) => Err(HttpSignatureError::OutOfMemory),
    }
}

// What is said of one part.
fn answer<'a, Q: HttpRequest>(
    alloc: Global,
    header: &Header,
    request: &'a Q,
    created: Option<u64>,
    expires: Option<u64>,
) -> Result<CowStr<'a>, HttpSignatureError>
    ensures { Says cow_str_bytes result (part_answer (record { request = request_of Q.answer Q.method Q.target request.now; created = created; expires = expires }) (part_of header.now)) }
{
    match header {
        Header::Name(name) => match request.get_header_concatenated_values(alloc, name.as_str()) {
            Ok(text) => Ok(text),
            Err(e) => Err(HttpSignatureError::from(e)),
        },
        Header::RequestTarget => match method_and_target(alloc, request) {
            Ok(text) => Ok(CowStr::Owned(text)),
            Err(e) => Err(e),
        },
        Header::Created => match digits(alloc, "created", created) {
            Ok(text) => Ok(CowStr::Owned(text)),
            Err(e) => Err(e),
        },
        Header::Expires => match digits(alloc, "expires", expires) {
            Ok(text) => Ok(CowStr::Owned(text)),
            Err(e) => Err(e),
        },
    }
}

// The signing string of the parts, with the request's answers.
pub(crate) fn signing_text<Q: HttpRequest>(
    alloc: Global,
    headers: &[Header],
    request: &Q,
    created: Option<u64>,
    expires: Option<u64>,
) -> Result<String, HttpSignatureError>
    ensures { Meets string_bytes http_fault result (text_table (record { request = request_of Q.answer Q.method Q.target request.now; created = created; expires = expires }) (map part_of headers.now)) }
{
    let mut out = String::new(alloc);
    for (i, header) in headers.iter().enumerate() {
        match answer(alloc, header, request, created, expires) {
            Ok(text) => {
                if i > 0 {
                    out.push('\n')?;
                }
                push_line(&mut out, header, text.as_str())?;
            }
            Err(e) => return Err(e),
        }
    }
    Ok(out)
}
