// Request heads from bytes.
ghost use Rattle.std.specs.Prelude.{◌≡◌, ◌≤◌, length, map, All, IfOk, IsUtf8, string_bytes};
ghost use Rattle.httparse.specs.Spans.{span_bytes};
ghost use Rattle.picky_contract.specs.Refusals.{Finds, Meets, OkOrMemory, the};
ghost use Rattle.picky_http_request.specs.Heads.{Head, head_view, field_view, RequestOf, IsReadable, span_field, head_fault, bad_head};

use crate::error::HeadFault;
use crate::head::{RequestField, RequestHead};
use httparse::Status;
use httparse::spans::{EMPTY_HEADER_SPAN, HeaderSpan, Span, parse_request};
use std::alloc::{AllocError, Global};

/// How many header lines a request head has at most.
const MAX_HEADERS: usize = 100;

// The text that a span covers.
fn text_at(alloc: Global, bytes: &[u8], span: Span) -> Result<String, AllocError>
    requires ordered { span.start ≤ span.end }
    requires fits { span.end ≤ length bytes.now }
    requires text { IsUtf8 (span_bytes bytes.now span) }
    ensures { IfOk result (λ s. string_bytes s ≡ span_bytes bytes.now span) }
{
    match std::str::from_utf8(span.of(bytes)) {
        Ok(text) => String::from_str(alloc, text),
        Err(_) => unreachable!(),
    }
}

// A field from its spans, with its name in lower case.
fn field_at(alloc: Global, bytes: &[u8], header: HeaderSpan) -> Result<RequestField, AllocError>
    requires { IsReadable bytes.now header }
    ensures { IfOk result (λ f. field_view f ≡ span_field bytes.now header) }
{
    let mut name = text_at(alloc, bytes, header.name)?;
    name.make_ascii_lowercase();
    let value = header.value.of(bytes).to_vec(alloc)?;
    Ok(RequestField { name, value })
}

// The fields from their spans.
fn fields_at(
    alloc: Global,
    bytes: &[u8],
    headers: &[HeaderSpan],
) -> Result<Vec<RequestField>, AllocError>
    requires { All (IsReadable bytes.now) headers.now }
    ensures { IfOk result (λ v. map field_view v.items ≡ map (span_field bytes.now) headers.now) }
{
    let mut fields = Vec::new(alloc);
    for header in headers {
        fields.push(field_at(alloc, bytes, *header)?)?;
    }
    Ok(fields)
}

// The request head that the bytes begin with.
fn find_head(alloc: Global, bytes: &[u8]) -> Result<Option<RequestHead>, AllocError>
    ensures { IfOk result (Finds head_view (RequestOf bytes.now)) }
{
    let mut headers = [EMPTY_HEADER_SPAN; MAX_HEADERS];
    match parse_request(bytes, &mut headers) {
        Ok(Status::Complete(head)) => {
            let method = text_at(alloc, bytes, head.method)?;
            let target = text_at(alloc, bytes, head.path)?;
            let fields = fields_at(alloc, bytes, &headers[..head.headers])?;
            Ok(Some(RequestHead {
                method,
                target,
                fields,
            }))
        }
        _ => Ok(None),
    }
}

/// Reads the request head that the bytes begin with (RFC 9112, sections 3 and 5), by the grammar of
/// `httparse`: the method, the target and the fields in order, their names in ASCII lower case and their
/// values without the white space around them. Bytes after the head are ignored.
///
/// `BadHead` exactly where no prefix of the bytes is a request head with at most 100 header lines and a
/// target in UTF-8.
pub fn read_head(alloc: Global, bytes: &[u8]) -> Result<RequestHead, HeadFault>
    ensures found { IfOk result (λ head. RequestOf bytes.now (head_view head)) }
    ensures every { (head : Head) → RequestOf bytes.now head → OkOrMemory head_view head_fault result head }
    ensures first { Meets head_view head_fault result (the (RequestOf bytes.now) bad_head) }
{
    let Some(head) = find_head(alloc, bytes)? else {
        return Err(HeadFault::BadHead);
    };
    Ok(head)
}
