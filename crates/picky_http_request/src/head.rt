// A request head with owned fields.
ghost use Rattle.std.specs.Prelude.{◌≡◌, IsTrue, IfOk, IfErr, IfSome, IfNone, IsErrAnd, false, map};
ghost use Rattle.std.specs.List.{list_all};
ghost use Rattle.std.specs.Str.{trim};
ghost use Rattle.picky_http_request.specs.Answers.{IsErrorOf};
ghost use Rattle.picky_http_request.specs.Values.{is_text_byte as is_text, values_answer};
ghost use Rattle.picky_http_request.specs.Heads.{has_name as is_named, values_of, head_answer, head_method, head_target};

use crate::error::HttpRequestError;
use crate::join::{join, lowered};
use crate::request::HttpRequest;
use std::alloc::Global;
use std::borrow::CowStr;

/// A header field: its name, and the bytes of its value.
#[derive(Debug, Drop)]
pub struct RequestField {
    pub name: String,
    pub value: Vec<u8>,
}

/// The head of a request: its method, its target and its header fields, in order.
#[derive(Debug, Drop)]
pub struct RequestHead {
    pub method: String,
    pub target: String,
    pub fields: Vec<RequestField>,
}

impl RequestField {
    // Whether the field has the name, ASCII case aside.
    fn has_name(&self, name: &str) -> bool
        ensures { result ≡ is_named name.now self.now }
    {
        self.name.as_str().eq_ignore_ascii_case(name)
    }
}

// Whether a byte is a tab or 20 to 7E.
fn is_text_byte(b: u8) -> bool
    ensures { result ≡ is_text b }
{
    b == 9 || (32 <= b && b < 127)
}

fn are_text_bytes(value: &[u8]) -> bool
    ensures { result ≡ list_all is_text value.now }
{
    value.iter().all(|b| is_text_byte(*b))
}

// The value as a text, where each of its bytes may stand in one.
fn text_of(value: &[u8]) -> Option<&str>
    ensures some { IfSome result (λ t. IsTrue (list_all is_text value.now) × (t.now ≡ value.now)) }
    ensures none { IfNone result (list_all is_text value.now ≡ false) }
{
    if !are_text_bytes(value) {
        return None;
    }
    match std::str::from_utf8(value) {
        Ok(text) => Some(text),
        Err(_) => None,
    }
}

// The trimmed values of the fields with the name.
fn values<'a>(
    alloc: Global,
    fields: &'a [RequestField],
    name: &str,
) -> Result<Vec<&'a str>, HttpRequestError>
    ensures ok { IfOk result (λ v. IsTrue (list_all (list_all is_text) (values_of name.now fields.now))
        × (map (λ t. t.now) v.items ≡ map trim (values_of name.now fields.now))) }
    ensures err { IfErr result (λ e. IsErrorOf e (values_answer name.now (values_of name.now fields.now))) }
{
    let mut found = Vec::new(alloc);
    for field in fields {
        if field.has_name(name) {
            match text_of(&field.value) {
                Some(text) => found.push(text.trim())?,
                None => {
                    return Err(HttpRequestError::HeaderValueToStr {
                        key: String::from_str(alloc, name)?,
                    });
                }
            }
        }
    }
    Ok(found)
}

impl HttpRequest for RequestHead {
    ghost answer = { head_answer };

    ghost method = { head_method };

    ghost target = { head_target };

    fn get_header_concatenated_values<'a>(
        &'a self,
        alloc: Global,
        header_name: &str,
    ) -> Result<CowStr<'a>, HttpRequestError> {
        match values(alloc, &self.fields, header_name) {
            Ok(values) => match join(alloc, ", ", &values) {
                Ok(joined) => Ok(CowStr::Owned(joined)),
                Err(_) => Err(HttpRequestError::OutOfMemory),
            },
            Err(e) => Err(e),
        }
    }

    fn get_lowercased_method<'a>(&'a self, alloc: Global) -> Result<CowStr<'a>, HttpRequestError> {
        lowered(alloc, self.method.as_str())
    }

    fn get_target<'a>(&'a self, _alloc: Global) -> Result<CowStr<'a>, HttpRequestError> {
        match self.target.as_str().split_once('?') {
            Some((path, _)) => Ok(CowStr::Borrowed(path)),
            None => Ok(CowStr::Borrowed(self.target.as_str())),
        }
    }
}
