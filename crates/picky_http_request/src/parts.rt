// The requests of the crate `http`.
ghost use Rattle.std.specs.Prelude.{◌≡◌, IsTrue, IfOk, IfErr, map};
ghost use Rattle.std.specs.List.{list_all};
ghost use Rattle.std.specs.Str.{trim};
ghost use Rattle.http.specs.Request.{head_of};
ghost use Rattle.picky_http_request.specs.Answers.{Answers, IsErrorOf};
ghost use Rattle.picky_http_request.specs.Values.{is_text_byte, values_answer};
ghost use Rattle.picky_http_request.specs.Parts.{map_values, parts_answer, parts_method, parts_target};

use crate::error::HttpRequestError;
use crate::join::{join, lowered};
use crate::request::HttpRequest;
use http::request::{Parts, Request};
use http_header::{HeaderMap, HeaderValue};
use std::alloc::Global;
use std::borrow::CowStr;

// The trimmed values under the name.
fn values<'a>(
    alloc: Global,
    headers: &'a HeaderMap<HeaderValue>,
    name: &str,
) -> Result<Vec<&'a str>, HttpRequestError>
    ensures ok { IfOk result (λ v. IsTrue (list_all (list_all is_text_byte) (map_values name.now headers.now))
        × (map (λ t. t.now) v.items ≡ map trim (map_values name.now headers.now))) }
    ensures err { IfErr result (λ e. IsErrorOf e (values_answer name.now (map_values name.now headers.now))) }
{
    let mut found = Vec::new(alloc);
    for value in headers.get_all(name) {
        match value.to_str() {
            Ok(text) => found.push(text.trim())?,
            Err(_) => {
                return Err(HttpRequestError::HeaderValueToStr {
                    key: String::from_str(alloc, name)?,
                });
            }
        }
    }
    Ok(found)
}

fn joined<'a>(
    alloc: Global,
    headers: &'a HeaderMap<HeaderValue>,
    name: &str,
) -> Result<CowStr<'a>, HttpRequestError>
    ensures { Answers result (values_answer name.now (map_values name.now headers.now)) }
{
    match values(alloc, headers, name) {
        Ok(values) => match join(alloc, ", ", &values) {
            Ok(joined) => Ok(CowStr::Owned(joined)),
            Err(_) => Err(HttpRequestError::OutOfMemory),
        },
        Err(e) => Err(e),
    }
}

impl HttpRequest for Parts {
    ghost answer = { parts_answer };

    ghost method = { parts_method };

    ghost target = { parts_target };

    fn get_header_concatenated_values<'a>(
        &'a self,
        alloc: Global,
        header_name: &str,
    ) -> Result<CowStr<'a>, HttpRequestError> {
        joined(alloc, &self.headers, header_name)
    }

    fn get_lowercased_method<'a>(&'a self, alloc: Global) -> Result<CowStr<'a>, HttpRequestError> {
        lowered(alloc, self.method.as_str())
    }

    fn get_target<'a>(&'a self, _alloc: Global) -> Result<CowStr<'a>, HttpRequestError> {
        Ok(CowStr::Borrowed(self.uri.path()))
    }
}

impl<T> HttpRequest for Request<T> {
    ghost answer = { λ r. parts_answer (head_of r) };

    ghost method = { λ r. parts_method (head_of r) };

    ghost target = { λ r. parts_target (head_of r) };

    fn get_header_concatenated_values<'a>(
        &'a self,
        alloc: Global,
        header_name: &str,
    ) -> Result<CowStr<'a>, HttpRequestError> {
        joined(alloc, self.headers(), header_name)
    }

    fn get_lowercased_method<'a>(&'a self, alloc: Global) -> Result<CowStr<'a>, HttpRequestError> {
        lowered(alloc, self.method().as_str())
    }

    fn get_target<'a>(&'a self, _alloc: Global) -> Result<CowStr<'a>, HttpRequestError> {
        Ok(CowStr::Borrowed(self.uri().path()))
    }
}
