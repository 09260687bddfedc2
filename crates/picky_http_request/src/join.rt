// Values of one header as one text.
ghost use Rattle.std.specs.Prelude.{◌≡◌, Ok, IfOk, map, string_bytes};
ghost use Rattle.std.specs.Str.{str_to_ascii_lowercase};
ghost use Rattle.picky_http_request.specs.Answers.{Answers};
ghost use Rattle.picky_http_request.specs.Values.{join_texts};

use crate::error::HttpRequestError;
use std::alloc::{AllocError, Global};
use std::borrow::CowStr;

// The texts in a row, with the separator between each two.
pub(crate) fn join(alloc: Global, separator: &str, texts: &[&str]) -> Result<String, AllocError>
    ensures { IfOk result (λ s. string_bytes s ≡ join_texts separator.now (map (λ t. t.now) texts.now)) }
{
    let mut out = String::new(alloc);
    for (i, text) in texts.iter().enumerate() {
        if i > 0 {
            out.push_str(separator)?;
        }
        out.push_str(text)?;
    }
    Ok(out)
}

// The method in ASCII lower case.
pub(crate) fn lowered<'a>(alloc: Global, method: &str) -> Result<CowStr<'a>, HttpRequestError>
    ensures { Answers result (Ok (str_to_ascii_lowercase method.now)) }
{
    match String::from_str(alloc, method) {
        Ok(mut lower) => {
            lower.make_ascii_lowercase();
            Ok(CowStr::Owned(lower))
        }
        Err(_) => Err(HttpRequestError::OutOfMemory),
    }
}
