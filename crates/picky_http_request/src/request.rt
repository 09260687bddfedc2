// What a signature asks of a request.
ghost use Rattle.std.specs.Prelude.{ℕ, List};
ghost use Rattle.picky_http_request.specs.Answers.{Answer, Answers, no_request};

use crate::error::HttpRequestError;
use std::alloc::Global;
use std::borrow::CowStr;

/// A request, known by what it answers: to the name of a header, its method and its target, each a text
/// or why there is none. Each call answers its meaning, or wants memory.
pub trait HttpRequest {
    /// The values of the header with this name, joined.
    ghost answer: { Self → List ℕ → Answer };

    /// The method, in lower case.
    ghost method: { Self → Answer };

    /// The target, without its query.
    ghost target: { Self → Answer };

    /// The values of the fields with this name, ASCII case aside, each trimmed and joined by `, `; empty
    /// where there is no such field.
    ///
    /// `HeaderValueToStr`, with the name as it was asked, where such a value has a byte that is neither a
    /// tab nor 20 to 7E.
    fn get_header_concatenated_values<'a>(
        &'a self,
        alloc: Global,
        header_name: &str,
    ) -> Result<CowStr<'a>, HttpRequestError>
        ensures { Answers result (answer self.now header_name.now) };

    /// The method, in ASCII lower case.
    fn get_lowercased_method<'a>(&'a self, alloc: Global) -> Result<CowStr<'a>, HttpRequestError>
        ensures { Answers result (method self.now) };

    /// The target before its first `?`.
    fn get_target<'a>(&'a self, alloc: Global) -> Result<CowStr<'a>, HttpRequestError>
        ensures { Answers result (target self.now) };
}

/// No request at all: each call answers `Unexpected` with the reason `no request`.
#[derive(Clone, Copy, Debug)]
pub struct NoRequest;

impl HttpRequest for NoRequest {
    ghost answer = { λ _ _. no_request };

    ghost method = { λ _. no_request };

    ghost target = { λ _. no_request };

    fn get_header_concatenated_values<'a>(
        &'a self,
        _alloc: Global,
        _header_name: &str,
    ) -> Result<CowStr<'a>, HttpRequestError> {
        Err(HttpRequestError::Unexpected {
            reason: "no request",
        })
    }

    fn get_lowercased_method<'a>(&'a self, _alloc: Global) -> Result<CowStr<'a>, HttpRequestError> {
        Err(HttpRequestError::Unexpected {
            reason: "no request",
        })
    }

    fn get_target<'a>(&'a self, _alloc: Global) -> Result<CowStr<'a>, HttpRequestError> {
        Err(HttpRequestError::Unexpected {
            reason: "no request",
        })
    }
}
