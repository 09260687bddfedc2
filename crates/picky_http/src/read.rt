// Header texts, read as spans of them.
ghost use Rattle.std.specs.Prelude.{◌≡◌, IfOk, IfSome, Some, None, option_map, map};
ghost use Rattle.picky_http.specs.Algorithms.{algorithm_view, algorithm_named};
ghost use Rattle.picky_http.specs.Parts.{part_of, AreParts};
ghost use Rattle.std.specs.List.{list_any};
ghost use Rattle.picky_contract.specs.Refusals.{Finds, Meets};
ghost use Rattle.picky_http_text.specs.Places.{IsSpan, MayBeSpan};
ghost use Rattle.picky_http.specs.Faults.{http_fault};
ghost use Rattle.picky_http.specs.Reading.{at, shown_of, is_legacy as is_legacy_form, begins_with_quote as begins_with_quote_byte, is_standard_byte, IsOptionalValue, IsOptionalNumber, IsSigned, IsCutOf, reading_of, signed_view};
ghost use Rattle.picky_http.specs.Refusals.{shown_table};
ghost use Rattle.picky_http_text.specs.Clean.{IsValue};

use crate::algorithm::HttpSigAlgorithm;
use crate::error::HttpSignatureError;
use crate::header::{Header, parts_from};
use crate::signature::HttpSignature;
use crate::view::HeaderView;
use picky_http_text::{Span, clean_span, number_of, raw_span, shifted};
use std::alloc::{AllocError, Global};

// Where the cleaned value of the key stands.
fn value_span(text: &str, key: &str) -> Option<Span>
    ensures value { IsOptionalValue text.now key.now (option_map (at text.now) result) }
    ensures found { Finds (at text.now) (IsValue text.now key.now) result }
    ensures fits { MayBeSpan text.now result }
{
    match raw_span(text, key) {
        None => None,
        Some(raw) => Some(shifted(raw, clean_span(raw.of(text)))),
    }
}

// The number under the key, none where the text has no such key; `None` where its value is no number.
fn number_under(text: &str, key: &str) -> Option<Option<u64>>
    ensures { Finds (λ n. n) (IsOptionalNumber text.now key.now) result }
{
    match value_span(text, key) {
        None => Some(None),
        Some(span) => match number_of(span.of(text)) {
            None => None,
            Some(n) => Some(Some(n)),
        },
    }
}

// Whether the form of a signature is unpadded base64url.
fn is_legacy(raw: &str, clean: &str) -> bool
    ensures { result ≡ is_legacy_form raw.now clean.now }
{
    !begins_with_quote(raw.as_bytes()) && !has_standard_byte(clean.as_bytes())
}

fn begins_with_quote(value: &[u8]) -> bool
    ensures { result ≡ begins_with_quote_byte value.now }
{
    match value {
        [first, ..] => *first == b'"',
        [] => false,
    }
}

// Whether a value holds a character that standard base64 has and base64url hasn't.
fn has_standard_byte(value: &[u8]) -> bool
    ensures { result ≡ list_any is_standard_byte value.now }
{
    value
        .iter()
        .any(|b| *b == b'/' || (*b == b'+' || *b == b'='))
}

// Where the signature stands, and whether its form is unpadded base64url.
fn signed_span(text: &str) -> Option<(Span, bool)>
    ensures found { Finds (signed_view text.now) (IsSigned text.now) result }
    ensures fits { IfSome result (λ s. IsSpan text.now s.0) }
{
    match raw_span(text, "signature") {
        None => None,
        Some(raw) => {
            let span = shifted(raw, clean_span(raw.of(text)));
            let legacy = is_legacy(raw.of(text), span.of(text));
            Some((span, legacy))
        }
    }
}

impl<'a> HeaderView<'a> {
    // Reads a header text. No memory is taken.
    #[tactic(auto, unfolding(crate::specs::Refusals::shown_table))]
    pub(crate) fn read(text: &'a str) -> Result<HeaderView<'a>, HttpSignatureError>
        ensures { Meets shown_of http_fault result (shown_table text.now) }
    {
        let Some(created) = number_under(text, "created") else {
            return Err(HttpSignatureError::InvalidParameter {
                parameter: "created",
            });
        };
        let Some(expires) = number_under(text, "expires") else {
            return Err(HttpSignatureError::InvalidParameter {
                parameter: "expires",
            });
        };
        let Some((signature, legacy)) = signed_span(text) else {
            return Err(HttpSignatureError::MissingRequiredParameter {
                parameter: "signature",
            });
        };
        let Some(key_id) = value_span(text, "keyId") else {
            return Err(HttpSignatureError::MissingRequiredParameter { parameter: "keyId" });
        };
        Ok(HeaderView {
            text,
            key_id,
            signature,
            headers: value_span(text, "headers"),
            algorithm: value_span(text, "algorithm"),
            created,
            expires,
            legacy,
        })
    }

    // The same with owned fields.
    pub(crate) fn to_signature(&self, alloc: Global) -> Result<HttpSignature, AllocError>
        ensures { IfOk result (λ s. IsCutOf (shown_of self.now) (reading_of s)) }
    {
        let headers = parts_of(alloc, self.text, self.headers)?;
        let algorithm = algorithm_of(alloc, self.text, self.algorithm)?;
        let key_id = String::from_str(alloc, self.key_id.of(self.text))?;
        let signature = String::from_str(alloc, self.signature.of(self.text))?;
        Ok(HttpSignature::with_form(
            key_id,
            headers,
            self.created,
            self.expires,
            signature,
            algorithm,
            self.legacy,
        ))
    }
}

// The parts at an optional span.
fn parts_of(alloc: Global, text: &str, span: Option<Span>) -> Result<Vec<Header>, AllocError>
    requires { MayBeSpan text.now span }
    ensures { IfOk result (λ v. AreParts (option_map (at text.now) span) (map part_of v.items)) }
{
    match span {
        None => Ok(Vec::new(alloc)),
        Some(span) => parts_from(alloc, span.of(text)),
    }
}

// The algorithm at an optional span.
fn algorithm_of(
    alloc: Global,
    text: &str,
    span: Option<Span>,
) -> Result<Option<HttpSigAlgorithm>, AllocError>
    requires { MayBeSpan text.now span }
    ensures { IfOk result (λ a. option_map algorithm_view a ≡ option_map algorithm_named (option_map (at text.now) span)) }
{
    match span {
        None => Ok(None),
        Some(span) => {
            let algorithm = HttpSigAlgorithm::from_text(alloc, span.of(text))?;
            Ok(Some(algorithm))
        }
    }
}
