// The token of a word.
ghost use Rattle.std.specs.Prelude.{◌≡◌, ◌<◌, IfOk, string_bytes};
ghost use Rattle.picky_generate.specs.Texts.{header, claims, signed, text, url, signature};

use crate::keys::{KEYS, key_name};
use picky_base64::{Form, encode};
use std::alloc::{AllocError, Global};

// base64url without padding.
pub(crate) fn url_of(alloc: Global, bytes: &[u8]) -> Result<String, AllocError>
    ensures { IfOk result (λ out. string_bytes out ≡ url bytes.now) }
{
    encode(alloc, Form::Url, bytes)
}

// The header.
fn header_of(alloc: Global, word: u32) -> Result<String, AllocError>
    ensures { IfOk result (λ out. string_bytes out ≡ header word) }
{
    let name = key_name(alloc, word % KEYS)?;
    format!(in alloc; "{{\"alg\":\"EdDSA\",\"kid\":\"{name}\"}}")
}

// The claims.
fn claims_of(alloc: Global, word: u32, number: u64) -> Result<String, AllocError>
    ensures { IfOk result (λ out. string_bytes out ≡ claims word number) }
{
    let end = 1 + word / 8;
    format!(in alloc; "{{\"exp\":{end},\"n\":{number}}}")
}

// The bytes before the last dot.
pub(crate) fn signed_of(alloc: Global, word: u32, number: u64) -> Result<String, AllocError>
    ensures { IfOk result (λ out. string_bytes out ≡ signed word number) }
{
    let header = header_of(alloc, word)?;
    let header = url_of(alloc, header.as_bytes())?;
    let claims = claims_of(alloc, word, number)?;
    let claims = url_of(alloc, claims.as_bytes())?;
    format!(in alloc; "{header}.{claims}")
}

// The signature in base64url.
pub(crate) fn signature_of(alloc: Global, word: u32) -> Result<String, AllocError>
    ensures { IfOk result (λ out. string_bytes out ≡ url (signature word)) }
{
    url_of(alloc, &word.to_be_bytes())
}

/// The text of a word and its number: `Bearer ` and the token with the header `{"alg":"EdDSA","kid":"kD"}`, D being the word modulo 8, the
/// claims `{"exp":E,"n":i}`, E being 1 and the word divided by 8, and the word's four bytes in big-endian order as its signature (RFC 7515,
/// section 7.1).
///
/// The one error is want of memory.
pub fn text_of(alloc: Global, word: u32, number: u64) -> Result<String, AllocError>
    ensures { IfOk result (λ out. string_bytes out ≡ text word number) }
{
    let signed = signed_of(alloc, word, number)?;
    let signature = signature_of(alloc, word)?;
    format!(in alloc; "Bearer {signed}.{signature}")
}
