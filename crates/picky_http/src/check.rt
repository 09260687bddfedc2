// The conditions of a verifier, one after another.
ghost use Rattle.std.specs.Prelude.{◌≡◌, ◌≤◌, map, option_map, string_bytes};
ghost use Rattle.std.specs.Cow.{cow_str_bytes};
ghost use Rattle.picky_contract.specs.Refusals.{Meets};
ghost use Rattle.picky_http.specs.Algorithms.{algorithm_view};
ghost use Rattle.picky_http.specs.Faults.{http_fault};
ghost use Rattle.picky_http.specs.Lines.{request_of, text_table};
ghost use Rattle.picky_http.specs.Parts.{part_of, covered};
ghost use Rattle.picky_http.specs.Reading.{reading_of};
ghost use Rattle.picky_http.specs.Verifying.{algorithm_table, expires_table, created_table, message_table, signed_table, rows_table, source_of, form_of as form_of_flag};

use crate::algorithm::HttpSigAlgorithm;
use crate::error::HttpSignatureError;
use crate::header::Header;
use crate::signature::HttpSignature;
use crate::signing::signing_text;
use crate::verifier::{Method, Way};
use picky_base64::Form;
use picky_http_request::HttpRequest;
use picky_key::{KeyProvider, PublicKey, SignatureAlgorithm, SignatureError};
use std::alloc::Global;
use std::borrow::CowStr;

// Whether an algorithm that is known is the verifier's, and of the key's family.
pub(crate) fn check_algorithm(
    key: &PublicKey,
    algorithm: SignatureAlgorithm,
    named: &Option<HttpSigAlgorithm>,
) -> Result<(), HttpSignatureError>
    ensures { Meets (λ u. u) http_fault result (algorithm_table key.now algorithm (option_map algorithm_view named.now)) }
{
    match named {
        Some(HttpSigAlgorithm::Known(value)) => {
            if *value == algorithm && value.is_of_family(key) {
                Ok(())
            } else {
                Err(HttpSignatureError::IncompatibleAlgorithm { value: *value })
            }
        }
        _ => Ok(()),
    }
}

// Whether `expires` is met, where it is there. The sum is in whole numbers.
fn check_expires(
    now: Option<u64>,
    leeway: u64,
    expires: Option<u64>,
) -> Result<(), HttpSignatureError>
    ensures { Meets (λ u. u) http_fault result (expires_table now leeway expires) }
{
    let Some(expires) = expires else {
        return Ok(());
    };
    let Some(now) = now else {
        return Err(HttpSignatureError::MissingBuilderArgument { arg: "now" });
    };
    if u128::from(now) > u128::from(expires) + u128::from(leeway) {
        return Err(HttpSignatureError::Expired {
            not_after: expires,
            now,
        });
    }
    Ok(())
}

// Whether `created` is met, where it is there. The sum is in whole numbers.
fn check_created(
    now: Option<u64>,
    leeway: u64,
    created: Option<u64>,
) -> Result<(), HttpSignatureError>
    ensures { Meets (λ u. u) http_fault result (created_table now leeway created) }
{
    let Some(created) = created else {
        return Ok(());
    };
    let Some(now) = now else {
        return Err(HttpSignatureError::MissingBuilderArgument { arg: "now" });
    };
    if u128::from(created) > u128::from(now) + u128::from(leeway) {
        return Err(HttpSignatureError::NotYetValid { created, now });
    }
    Ok(())
}

// The signing string of a signature, over a request.
fn covered_text<Q: HttpRequest>(
    alloc: Global,
    signature: &HttpSignature,
    request: &Q,
) -> Result<String, HttpSignatureError>
    ensures { Meets string_bytes http_fault result (text_table (record { request = request_of Q.answer Q.method Q.target request.now; created = signature.now.created; expires = signature.now.expires }) (covered (map part_of signature.now.headers.items))) }
{
    let (created, expires) = (signature.created, signature.expires);
    match signature.headers.as_slice() {
        [] => {
            let alone = [Header::Created];
            signing_text(alloc, &alone, request, created, expires)
        }
        headers => signing_text(alloc, headers, request, created, expires),
    }
}

// The signed bytes.
fn message<'a, Q: HttpRequest>(
    alloc: Global,
    way: &Way<'a, Q>,
    signature: &HttpSignature,
) -> Result<CowStr<'a>, HttpSignatureError>
    ensures { Meets cow_str_bytes http_fault result (message_table (source_of Q.answer Q.method Q.target way.now) (reading_of signature.now)) }
{
    match way {
        Way::Given(text) => Ok(CowStr::Borrowed(text)),
        Way::FromRequest(request) => match covered_text(alloc, signature, *request) {
            Ok(text) => Ok(CowStr::Owned(text)),
            Err(e) => Err(e),
        },
    }
}

// The form of a signature.
pub(crate) fn form_of(legacy: bool) -> Form
    ensures { result ≡ form_of_flag legacy }
{
    if legacy { Form::Url } else { Form::Standard }
}

// Whether the provider vouches for what the signature spells.
#[tactic(auto, unfolding(crate::specs::Verifying::signed_table))]
fn check_signed<P: KeyProvider>(
    alloc: Global,
    provider: &P,
    key: &PublicKey,
    algorithm: SignatureAlgorithm,
    message: &str,
    signature: &HttpSignature,
) -> Result<(), HttpSignatureError>
    ensures { Meets (λ u. u) http_fault result (signed_table (P.signs provider.now) key.now algorithm message.now (reading_of signature.now)) }
{
    let form = form_of(signature.legacy);
    let Some(bytes) = picky_base64::decode(alloc, form, &signature.signature)? else {
        return Err(HttpSignatureError::Base64Decoding);
    };
    if !provider.verify(alloc, key, algorithm, message.as_bytes(), &bytes)? {
        return Err(HttpSignatureError::Signature {
            source: SignatureError::BadSignature,
        });
    }
    Ok(())
}

// The conditions from the dates on.
#[tactic(auto, unfolding(crate::specs::Verifying::rows_table))]
pub(crate) fn check_rows<'a, P: KeyProvider, Q: HttpRequest>(
    alloc: Global,
    provider: &P,
    method: &Method<'a>,
    way: &Way<'a, Q>,
    now: Option<u64>,
    leeway: u64,
    signature: &HttpSignature,
) -> Result<(), HttpSignatureError>
    ensures { Meets (λ u. u) http_fault result (rows_table (P.signs provider.now) method.now.key.now method.now.algorithm (source_of Q.answer Q.method Q.target way.now) now leeway (reading_of signature.now)) }
{
    check_expires(now, leeway, signature.expires)?;
    check_created(now, leeway, signature.created)?;
    match message(alloc, way, signature) {
        Ok(text) => check_signed(
            alloc,
            provider,
            method.key,
            method.algorithm,
            text.as_str(),
            signature,
        ),
        Err(e) => Err(e),
    }
}
