// What is printed.
ghost use Rattle.std.specs.Prelude.{◌≡◌, ◌∷◌, ◌++◌, IfOk, OnOk, IsSomeAnd, map, string_bytes};
ghost use Rattle.serde_json.specs.View.{view};
ghost use Rattle.picky_json.specs.Text.{json_text};
ghost use Rattle.picky_json.specs.Tree.{FloatFree};
ghost use Rattle.picky_http_request.specs.Answers.{request_fault};
ghost use Rattle.picky_http.specs.Faults.{http_fault, no_line};
ghost use Rattle.picky_http.specs.Parts.{part_of, covered};
ghost use Rattle.picky_http.specs.Reading.{reading_of};
ghost use Rattle.picky_http.specs.Signing.{part_text};
ghost use Rattle.picky_jose.specs.Faults.{jws_fault, jwt_fault};
ghost use Rattle.picky_jwk_key.specs.Refusals.{fault as jwk_fault};
ghost use Rattle.picky_ring.specs.Refusals.{keys_fault};
ghost use Rattle.picky_gate.specs.Faults.{flaw_of, of_keys, why_of, bad, refused};
ghost use Rattle.picky_gate.specs.Lines.{number_text as number_of, texts_json, request_text, http_text, token_text, admitted_text, IsPrintable, document_text, jwk_text, keys_text, jws_text, jwt_text, cause_text, why_status, why_text};
ghost use Rattle.picky_gate.specs.Refusals.{admission_of, cause_of};

use crate::documents::{Document, DocumentFault, Fault};
use crate::{Admitted, KeysFault, Refusal};
use picky_http::{Header, HttpSignature, HttpSignatureError};
use picky_http_request::{HeadFault, HttpRequestError};
use picky_jose::{JwsError, JwtError};
use picky_json::{compact, json_text_of};
use picky_jwk::JwkError;
use picky_jwk_names::JwsAlg;
use picky_key::SignatureAlgorithm;
use picky_records::RecordFault;
use serde_json::Value;
use std::alloc::{AllocError, Global};

/// The name of a document.
pub fn document_name(document: Document) -> &'static str
    ensures { result.now ≡ document_text document }
{
    match document {
        Document::Keys => "keys",
        Document::Records => "records",
        Document::Request => "request",
    }
}

fn token_lines(alloc: Global, name: &str, alg: JwsAlg, claims: &Value) -> Result<String, AllocError>
    requires { FloatFree (view claims.now) }
    ensures { IfOk result (λ text. string_bytes text ≡ token_text name.now alg (view claims.now)) }
{
    let name = json_text_of(alloc, name)?;
    let alg = alg.name();
    let claims = compact(alloc, claims)?;
    format!(in alloc; "admitted {name}\ntoken {alg} {claims}\n")
}

// A number, or `-` where there is none.
fn number_text(alloc: Global, number: Option<u64>) -> Result<String, AllocError>
    ensures { IfOk result (λ text. string_bytes text ≡ number_of number) }
{
    match number {
        Some(number) => format!(in alloc; "{number}"),
        None => String::from_str(alloc, "-"),
    }
}

fn push_json(alloc: Global, out: &mut String, text: &str) -> Result<(), AllocError>
    ensures { OnOk result (string_bytes out.new ≡ string_bytes out.old ++ json_text text.now) }
{
    let json = json_text_of(alloc, text)?;
    out.push_str(&json)?;
    Ok(())
}

// The texts of a part and of those after it, as a list.
fn list_text(alloc: Global, first: &Header, later: &[Header]) -> Result<String, AllocError>
    ensures { IfOk result (λ text. string_bytes text ≡ texts_json (part_text (part_of first.now) ∷ map part_text (map part_of later.now))) }
{
    let mut out = String::from_str(alloc, "[")?;
    push_json(alloc, &mut out, first.as_str())?;
    let mut rest = later;
    while let [header, after @ ..] = rest {
        out.push_str(",")?;
        push_json(alloc, &mut out, header.as_str())?;
        rest = after;
    }
    out.push_str("]")?;
    Ok(out)
}

// The covered parts as a list of texts.
fn parts_text(alloc: Global, headers: &[Header]) -> Result<String, AllocError>
    ensures { IfOk result (λ text. string_bytes text ≡ texts_json (map part_text (covered (map part_of headers.now)))) }
{
    match headers {
        [] => list_text(alloc, &Header::Created, &[]),
        [first, later @ ..] => list_text(alloc, first, later),
    }
}

fn request_lines(
    alloc: Global,
    name: &str,
    algorithm: SignatureAlgorithm,
    signature: &HttpSignature,
) -> Result<String, AllocError>
    ensures { IfOk result (λ text. string_bytes text ≡ request_text name.now algorithm (reading_of signature.now)) }
{
    let name = json_text_of(alloc, name)?;
    let algorithm = algorithm.word();
    let parts = parts_text(alloc, &signature.headers)?;
    let created = number_text(alloc, signature.created)?;
    let expires = number_text(alloc, signature.expires)?;
    format!(in alloc; "admitted {name}\nrequest {algorithm} {parts} {created} {expires}\n")
}

/// The two lines of what was admitted.
pub fn admitted_lines(alloc: Global, admitted: &Admitted) -> Result<String, AllocError>
    requires { IsPrintable (admission_of admitted.now) }
    ensures { IfOk result (λ text. string_bytes text ≡ admitted_text (admission_of admitted.now)) }
{
    match admitted {
        Admitted::Token {
            name,
            header,
            claims,
        } => token_lines(alloc, name.0.as_str(), header.alg, claims),
        Admitted::Request {
            name,
            algorithm,
            signature,
        } => request_lines(alloc, name.0.as_str(), *algorithm, signature),
    }
}

// The code of an error; none of want of memory, which prints nothing.
fn jws_code(error: &JwsError) -> Result<&'static str, AllocError>
    ensures { IfOk result (λ code. IsSomeAnd (jws_fault error.now) (λ fault. code.now ≡ jws_text fault)) }
{
    match error {
        JwsError::Json => Ok("Jws.Json"),
        JwsError::Signature { .. } => Ok("Jws.Signature"),
        JwsError::InvalidEncoding { .. } => Ok("Jws.InvalidEncoding"),
        JwsError::Base64Decoding => Ok("Jws.Base64Decoding"),
        JwsError::Float => Ok("Jws.Float"),
        JwsError::OutOfMemory => Err(AllocError),
    }
}

fn jwt_code(error: &JwtError) -> Result<&'static str, AllocError>
    ensures { IfOk result (λ code. IsSomeAnd (jwt_fault error.now) (λ fault. code.now ≡ jwt_text fault)) }
{
    match error {
        JwtError::Jws { source } => jws_code(source),
        JwtError::Json => Ok("Jwt.Json"),
        JwtError::InvalidRegisteredClaimType { .. } => Ok("Jwt.InvalidRegisteredClaimType"),
        JwtError::RequiredClaimMissing { .. } => Ok("Jwt.RequiredClaimMissing"),
        JwtError::NotYetValid { .. } => Ok("Jwt.NotYetValid"),
        JwtError::Expired { .. } => Ok("Jwt.Expired"),
        JwtError::InvalidValidator { .. } => Ok("Jwt.InvalidValidator"),
        JwtError::Float => Ok("Jwt.Float"),
        JwtError::OutOfMemory => Err(AllocError),
    }
}

fn http_code(error: &HttpSignatureError) -> Result<&'static str, AllocError>
    ensures { IfOk result (λ code. IsSomeAnd (http_fault error.now) (λ fault. code.now ≡ http_text fault)) }
{
    match error {
        HttpSignatureError::Base64Decoding => Ok("Http.Base64Decoding"),
        HttpSignatureError::NotYetValid { .. } => Ok("Http.NotYetValid"),
        HttpSignatureError::Expired { .. } => Ok("Http.Expired"),
        HttpSignatureError::Signature { .. } => Ok("Http.Signature"),
        HttpSignatureError::SigningStringGeneration { source } => line_code(source),
        HttpSignatureError::InvalidSigningString { .. } => Ok("Http.InvalidSigningString"),
        HttpSignatureError::MissingBuilderArgument { .. } => Ok("Http.MissingBuilderArgument"),
        HttpSignatureError::BuilderEmptyHeaders => Ok("Http.BuilderEmptyHeaders"),
        HttpSignatureError::BuilderHeadersProvidedWithPreGenerated => {
            Ok("Http.BuilderHeadersProvidedWithPreGenerated")
        }
        HttpSignatureError::MissingRequiredParameter { .. } => {
            Ok("Http.MissingRequiredParameter")
        }
        HttpSignatureError::InvalidParameter { .. } => Ok("Http.InvalidParameter"),
        HttpSignatureError::IncompatibleAlgorithm { .. } => Ok("Http.IncompatibleAlgorithm"),
        HttpSignatureError::OutOfMemory => Err(AllocError),
    }
}

fn line_code(error: &HttpRequestError) -> Result<&'static str, AllocError>
    ensures { IfOk result (λ code. IsSomeAnd (request_fault error.now) (λ fault. code.now ≡ http_text (no_line fault))) }
{
    match error {
        HttpRequestError::OutOfMemory => Err(AllocError),
        _ => Ok("Http.SigningStringGeneration"),
    }
}

fn refusal_code(refusal: &Refusal) -> Result<&'static str, AllocError>
    ensures { IfOk result (λ code. IsSomeAnd (cause_of refusal.now) (λ cause. code.now ≡ cause_text cause)) }
{
    match refusal {
        Refusal::NoScheme => Ok("NoScheme"),
        Refusal::NoKey => Ok("NoKey"),
        Refusal::Http(error) => http_code(error),
        Refusal::Token(error) => jwt_code(error),
        Refusal::OutOfMemory => Err(AllocError),
        Refusal::Unbuilt => Ok("Unbuilt"),
    }
}

fn refused_line(alloc: Global, refusal: &Refusal) -> Result<String, AllocError>
    ensures { IfOk result (λ text. IsSomeAnd (cause_of refusal.now) (λ cause. string_bytes text ≡ why_text (refused cause))) }
{
    let code = refusal_code(refusal)?;
    format!(in alloc; "refused {code}\n")
}

fn jwk_code(error: &JwkError) -> Result<&'static str, AllocError>
    ensures { IfOk result (λ code. IsSomeAnd (jwk_fault error.now) (λ fault. code.now ≡ jwk_text fault)) }
{
    match error {
        JwkError::Json => Ok("Jwk.Json"),
        JwkError::Base64Decoding => Ok("Jwk.Base64Decoding"),
        JwkError::UnsupportedAlgorithm { .. } => Ok("Jwk.UnsupportedAlgorithm"),
        JwkError::InvalidEcPublicKey { .. } => Ok("Jwk.InvalidEcPublicKey"),
        JwkError::InvalidEcPointCoordinates => Ok("Jwk.InvalidEcPointCoordinates"),
        JwkError::InvalidEdPublicKey { .. } => Ok("Jwk.InvalidEdPublicKey"),
        JwkError::OutOfMemory => Err(AllocError),
    }
}

fn keys_code(fault: &KeysFault) -> Result<&'static str, AllocError>
    ensures { IfOk result (λ code. IsSomeAnd (keys_fault fault.now) (λ refusal. code.now ≡ keys_text refusal)) }
{
    match fault {
        KeysFault::Jwk(error) => jwk_code(error),
        KeysFault::AlgorithmFamily { .. } => Ok("AlgorithmFamily"),
        KeysFault::DuplicateName { .. } => Ok("DuplicateName"),
        KeysFault::OutOfMemory => Err(AllocError),
    }
}

fn keys_line(alloc: Global, document: Document, fault: &KeysFault) -> Result<String, AllocError>
    ensures { IfOk result (λ text. IsSomeAnd (keys_fault fault.now) (λ refusal. string_bytes text ≡ why_text (bad document (of_keys refusal)))) }
{
    let name = document_name(document);
    let code = keys_code(fault)?;
    format!(in alloc; "bad {name} {code}\n")
}

fn bad_line(alloc: Global, document: Document, fault: &DocumentFault) -> Result<String, AllocError>
    ensures { IfOk result (λ text. IsSomeAnd (flaw_of fault.now) (λ flaw. string_bytes text ≡ why_text (bad document flaw))) }
{
    let name = document_name(document);
    match fault {
        DocumentFault::TooLong => format!(in alloc; "bad {name} TooLong\n"),
        DocumentFault::Utf8 => format!(in alloc; "bad {name} Utf8\n"),
        DocumentFault::Keys(fault) => keys_line(alloc, document, fault),
        DocumentFault::Records(RecordFault::BadLine { line }) => {
            format!(in alloc; "bad {name} BadLine {line}\n")
        }
        DocumentFault::Records(RecordFault::Family { line }) => {
            format!(in alloc; "bad {name} Family {line}\n")
        }
        DocumentFault::Records(RecordFault::Conflict { line }) => {
            format!(in alloc; "bad {name} Conflict {line}\n")
        }
        DocumentFault::Head(HeadFault::BadHead) => format!(in alloc; "bad {name} BadHead\n"),
        DocumentFault::Records(RecordFault::OutOfMemory)
        | DocumentFault::Head(HeadFault::OutOfMemory)
        | DocumentFault::OutOfMemory => Err(AllocError),
    }
}

/// The status and the line of a fault.
pub fn fault_line(alloc: Global, fault: &Fault) -> Result<(u8, String), AllocError>
    ensures { IfOk result (λ r. IsSomeAnd (why_of fault.now) (λ why. (r.0 ≡ why_status why) × (string_bytes r.1 ≡ why_text why))) }
{
    match fault {
        Fault::Refused(refusal) => {
            let line = refused_line(alloc, refusal)?;
            Ok((1, line))
        }
        Fault::Bad { document, fault } => {
            let line = bad_line(alloc, *document, fault)?;
            Ok((4, line))
        }
    }
}
