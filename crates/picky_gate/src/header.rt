// Whether a header text is admitted.
ghost use Rattle.std.specs.Prelude.{◌≡◌};
ghost use Rattle.picky_contract.specs.Refusals.{Meets};
ghost use Rattle.picky_http.specs.Faults.{http_fault};
ghost use Rattle.picky_http.specs.Lines.{request_of};
ghost use Rattle.picky_http.specs.Reading.{reading_of};
ghost use Rattle.picky_http.specs.Verifying.{checked_table};
ghost use Rattle.picky_http.specs.Verifying.{answers_of};
ghost use Rattle.picky_gate.specs.Refusals.{cause_of, admission_of, header_table};

use crate::token::key_named;
use crate::{Admitted, KeyName, Policy, Refusal, Ring};
use picky_http::{HttpSignature, HttpSignatureError};
use picky_http_request::HttpRequest;
use picky_key::{KeyProvider, PublicKey, SignatureAlgorithm};
use std::alloc::Global;

// Whether the signature holds under the key and the algorithm, over the request and under the policy.
fn check_header<'x, P: KeyProvider, Q: HttpRequest>(
    alloc: Global,
    signature: &'x HttpSignature,
    key: &'x PublicKey,
    algorithm: SignatureAlgorithm,
    request: &'x Q,
    provider: &P,
    policy: &Policy,
) -> Result<(), HttpSignatureError>
    ensures { Meets (λ u. u) http_fault result
        (checked_table (P.signs provider.now) key.now algorithm (answers_of (request_of Q.answer Q.method Q.target request.now)) policy.entry.now.now policy.entry.now.leeway (reading_of signature.now)) }
{
    let mut verifier = signature.verifier();
    verifier.signature_method(key, algorithm);
    verifier.generate_signing_string_using_http_request(request);
    verifier.leeway(policy.leeway);
    match policy.now {
        Some(now) => {
            verifier.now(now);
            verifier.verify(alloc, provider)
        }
        None => verifier.verify(alloc, provider),
    }
}

/// What a header text comes to, over the request and the ring, by the provider and under the policy.
#[tactic(auto, unfolding(crate::specs::Refusals::header_table))]
pub fn decide_header<P: KeyProvider, Q: HttpRequest>(
    alloc: Global,
    text: &str,
    request: &Q,
    ring: &Ring,
    provider: &P,
    policy: &Policy,
) -> Result<Admitted, Refusal>
    ensures { Meets admission_of cause_of result
        (header_table (P.signs provider.now) ring.now policy.entry.now (request_of Q.answer Q.method Q.target request.now) text.now) }
{
    let signature = match HttpSignature::from_str(alloc, text) {
        Ok(signature) => signature,
        Err(error) => return Err(Refusal::from(error)),
    };
    let Some((name, key, algorithm)) = key_named(ring, &signature.key_id) else {
        return Err(Refusal::NoKey);
    };
    if let Err(error) = check_header(alloc, &signature, key, algorithm, request, provider, policy) {
        return Err(Refusal::from(error));
    }
    let name = KeyName(String::from_str(alloc, name)?);
    Ok(Admitted::Request {
        name,
        algorithm,
        signature,
    })
}
