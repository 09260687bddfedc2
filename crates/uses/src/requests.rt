// A request that is signed.
ghost use Rattle.std.specs.Prelude.{◌≡◌, None, IfOk, IfErr, OnOk};
ghost use Rattle.picky_contract.specs.Refusals.{OkOrMemory};
ghost use Rattle.picky_http.specs.Faults.{http_fault};
ghost use Rattle.picky_http.specs.Lines.{request_of};
ghost use Rattle.picky_http.specs.Reading.{Reading, HeaderReading, reading_of};
ghost use Rattle.uses.specs.Requests.{IsSignatureOf};

use picky_http::{HttpRequest, HttpSignature, HttpSignatureError};
use picky_key::{KeyProvider, PublicKey, SignatureAlgorithm};
use std::alloc::Global;

// Whether the signature is one of the request.
fn check<'x, P: KeyProvider, Q: HttpRequest>(
    alloc: Global,
    signature: &'x HttpSignature,
    provider: &P,
    key: &'x PublicKey,
    algorithm: SignatureAlgorithm,
    request: &'x Q,
    now: u64,
) -> Result<(), HttpSignatureError>
    ensures found { OnOk result (IsSignatureOf (P.signs provider.now) key.now algorithm now (request_of Q.answer Q.method Q.target request.now) (reading_of signature.now)) }
    ensures every { IsSignatureOf (P.signs provider.now) key.now algorithm now (request_of Q.answer Q.method Q.target request.now) (reading_of signature.now) → IfErr result (λ e. http_fault e ≡ None) }
{
    let mut verifier = signature.verifier();
    verifier.now(now);
    verifier.leeway(30);
    verifier.signature_method(key, algorithm);
    verifier.generate_signing_string_using_http_request(request);
    verifier.verify(alloc, provider)
}

/// The signature of a header text, where it is one of the request, under the key and the algorithm, at a moment in seconds that
/// its dates allow, 30 seconds aside.
pub fn signed_request<P: KeyProvider, Q: HttpRequest>(
    alloc: Global,
    text: &str,
    provider: &P,
    key: &PublicKey,
    algorithm: SignatureAlgorithm,
    request: &Q,
    now: u64,
) -> Result<HttpSignature, HttpSignatureError>
    ensures found { IfOk result (λ s. HeaderReading text.now (reading_of s) × IsSignatureOf (P.signs provider.now) key.now algorithm now (request_of Q.answer Q.method Q.target request.now) (reading_of s)) }
    ensures every { (r : Reading) → HeaderReading text.now r → IsSignatureOf (P.signs provider.now) key.now algorithm now (request_of Q.answer Q.method Q.target request.now) r → OkOrMemory reading_of http_fault result r }
{
    let signature = HttpSignature::from_str(alloc, text)?;
    check(alloc, &signature, provider, key, algorithm, request, now)?;
    Ok(signature)
}
