// Whether a text is admitted.
ghost use Rattle.std.specs.Prelude.{◌≡◌, IfOk};
ghost use Rattle.picky_contract.specs.Refusals.{Meets, OkOrMemory};
ghost use Rattle.picky_http.specs.Lines.{request_of};
ghost use Rattle.picky_gate.specs.Admissible.{Admission, Admissible};
ghost use Rattle.picky_gate.specs.Refusals.{cause_of, admission_of, admits_table};

use crate::header::decide_header;
use crate::scheme::{Scheme, scheme_of};
use crate::token::decide_token;
use crate::{KeyName, Policy, Ring};
use picky_http::{HttpSignature, HttpSignatureError};
use picky_http_request::HttpRequest;
use picky_jose::{JwsError, JwsHeader, JwtError};
use picky_key::{KeyProvider, SignatureAlgorithm};
use serde_json::Value;
use std::alloc::{AllocError, Global};
use thiserror::Error;

/// What was admitted.
#[derive(Debug, Drop)]
pub enum Admitted {
    /// A header text: the name of its key, the algorithm of the ring, and what the text says.
    Request {
        name: KeyName,
        algorithm: SignatureAlgorithm,
        signature: HttpSignature,
    },
    /// A signed token: the name of its key, its header and its claims.
    Token {
        name: KeyName,
        header: JwsHeader,
        claims: Value,
    },
}

/// Why a text isn't admitted.
#[derive(Debug, Drop, Error)]
pub enum Refusal {
    /// The text begins with neither scheme word.
    #[error("no such scheme")]
    NoScheme,
    /// The text names no key (a token without `kid`), the ring has nothing under its name, or what stands there
    /// checks no signatures.
    #[error("no such key")]
    NoKey,
    /// The header text is refused.
    #[error("the header text is refused")]
    Http(HttpSignatureError),
    /// The token is refused.
    #[error("the token is refused")]
    Token(JwtError),
    #[error("out of memory")]
    OutOfMemory,
    /// The text is an encrypted token, which isn't built yet.
    #[error("this form of text isn't built yet")]
    Unbuilt,
}

impl From<AllocError> for Refusal {
    ghost use Rattle.picky_gate.specs.declared.admission.Refusal.TheVariants.{OutOfMemory};

    ghost from_gives = { λ _ refusal. refusal ≡ OutOfMemory };

    fn from(_error: AllocError) -> Refusal {
        Refusal::OutOfMemory
    }
}

impl From<HttpSignatureError> for Refusal {
    ghost use Rattle.std.specs.Prelude.{◌≡◌, option_map};
    ghost use Rattle.picky_http.specs.Faults.{http_fault};
    ghost use Rattle.picky_gate.specs.Refusals.{cause_of, of_http};

    ghost from_gives = { λ error refusal. cause_of refusal ≡ option_map of_http (http_fault error) };

    #[tactic(auto, using(crate::proofs::Causes::http_held))]
    fn from(error: HttpSignatureError) -> Refusal {
        match error {
            HttpSignatureError::OutOfMemory => Refusal::OutOfMemory,
            error => Refusal::Http(error),
        }
    }
}

impl From<JwtError> for Refusal {
    ghost use Rattle.std.specs.Prelude.{◌≡◌, option_map};
    ghost use Rattle.picky_jose.specs.Faults.{jwt_fault};
    ghost use Rattle.picky_gate.specs.Refusals.{cause_of, of_token};

    ghost from_gives = { λ error refusal. cause_of refusal ≡ option_map of_token (jwt_fault error) };

    #[tactic(auto, using(crate::proofs::Causes::jwt_held))]
    fn from(error: JwtError) -> Refusal {
        match error {
            JwtError::OutOfMemory => Refusal::OutOfMemory,
            error => Refusal::Token(error),
        }
    }
}

impl From<JwsError> for Refusal {
    ghost use Rattle.std.specs.Prelude.{◌≡◌, option_map};
    ghost use Rattle.picky_jose.specs.Faults.{jws_fault};
    ghost use Rattle.picky_gate.specs.Refusals.{cause_of, of_jws};

    ghost from_gives = { λ error refusal. cause_of refusal ≡ option_map of_jws (jws_fault error) };

    #[tactic(auto, using(crate::proofs::Causes::jws_held))]
    fn from(error: JwsError) -> Refusal {
        match error {
            JwsError::OutOfMemory => Refusal::OutOfMemory,
            source => Refusal::Token(JwtError::Jws { source }),
        }
    }
}

// What a text comes to, by its kind.
fn decide<P: KeyProvider, Q: HttpRequest>(
    alloc: Global,
    authorization: &str,
    request: &Q,
    ring: &Ring,
    provider: &P,
    policy: &Policy,
) -> Result<Admitted, Refusal>
    ensures { Meets admission_of cause_of result
        (admits_table (P.signs provider.now) ring.now policy.entry.now (request_of Q.answer Q.method Q.target request.now) authorization.now) }
{
    let Some(scheme) = scheme_of(authorization) else {
        return Err(Refusal::NoScheme);
    };
    match scheme {
        Scheme::Token(text) => decide_token(alloc, text, ring, provider, policy),
        Scheme::Header(text) => decide_header(alloc, text, request, ring, provider, policy),
    }
}

/// Whether the text is admitted, over the request and the ring, by the provider and under the policy. A token doesn't
/// look at the request.
///
/// Refusals, the first condition that fails: `NoScheme` where the text begins with neither `Bearer ` nor
/// `Signature `.
///
/// Of a header text: `Http` of `InvalidParameter` for `created`, then `expires`; of `MissingRequiredParameter` for
/// `signature`, then `keyId`; `NoKey` where the key id names no entry with an algorithm; `Http` of
/// `IncompatibleAlgorithm` where a known algorithm isn't the entry's or not of its key's family; for `expires` of
/// `MissingBuilderArgument` without a moment, then of `Expired`; for `created` likewise, then of `NotYetValid`; for each
/// covered part, in order, of `MissingRequiredParameter` or `SigningStringGeneration`; of `Base64Decoding`; of
/// `Signature` where the provider's relation doesn't hold.
///
/// Of a token: `Unbuilt` where it is an encrypted one, which has four dots or more; `Token` of `Jws` of `InvalidEncoding` where it
/// isn't cut into three parts, the first and the last not empty; of `Base64Decoding` of the header; of `Json` where that isn't JSON, of
/// `Float` where a number of it is held as a float, of `Json` where it is no header; of `Base64Decoding` of the signature, then of
/// the payload; `NoKey` where its `kid` names no key with an algorithm; `Token` of `Jws` of `Signature` where its `alg` has
/// no signature algorithm, where an ECDSA signature hasn't the size of its name, then where the provider's relation doesn't hold; of
/// `InvalidValidator` where a date is required and the validator has none; of `Json` where the claims aren't JSON; of `Float`; and of the refusals
/// of `nbf`, then of `exp`: `RequiredClaimMissing`, `InvalidRegisteredClaimType`, then `NotYetValid` or `Expired`. `OutOfMemory`
/// may come instead.
pub fn admit<P: KeyProvider, Q: HttpRequest>(
    alloc: Global,
    authorization: &str,
    request: &Q,
    ring: &Ring,
    provider: &P,
    policy: &Policy,
) -> Result<Admitted, Refusal>
    // What is admitted is admissible.
    ensures found { IfOk result (λ a.
        Admissible (P.signs provider.now) ring.now policy.entry.now (request_of Q.answer Q.method Q.target request.now) authorization.now (admission_of a)) }

    // What is admissible is admitted, want of memory aside.
    ensures every { (a : Admission)
        → Admissible (P.signs provider.now) ring.now policy.entry.now (request_of Q.answer Q.method Q.target request.now) authorization.now a
        → OkOrMemory admission_of cause_of result a }

    // A refusal is that of the first condition that fails.
    ensures first { Meets admission_of cause_of result
        (admits_table (P.signs provider.now) ring.now policy.entry.now (request_of Q.answer Q.method Q.target request.now) authorization.now) }
{
    decide(alloc, authorization, request, ring, provider, policy)
}
