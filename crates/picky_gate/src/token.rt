// Whether a token is admitted.
ghost use Rattle.std.specs.Prelude.{◌≡◌, Some, string_bytes};
ghost use Rattle.serde_json.specs.View.{view};
ghost use Rattle.picky_contract.specs.Refusals.{Meets, Finds};
ghost use Rattle.picky_jose.specs.Claims.{claims_table};
ghost use Rattle.picky_jose.specs.Faults.{jwt_fault};
ghost use Rattle.picky_jose.specs.Refusals.{TokenReading, reading_of};
ghost use Rattle.picky_jose.specs.Views.{jws_content, text_of};
ghost use Rattle.picky_jws_header.specs.Views.{header_view};
ghost use Rattle.picky_gate.specs.Admissible.{IsKeyUnder};
ghost use Rattle.picky_gate.specs.Refusals.{cause_of, admission_of, bearer_table, signed_token_table, judged_table, claimed_table};
ghost use Rattle.picky_gate.specs.Seen.{key_view};

use crate::scheme::dots;
use crate::{Admitted, KeyName, Policy, Refusal, Ring};
use picky_jose::{Jws, JwsHeader, JwtSig, JwtValidator, RawJws};
use picky_key::{KeyProvider, PublicKey, SignatureAlgorithm};
use std::alloc::Global;
use std::borrow::CowStr;

// The name, and the key and the algorithm with which signatures are checked under it.
pub fn key_named<'a, 'b>(
    ring: &'a Ring,
    name: &'b str,
) -> Option<(&'b str, &'a PublicKey, SignatureAlgorithm)>
    ensures { Finds key_view (IsKeyUnder ring.now (Some name.now)) result }
{
    let entry = ring.lookup(name)?;
    let (key, algorithm) = entry.verifying()?;
    Some((name, key, algorithm))
}

// What a header's `kid` names.
fn key_under<'a, 'b>(
    ring: &'a Ring,
    header: &'b JwsHeader,
) -> Option<(&'b str, &'a PublicKey, SignatureAlgorithm)>
    ensures { Finds key_view (IsKeyUnder ring.now (header_view header.now).kid) result }
{
    match &header.kid {
        Some(name) => key_named(ring, name.as_str()),
        None => None,
    }
}

// What a verified token comes to.
#[tactic(auto, unfolding(crate::specs::Refusals::claimed_table))]
fn claimed(
    alloc: Global,
    name: KeyName,
    jws: Jws,
    validator: &JwtValidator,
) -> Result<Admitted, Refusal>
    ensures { Meets admission_of cause_of result
        (claimed_table validator.now (string_bytes name.0) (jws_content jws).header (jws_content jws).payload) }
{
    match JwtSig::from(jws).validate(alloc, validator) {
        Ok(token) => Ok(Admitted::Token {
            name,
            header: token.header,
            claims: token.state.claims,
        }),
        Err(error) => Err(Refusal::from(error)),
    }
}

// What a token that was read comes to under its key.
#[tactic(auto, unfolding(crate::specs::Refusals::judged_table))]
fn judged<P: KeyProvider>(
    alloc: Global,
    token: RawJws<'_>,
    name: KeyName,
    key: &PublicKey,
    algorithm: SignatureAlgorithm,
    provider: &P,
    validator: &JwtValidator,
) -> Result<Admitted, Refusal>
    requires { TokenReading (reading_of token) (text_of token) }
    ensures { Meets admission_of cause_of result
        (judged_table (P.signs provider.now) validator.now (text_of token.entry) (reading_of token.entry) (record { name = string_bytes name.0; key = key.now; algorithm = algorithm })) }
{
    match token.verify_as_read(alloc, provider, key) {
        Ok(jws) => claimed(alloc, name, jws, validator),
        Err(error) => Err(Refusal::from(error)),
    }
}

// What a signed token comes to.
#[tactic(auto, unfolding(crate::specs::Refusals::signed_token_table))]
fn decide_signed<P: KeyProvider>(
    alloc: Global,
    text: &str,
    ring: &Ring,
    provider: &P,
    policy: &Policy,
) -> Result<Admitted, Refusal>
    ensures { Meets admission_of cause_of result
        (signed_token_table (P.signs provider.now) ring.now policy.entry.now text.now) }
{
    let token = match RawJws::decode(alloc, CowStr::Borrowed(text)) {
        Ok(token) => token,
        Err(error) => return Err(Refusal::from(error)),
    };
    let Some((name, key, algorithm)) = key_under(ring, &token.header) else {
        return Err(Refusal::NoKey);
    };
    let name = KeyName(String::from_str(alloc, name)?);
    let validator = &policy.validator;
    judged(alloc, token, name, key, algorithm, provider, validator)
}

/// What a token comes to, over the ring, by the provider and under the policy.
#[tactic(auto, unfolding(crate::specs::Refusals::bearer_table))]
pub fn decide_token<P: KeyProvider>(
    alloc: Global,
    text: &str,
    ring: &Ring,
    provider: &P,
    policy: &Policy,
) -> Result<Admitted, Refusal>
    ensures { Meets admission_of cause_of result
        (bearer_table (P.signs provider.now) ring.now policy.entry.now text.now) }
{
    if dots(text) >= 4 {
        return Err(Refusal::Unbuilt);
    }
    decide_signed(alloc, text, ring, provider, policy)
}
