// Tokens with claims (RFC 7519).
ghost use Rattle.std.specs.Prelude.{◌≡◌, IfOk};
ghost use Rattle.serde_json.specs.View.{view};
ghost use Rattle.picky_contract.specs.Refusals.{Meets, OkOrMemory, named};
ghost use Rattle.picky_jose.specs.Claims.{claims_table, told_table};
ghost use Rattle.picky_jose.specs.Faults.{jwt_fault, jws};

use crate::claims::NO_DATE;
use crate::date::JwtValidator;
use crate::error::JwtError;
use crate::from_claims::FromClaims;
use crate::jws::Jws;
use picky_json::{has_float, parse};
use picky_jws_header::JwsHeader;
use picky_key::{KeyProvider, PublicKey};
use serde_json::Value;
use std::alloc::Global;

/// A token: its header, and its claims or what they will be read from.
#[derive(Debug, Drop)]
pub struct Jwt<H, State> {
    pub header: H,
    pub state: State,
}

/// The claims of a token whose dates hold.
#[derive(Debug, Drop)]
pub struct CheckedState<C> {
    pub claims: C,
}

/// The payload of a token whose claims aren't checked.
#[derive(Debug, Drop)]
pub struct UncheckedState {
    pub(crate) payload: Vec<u8>,
}

/// A signed token whose claims aren't checked.
pub type JwtSig = Jwt<JwsHeader, UncheckedState>;

/// A signed token whose dates hold.
pub type CheckedJwtSig<C> = Jwt<JwsHeader, CheckedState<C>>;

impl From<Jws> for JwtSig {
    ghost use Rattle.picky_jose.specs.Views.{jws_content, unchecked_content};

    ghost from_gives = { λ jws jwt. unchecked_content jwt ≡ jws_content jws };

    fn from(jws: Jws) -> JwtSig {
        Jwt {
            header: jws.header,
            state: UncheckedState {
                payload: jws.payload,
            },
        }
    }
}

impl JwtSig {
    ghost use Rattle.picky_jose.specs.Views.{Content, unchecked_content};
    ghost use Rattle.picky_jose.specs.Verified.{VerifiedContent, verified_table};

    /// The token that the text spells, where its signature holds, as `Jws::decode` reads it.
    ///
    /// `Jws` with the refusal of `Jws::decode`.
    pub fn decode<P: KeyProvider>(
        alloc: Global,
        encoded_token: &str,
        provider: &P,
        public_key: &PublicKey,
    ) -> Result<Self, JwtError>
        ensures found { IfOk result (λ x. VerifiedContent (P.signs provider.now) public_key.now encoded_token.now (unchecked_content x)) }
        ensures every { (x : Content) → VerifiedContent (P.signs provider.now) public_key.now encoded_token.now x → OkOrMemory unchecked_content jwt_fault result x }
        ensures first { Meets unchecked_content jwt_fault result (named jws (verified_table (P.signs provider.now) public_key.now encoded_token.now)) }
    {
        JwtSig::read_verified(alloc, encoded_token, provider, public_key)
    }

    fn read_verified<P: KeyProvider>(
        alloc: Global,
        encoded_token: &str,
        provider: &P,
        public_key: &PublicKey,
    ) -> Result<Self, JwtError>
        ensures { Meets unchecked_content jwt_fault result (named jws (verified_table (P.signs provider.now) public_key.now encoded_token.now)) }
    {
        let token = Jws::decode(alloc, encoded_token, provider, public_key)?;
        Ok(JwtSig::from(token))
    }
}

impl<H: Drop> Jwt<H, UncheckedState> {
    ghost use Rattle.picky_jose.specs.Views.{payload_of};
    ghost use Rattle.picky_jose.specs.Claims.{ClaimsOf, told_table};

    /// The token with its claims read and their dates checked: the payload has a float-free tree, whose dates meet the
    /// validator as `JwtValidator::check_dates` has it, and the claims are what the type reads that tree as. The payload is
    /// parsed once.
    ///
    /// In order: `InvalidValidator` where a claim is required and there is no date; `Json` where the payload
    /// isn't JSON; `Float` where a number of it is held as a float; then the refusals of the dates; `Json` where the tree
    /// tells no value of the type.
    pub fn validate<C: FromClaims>(
        self,
        alloc: Global,
        validator: &JwtValidator,
    ) -> Result<Jwt<H, CheckedState<C>>, JwtError>
        ensures found { IfOk result (λ x. ClaimsOf C.TellsClaims validator.now (payload_of self) (C.claims_view x.state.claims)) }
        ensures every { (c : C.Claims) → ClaimsOf C.TellsClaims validator.now (payload_of self) c → OkOrMemory (λ x. C.claims_view x.state.claims) jwt_fault result c }
        ensures first { Meets (λ x. C.claims_view x.state.claims) jwt_fault result (told_table C.TellsClaims validator.now (payload_of self)) }
        ensures header { IfOk result (λ x. x.header ≡ self.header) }
    {
        self.told(alloc, validator)
    }

    fn told<C: FromClaims>(
        self,
        alloc: Global,
        validator: &JwtValidator,
    ) -> Result<Jwt<H, CheckedState<C>>, JwtError>
        ensures first { Meets (λ x. C.claims_view x.state.claims) jwt_fault result (told_table C.TellsClaims validator.now (payload_of self)) }
        ensures header { IfOk result (λ x. x.header ≡ self.header) }
    {
        let claims = told_claims(alloc, validator, &self.state.payload)?;
        Ok(Jwt {
            header: self.header,
            state: CheckedState { claims },
        })
    }
}

// What a type reads the claims of a payload as, where their dates hold.
#[tactic(auto, unfolding(crate::specs::Claims::told_table))]
fn told_claims<C: FromClaims>(
    alloc: Global,
    validator: &JwtValidator,
    payload: &[u8],
) -> Result<C, JwtError>
    ensures { Meets C.claims_view jwt_fault result (told_table C.TellsClaims validator.now payload.now) }
{
    let claims = checked_claims(alloc, validator, payload)?;
    let Some(claims) = C::from_claims(alloc, claims)? else {
        return Err(JwtError::Json);
    };
    Ok(claims)
}

// The claims of a payload, where their dates hold.
#[tactic(auto, unfolding(crate::specs::Claims::claims_table))]
fn checked_claims(
    alloc: Global,
    validator: &JwtValidator,
    payload: &[u8],
) -> Result<Value, JwtError>
    ensures { Meets view jwt_fault result (claims_table validator.now payload.now) }
{
    if !validator.can_judge() {
        return Err(JwtError::InvalidValidator {
            description: NO_DATE,
        });
    }
    let Some(claims) = parse(alloc, payload)? else {
        return Err(JwtError::Json);
    };
    if has_float(&claims) {
        return Err(JwtError::Float);
    }
    validator.check_dates(&claims)?;
    Ok(claims)
}
