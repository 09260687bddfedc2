// Tokens with claims that are made (RFC 7519).
ghost use Rattle.std.specs.Prelude.{◌≡◌, ℕ, List, codes, Some, IfOk, string_bytes};
ghost use Rattle.picky_contract.specs.Refusals.{Meets, OkOrMemory, named};
ghost use Rattle.picky_json.specs.Tree.{Tree};
ghost use Rattle.picky_key_der.specs.declared.public.PublicKeyKind.{PublicKeyKind};
ghost use Rattle.picky_jws_header.specs.Header.{bare, in_order};
ghost use Rattle.picky_jws_header.specs.Views.{header_view};
ghost use Rattle.picky_jose.specs.Faults.{jwt_fault, jws};
ghost use Rattle.picky_jose.specs.Verified.{VerifiedContent};
ghost use Rattle.picky_jose.specs.Encoding.{content, as_written, encoding_table, SignedContent, HoldsOfClaims, claims_text_table, claims_encoding_table};

use crate::encode::{compact, token_of};
use crate::error::JwtError;
use crate::jwt::{CheckedJwtSig, CheckedState, Jwt, JwtSig};
use crate::to_claims::ToClaims;
use picky_json::has_float;
use picky_jwk_names::JwsAlg;
use picky_jws_header::JwsHeader;
use picky_key::{KeyProvider, PrivateKey};
use picky_members::nests_within;
use std::alloc::{AllocError, Global};

// How deep claims nest at most that are written.
const MAX_DEPTH: usize = 127;

impl<H, C> Jwt<H, CheckedState<C>> {
    /// The token with this header and these claims. Takes no memory.
    pub fn new_with_header(header: H, claims: C) -> Self
        ensures { result ≡ record { header = header; state = record { claims = claims } } }
    {
        Jwt {
            header,
            state: CheckedState { claims },
        }
    }
}

impl<C: Drop> CheckedJwtSig<C> {
    /// The token with these claims, whose header has this algorithm, `JWT` as `typ`, and no other member. Refused for want of
    /// memory alone.
    pub fn new(alloc: Global, alg: JwsAlg, claims: C) -> Result<Self, AllocError>
        ensures header { IfOk result (λ x. header_view x.header ≡ record (bare alg) { typ = Some (codes "JWT") }) }
        ensures claims { IfOk result (λ x. x.state.claims ≡ claims) }
    {
        let typ = String::from_str(alloc, "JWT")?;
        let mut header = JwsHeader::new(alloc, alg);
        header.typ = Some(typ);
        Ok(Jwt::new_with_header(header, claims))
    }

    /// The same, whose header has this content type, too.
    pub fn new_with_cty(
        alloc: Global,
        alg: JwsAlg,
        cty: &str,
        claims: C,
    ) -> Result<Self, AllocError>
        ensures header { IfOk result (λ x. header_view x.header ≡ record (bare alg) { typ = Some (codes "JWT"); cty = Some cty.now }) }
        ensures claims { IfOk result (λ x. x.state.claims ≡ claims) }
    {
        let typ = String::from_str(alloc, "JWT")?;
        let mut header = JwsHeader::new_with_cty(alloc, alg, cty)?;
        header.typ = Some(typ);
        Ok(Jwt::new_with_header(header, claims))
    }
}

impl<C: ToClaims> CheckedJwtSig<C> {
    ghost use Rattle.picky_jose.specs.Encoding.{IsClaimsToken};

    /// The token in compact serialization, signed with the private key, as `Jws::encode` has it; its payload is the compact JSON
    /// of the claims.
    ///
    /// In order: `Float` where a number of the claims is held as a float; `Json` where the claims nest more than 127 deep; `Jws` with
    /// the refusals of `Jws::encode`.
    pub fn encode<P: KeyProvider>(
        self,
        alloc: Global,
        provider: &P,
        private_key: &PrivateKey,
    ) -> Result<String, JwtError>
        ensures found { IfOk result (λ s. IsClaimsToken (P.sign_of provider.now private_key.now) (header_view self.header) (C.claims_tree self.state.claims) (string_bytes s)) }
        ensures every { (text : List ℕ) → IsClaimsToken (P.sign_of provider.now private_key.now) (header_view self.header) (C.claims_tree self.state.claims) text → OkOrMemory string_bytes jwt_fault result text }
        ensures first { Meets string_bytes jwt_fault result (claims_encoding_table (P.sign_of provider.now private_key.now) (header_view self.header) (C.claims_tree self.state.claims)) }
        ensures reads_back { IfOk result (λ s. HoldsOfClaims (SignedContent (P.sign_of provider.now private_key.now) (string_bytes s)) (in_order (header_view self.header)) (C.claims_tree self.state.claims)) }
        ensures verifies { IfOk result (λ s. (key : PublicKeyKind) → P.public_of provider.now private_key.now ≡ Some key → HoldsOfClaims (VerifiedContent (P.signs provider.now) key (string_bytes s)) (in_order (header_view self.header)) (C.claims_tree self.state.claims)) }
    {
        token_of_claims(
            alloc,
            &self.header,
            &self.state.claims,
            provider,
            private_key,
        )
    }
}

impl JwtSig {
    ghost use Rattle.picky_jose.specs.Views.{unchecked_content};
    ghost use Rattle.picky_jose.specs.Encoding.{IsToken};

    /// The token in compact serialization, signed with the private key, as `Jws::encode` makes it of the header and the payload.
    ///
    /// `Jws` with the refusals of `Jws::encode`.
    pub fn encode<P: KeyProvider>(
        self,
        alloc: Global,
        provider: &P,
        private_key: &PrivateKey,
    ) -> Result<String, JwtError>
        ensures found { IfOk result (λ s. IsToken (P.sign_of provider.now private_key.now) (unchecked_content self) (string_bytes s)) }
        ensures every { (text : List ℕ) → IsToken (P.sign_of provider.now private_key.now) (unchecked_content self) text → OkOrMemory string_bytes jwt_fault result text }
        ensures first { Meets string_bytes jwt_fault result (named jws (encoding_table (P.sign_of provider.now private_key.now) (unchecked_content self))) }
        ensures reads_back { IfOk result (λ s. SignedContent (P.sign_of provider.now private_key.now) (string_bytes s) (as_written (unchecked_content self))) }
        ensures verifies { IfOk result (λ s. (key : PublicKeyKind) → P.public_of provider.now private_key.now ≡ Some key → VerifiedContent (P.signs provider.now) key (string_bytes s) (as_written (unchecked_content self))) }
    {
        let payload = &self.state.payload;
        token_of_payload(alloc, &self.header, payload, provider, private_key)
    }
}

// The token of a header and a payload.
fn token_of_payload<P: KeyProvider>(
    alloc: Global,
    header: &JwsHeader,
    payload: &[u8],
    provider: &P,
    private_key: &PrivateKey,
) -> Result<String, JwtError>
    ensures first { Meets string_bytes jwt_fault result (named jws (encoding_table (P.sign_of provider.now private_key.now) (content (header_view header.now) payload.now))) }
    ensures reads_back { IfOk result (λ s. SignedContent (P.sign_of provider.now private_key.now) (string_bytes s) (as_written (content (header_view header.now) payload.now))) }
{
    let token = token_of(alloc, header, payload, provider, private_key)?;
    Ok(token)
}

// The text of claims.
#[tactic(auto, unfolding(crate::specs::Encoding::claims_text_table))]
fn claims_text<C: ToClaims>(alloc: Global, claims: &C) -> Result<String, JwtError>
    ensures first { Meets string_bytes jwt_fault result (claims_text_table (C.claims_tree claims.now)) }
    ensures reads_back { IfOk result (λ s. Tree (string_bytes s) (C.claims_tree claims.now)) }
{
    let tree = claims.to_claims(alloc)?;
    if has_float(&tree) {
        return Err(JwtError::Float);
    }
    if !nests_within(&tree, MAX_DEPTH) {
        return Err(JwtError::Json);
    }
    Ok(compact(alloc, &tree)?)
}

// The token of a header and claims.
#[tactic(auto, unfolding(crate::specs::Encoding::claims_encoding_table))]
fn token_of_claims<C: ToClaims, P: KeyProvider>(
    alloc: Global,
    header: &JwsHeader,
    claims: &C,
    provider: &P,
    private_key: &PrivateKey,
) -> Result<String, JwtError>
    ensures first { Meets string_bytes jwt_fault result (claims_encoding_table (P.sign_of provider.now private_key.now) (header_view header.now) (C.claims_tree claims.now)) }
    ensures reads_back { IfOk result (λ s. HoldsOfClaims (SignedContent (P.sign_of provider.now private_key.now) (string_bytes s)) (in_order (header_view header.now)) (C.claims_tree claims.now)) }
{
    let payload = claims_text(alloc, claims)?;
    token_of_payload(alloc, header, payload.as_bytes(), provider, private_key)
}
