// Whether a text is signed.
ghost use Rattle.std.specs.Prelude.{◌≡◌, ◌<◌, ◌^◌, IfOk};
ghost use Rattle.picky_contract.specs.Refusals.{Meets};
ghost use Rattle.picky_key_der.specs.Ecdsa.{ecdsa_pair, pair_value};
ghost use Rattle.picky_key.specs.Signatures.{own_fault, vouched_table};
ghost use Rattle.picky_jose.specs.Faults.{jws_fault};
ghost use Rattle.picky_jose.specs.Signatures.{asked_by as asked_of, pair_table, asked_table, vouched_rows, signed_table, EndsWith};

use crate::cut::halves_of;
use crate::error::JwsError;
use picky_base64::Form;
use picky_der::{DerError, to_vec};
use picky_jwk_names::JwsAlg;
use picky_key::{
    EcCurve, EcdsaSignatureValue, HashAlgorithm, KeyProvider, ProviderFault, PublicKey,
    SignatureAlgorithm, SignatureError,
};
use std::alloc::{AllocError, Global};

// What a name asks of a provider.
#[derive(Clone, Copy, Debug)]
pub(crate) enum Asked {
    // Nothing: the name has no signature algorithm.
    Nothing,
    // The signature as it stands, under this algorithm.
    Plain(SignatureAlgorithm),
    // The pair of the two numbers of a signature, each of the size of the curve's field, under ECDSA with this hash.
    Pair(HashAlgorithm, EcCurve),
}

pub(crate) fn asked_by(alg: JwsAlg) -> Asked
    ensures { result ≡ asked_of alg }
{
    match alg {
        JwsAlg::RS256 => Asked::Plain(SignatureAlgorithm::RsaPkcs1v15(HashAlgorithm::SHA2_256)),
        JwsAlg::RS384 => Asked::Plain(SignatureAlgorithm::RsaPkcs1v15(HashAlgorithm::SHA2_384)),
        JwsAlg::RS512 => Asked::Plain(SignatureAlgorithm::RsaPkcs1v15(HashAlgorithm::SHA2_512)),
        JwsAlg::ES256 => Asked::Pair(HashAlgorithm::SHA2_256, EcCurve::NistP256),
        JwsAlg::ES384 => Asked::Pair(HashAlgorithm::SHA2_384, EcCurve::NistP384),
        JwsAlg::ES512 => Asked::Pair(HashAlgorithm::SHA2_512, EcCurve::NistP521),
        JwsAlg::EdDSA | JwsAlg::ED25519 => Asked::Plain(SignatureAlgorithm::Ed25519),
        _ => Asked::Nothing,
    }
}

// The DER of a pair of numbers in their shortest spellings.
fn der_of(alloc: Global, pair: &EcdsaSignatureValue) -> Result<Vec<u8>, AllocError>
    requires { ¬ (ecdsa_pair.Refused (pair_value pair.now)) }
    ensures { IfOk result (λ v. v.items ≡ ecdsa_pair.encoding (pair_value pair.now)) }
{
    match to_vec(alloc, pair) {
        Ok(bytes) => Ok(bytes),
        Err(error) => match error {
            DerError::OutOfMemory => Err(AllocError),
            _ => unreachable!(),
        },
    }
}

// The DER of the pair whose numbers are the two halves, each of this size in bytes.
fn pair_der(alloc: Global, size: usize, signature: &[u8]) -> Result<Vec<u8>, SignatureError>
    requires some { 0 < size }
    requires few { size < 2 ^ 63 }
    ensures { Meets (λ v. v.items) own_fault result (pair_table size signature.now) }
{
    match EcdsaSignatureValue::from_fixed(alloc, signature, size) {
        Ok(pair) => {
            let bytes = der_of(alloc, &pair)?;
            Ok(bytes)
        }
        Err(error) => Err(error),
    }
}

// Whether the provider's relation holds.
fn vouch_for<P: KeyProvider>(
    alloc: Global,
    provider: &P,
    public_key: &PublicKey,
    algorithm: SignatureAlgorithm,
    signed: &[u8],
    signature: &[u8],
) -> Result<(), SignatureError>
    ensures { Meets (λ u. u) own_fault result (vouched_table (P.signs provider.now) public_key.now algorithm signed.now signature.now) }
{
    match provider.verify(alloc, public_key, algorithm, signed, signature) {
        Ok(true) => Ok(()),
        Ok(false) => Err(SignatureError::BadSignature),
        Err(ProviderFault::OutOfMemory) => Err(SignatureError::OutOfMemory),
    }
}

// The same of the pair of the two halves of a signature.
#[tactic(auto, unfolding(crate::specs::Signatures::asked_table))]
fn vouch_for_pair<P: KeyProvider>(
    alloc: Global,
    provider: &P,
    public_key: &PublicKey,
    hash: HashAlgorithm,
    curve: EcCurve,
    signed: &[u8],
    signature: &[u8],
) -> Result<(), SignatureError>
    ensures { Meets (λ u. u) own_fault result (asked_table (P.signs provider.now) public_key.now (Asked.Pair hash curve) signed.now signature.now) }
{
    let pair = pair_der(alloc, curve.field_bytes_size(), signature)?;
    let algorithm = SignatureAlgorithm::Ecdsa(hash);
    vouch_for(alloc, provider, public_key, algorithm, signed, &pair)
}

// Whether the provider vouches for the signature.
#[tactic(auto, unfolding(crate::specs::Signatures::asked_table))]
fn vouch<P: KeyProvider>(
    alloc: Global,
    provider: &P,
    public_key: &PublicKey,
    asked: Asked,
    signed: &[u8],
    signature: &[u8],
) -> Result<(), SignatureError>
    ensures { Meets (λ u. u) own_fault result (asked_table (P.signs provider.now) public_key.now asked signed.now signature.now) }
{
    match asked {
        Asked::Nothing => Err(SignatureError::UnsupportedAlgorithm),
        Asked::Plain(algorithm) => vouch_for(
            alloc, provider, public_key, algorithm, signed, signature,
        ),
        Asked::Pair(hash, curve) => vouch_for_pair(
            alloc, provider, public_key, hash, curve, signed, signature,
        ),
    }
}

// Whether the provider vouches for the signature, under a name.
fn check_vouched<P: KeyProvider>(
    alloc: Global,
    provider: &P,
    public_key: &PublicKey,
    alg: JwsAlg,
    signed: &[u8],
    signature: &[u8],
) -> Result<(), JwsError>
    ensures { Meets (λ u. u) jws_fault result (vouched_rows (P.signs provider.now) public_key.now alg signed.now signature.now) }
{
    let asked = asked_by(alg);
    match vouch(alloc, provider, public_key, asked, signed, signature) {
        Ok(()) => Ok(()),
        Err(source) => Err(JwsError::from(source)),
    }
}

/// Verifies the signature of a text, under a name of a JWS algorithm (RFC 7515, section 5.2): the provider's relation holds of the
/// key, the name's algorithm, the bytes of the text before its last dot as they stand, and what the text after it spells, or for
/// `ES256`, `ES384`, `ES512` the DER of the pair of its two halves of 32, 48, 66 bytes (RFC 7518, section 3.4). The text needn't be a
/// token, and no header is looked at.
///
/// In order: `InvalidEncoding` where the text has no dot or ends with one; `Base64Decoding` where the text after its last dot isn't
/// strict; `Signature` with `UnsupportedAlgorithm` for a name without a signature algorithm, with `Ec` where an ECDSA signature
/// hasn't the 64, 96 or 132 bytes of its name, with `BadSignature` where the relation doesn't hold.
#[tactic(auto, unfolding(crate::specs::Signatures::signed_table))]
pub fn verify_signature<P: KeyProvider>(
    alloc: Global,
    encoded_token: &str,
    provider: &P,
    public_key: &PublicKey,
    algorithm: JwsAlg,
) -> Result<(), JwsError>
    ensures { Meets (λ u. u) jws_fault result (signed_table (P.signs provider.now) public_key.now algorithm encoded_token.now) }
{
    let Some((signed, signature)) = halves_of(encoded_token) else {
        let input = String::from_str(alloc, encoded_token)?;
        return Err(JwsError::InvalidEncoding { input });
    };
    let Some(signature) = picky_base64::decode(alloc, Form::Url, signature)? else {
        return Err(JwsError::Base64Decoding);
    };
    let message = signed.as_bytes();
    check_vouched(alloc, provider, public_key, algorithm, message, &signature)
}

// The same of a text whose signature is decoded already.
pub(crate) fn check_decoded<P: KeyProvider>(
    alloc: Global,
    provider: &P,
    public_key: &PublicKey,
    alg: JwsAlg,
    token: &str,
    signature: &[u8],
) -> Result<(), JwsError>
    requires { EndsWith token.now signature.now }
    ensures { Meets (λ u. u) jws_fault result (signed_table (P.signs provider.now) public_key.now alg token.now) }
{
    let Some((signed, _)) = halves_of(token) else {
        unreachable!();
    };
    check_vouched(
        alloc,
        provider,
        public_key,
        alg,
        signed.as_bytes(),
        signature,
    )
}
