// The signature that a key gives under a name.
ghost use Rattle.std.specs.Prelude.{◌<◌, length, IfOk, IsTrue};
ghost use Rattle.picky_contract.specs.Refusals.{Meets};
ghost use Rattle.picky_der.specs.Form.{whole};
ghost use Rattle.picky_key_der.specs.declared.public.PublicKeyKind.{PublicKeyKind};
ghost use Rattle.picky_key_der.specs.Ecdsa.{ecdsa_pair};
ghost use Rattle.picky_key.specs.Signatures.{own_fault};
ghost use Rattle.picky_key.specs.SignatureForms.{is_pair_for};
ghost use Rattle.picky_jose.specs.Faults.{jws_fault};
ghost use Rattle.picky_jose.specs.Signing.{IsPairOf, given_table, pair_form_table, asked_form_table, given_rows};

use crate::error::JwsError;
use crate::signature::{Asked, asked_by};
use picky_der::{DerError, from_bytes};
use picky_jwk_names::JwsAlg;
use picky_key::{
    EcCurve, EcdsaSignatureValue, HashAlgorithm, KeyProvider, PrivateKey, ProviderFault,
    SignatureAlgorithm, SignatureError,
};
use std::alloc::{AllocError, Global};

// The pair whose DER the bytes are.
fn pair_of(alloc: Global, der: &[u8]) -> Result<EcdsaSignatureValue, AllocError>
    requires { (key : PublicKeyKind) × IsTrue (is_pair_for key (whole ecdsa_pair.reading der.now)) }
    ensures { IfOk result (IsPairOf der.now) }
{
    match from_bytes(alloc, der) {
        Ok(pair) => Ok(pair),
        Err(DerError::OutOfMemory) => Err(AllocError),
        Err(_) => unreachable!(),
    }
}

// The two numbers of the pair whose DER the bytes are, each of this size.
fn pair_form(alloc: Global, size: usize, der: &[u8]) -> Result<Vec<u8>, SignatureError>
    requires { (key : PublicKeyKind) × IsTrue (is_pair_for key (whole ecdsa_pair.reading der.now)) }
    ensures { Meets (λ v. v.items) own_fault result (pair_form_table size der.now) }
{
    let pair = pair_of(alloc, der)?;
    pair.to_fixed(alloc, size)
}

// What signing gives.
fn given_by<P: KeyProvider>(
    alloc: Global,
    provider: &P,
    private_key: &PrivateKey,
    algorithm: SignatureAlgorithm,
    message: &[u8],
) -> Result<Vec<u8>, SignatureError>
    ensures { Meets (λ v. v.items) own_fault result (given_table (P.sign_of provider.now private_key.now) algorithm message.now) }
{
    match provider.sign(alloc, private_key, algorithm, message) {
        Ok(Some(signature)) => Ok(signature),
        Ok(None) => Err(SignatureError::NoSignature),
        Err(ProviderFault::OutOfMemory) => Err(SignatureError::OutOfMemory),
    }
}

// The two numbers of the pair whose DER signing gives.
#[tactic(auto, unfolding(crate::specs::Signing::asked_form_table))]
fn pair_given_by<P: KeyProvider>(
    alloc: Global,
    provider: &P,
    private_key: &PrivateKey,
    hash: HashAlgorithm,
    curve: EcCurve,
    message: &[u8],
) -> Result<Vec<u8>, SignatureError>
    ensures { Meets (λ v. v.items) own_fault result (asked_form_table (P.sign_of provider.now private_key.now) (Asked.Pair hash curve) message.now) }
{
    let algorithm = SignatureAlgorithm::Ecdsa(hash);
    let der = given_by(alloc, provider, private_key, algorithm, message)?;
    pair_form(alloc, curve.field_bytes_size(), &der)
}

// What is asked, of what signing gives.
#[tactic(auto, unfolding(crate::specs::Signing::asked_form_table))]
fn asked_given_by<P: KeyProvider>(
    alloc: Global,
    provider: &P,
    private_key: &PrivateKey,
    asked: Asked,
    message: &[u8],
) -> Result<Vec<u8>, SignatureError>
    ensures { Meets (λ v. v.items) own_fault result (asked_form_table (P.sign_of provider.now private_key.now) asked message.now) }
{
    match asked {
        Asked::Nothing => Err(SignatureError::UnsupportedAlgorithm),
        Asked::Plain(algorithm) => given_by(alloc, provider, private_key, algorithm, message),
        Asked::Pair(hash, curve) => {
            pair_given_by(alloc, provider, private_key, hash, curve, message)
        }
    }
}

// The signature of a message under a name.
pub(crate) fn signature_given_by<P: KeyProvider>(
    alloc: Global,
    provider: &P,
    private_key: &PrivateKey,
    alg: JwsAlg,
    message: &[u8],
) -> Result<Vec<u8>, JwsError>
    ensures first { Meets (λ v. v.items) jws_fault result (given_rows (P.sign_of provider.now private_key.now) alg message.now) }
    ensures some { IfOk result (λ v. 0 < length v.items) }
{
    match asked_given_by(alloc, provider, private_key, asked_by(alg), message) {
        Ok(signature) => Ok(signature),
        Err(source) => Err(JwsError::from(source)),
    }
}
