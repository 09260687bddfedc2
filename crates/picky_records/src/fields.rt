// What the fields of a line spell.
ghost use Rattle.std.specs.Prelude.{◌≡◌, ◌↔◌, IsTrue, IfOk, None};
ghost use Rattle.picky_contract.specs.Refusals.{Finds, Meets, the};
ghost use Rattle.picky_base64.specs.Base64.{B64};
ghost use Rattle.picky_base64.specs.declared.Form.TheVariants.{Url};
ghost use Rattle.picky_der.specs.Form.{whole};
ghost use Rattle.picky_key_der.specs.Ecdsa.{ecdsa_pair};
ghost use Rattle.picky_key_der.specs.Errors.{key_fault};
ghost use Rattle.picky_key.specs.SignatureForms.{at_least_zero, fits_field, is_number_for, is_pair_for, is_signature_for};
ghost use Rattle.picky_records.specs.declared.error.RecordFault.TheVariants.{BadLine};
ghost use Rattle.picky_records.specs.Reading.{fault, IsSpki, IsPkcs8, public_field, private_field};

use crate::RecordFault;
use picky_asn1_bits::IntegerAsn1;
use picky_base64::Form;
use picky_contract::Bytes;
use picky_der::{DerError, from_bytes};
use picky_key::{
    EcdsaSignatureValue, KeyError, NamedEcCurve, PrivateKey, PublicKey, PublicKeyKind,
    SignatureAlgorithm,
};
use std::alloc::{AllocError, Global};

// The bytes that a field spells.
pub(crate) fn bytes_of(alloc: Global, number: u64, text: &str) -> Result<Bytes, RecordFault>
    ensures { Meets (λ b. b) fault result (the (B64 Url text.now) (BadLine number)) }
{
    match picky_base64::decode(alloc, Form::Url, text)? {
        Some(bytes) => Ok(Bytes::new(bytes)),
        None => Err(RecordFault::BadLine { line: number }),
    }
}

// Whether the error is want of memory.
fn is_memory(error: &KeyError) -> bool
    ensures { IsTrue result ↔ (key_fault error.now ≡ None) }
{
    matches!(error, KeyError::OutOfMemory)
}

// The public key with this information.
fn public_in(alloc: Global, bytes: &[u8]) -> Result<Option<PublicKey>, AllocError>
    ensures { IfOk result (Finds (λ k. k) (IsSpki bytes.now)) }
{
    match PublicKey::from_der(alloc, bytes) {
        Ok(key) => Ok(Some(key)),
        Err(error) => {
            if is_memory(&error) {
                return Err(AllocError);
            }
            Ok(None)
        }
    }
}

// The private key with this PKCS #8.
fn private_in(alloc: Global, bytes: &[u8]) -> Result<Option<PrivateKey>, AllocError>
    ensures { IfOk result (Finds (λ k. k) (IsPkcs8 bytes.now)) }
{
    match PrivateKey::from_pkcs8(alloc, bytes) {
        Ok(key) => Ok(Some(key)),
        Err(error) => {
            if is_memory(&error) {
                return Err(AllocError);
            }
            Ok(None)
        }
    }
}

// The public key that a field spells.
#[tactic(auto, unfolding(crate::specs::Reading::public_field))]
pub(crate) fn public_of(alloc: Global, number: u64, text: &str) -> Result<PublicKey, RecordFault>
    ensures { Meets (λ k. k) fault result (public_field number text.now) }
{
    let bytes = bytes_of(alloc, number, text)?;
    match public_in(alloc, bytes.as_slice())? {
        Some(key) => Ok(key),
        None => Err(RecordFault::BadLine { line: number }),
    }
}

// The private key that a field spells.
#[tactic(auto, unfolding(crate::specs::Reading::private_field))]
pub(crate) fn private_of(alloc: Global, number: u64, text: &str) -> Result<PrivateKey, RecordFault>
    ensures { Meets (λ k. k) fault result (private_field number text.now) }
{
    let bytes = bytes_of(alloc, number, text)?;
    match private_in(alloc, bytes.as_slice())? {
        Some(key) => Ok(key),
        None => Err(RecordFault::BadLine { line: number }),
    }
}

// Whether the number is at least zero.
fn at_least_zero(number: &IntegerAsn1) -> bool
    ensures { result ≡ at_least_zero number.now.0 }
{
    match number.0.as_slice() {
        [first, ..] => *first < 128,
        [] => true,
    }
}

// Whether the number fits the key's field, where it is on a known curve.
fn fits_field(key: &PublicKey, number: &IntegerAsn1) -> bool
    ensures { result ≡ fits_field key.now number.now.0 }
{
    match key.kind() {
        PublicKeyKind::Ec {
            curve: NamedEcCurve::Known(curve),
            ..
        } => number.as_unsigned_bytes_be().len() <= curve.field_bytes_size(),
        _ => true,
    }
}

// Whether the number is at least zero and fits the key's field.
fn is_number_for(key: &PublicKey, number: &IntegerAsn1) -> bool
    ensures { result ≡ is_number_for key.now number.now.0 }
{
    at_least_zero(number) && fits_field(key, number)
}

// Whether the bytes are the DER of a pair of such numbers.
fn is_pair_for(alloc: Global, key: &PublicKey, bytes: &[u8]) -> Result<bool, AllocError>
    ensures { IfOk result (λ b. b ≡ is_pair_for key.now (whole ecdsa_pair.reading bytes.now)) }
{
    let pair: EcdsaSignatureValue = match from_bytes(alloc, bytes) {
        Ok(pair) => pair,
        Err(DerError::OutOfMemory) => return Err(AllocError),
        Err(_) => return Ok(false),
    };
    Ok(is_number_for(key, &pair.r) && is_number_for(key, &pair.s))
}

// Whether the bytes can be a signature of the algorithm under the key.
pub(crate) fn is_signature_for(
    alloc: Global,
    algorithm: SignatureAlgorithm,
    key: &PublicKey,
    bytes: &[u8],
) -> Result<bool, AllocError>
    ensures { IfOk result (λ b. b ≡ is_signature_for algorithm key.now bytes.now) }
{
    if bytes.is_empty() {
        return Ok(false);
    }
    match algorithm {
        SignatureAlgorithm::Ecdsa(_) => is_pair_for(alloc, key, bytes),
        _ => Ok(true),
    }
}
