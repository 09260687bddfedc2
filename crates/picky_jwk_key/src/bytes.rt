// Bytes of texts, and texts of bytes.
ghost use Rattle.std.specs.Prelude.{◌≡◌, ◌≤◌, length, IfOk, string_bytes};
ghost use Rattle.picky_asn1_bits.specs.Integer.{unsigned_spelling, some_bytes};
ghost use Rattle.picky_base64.specs.Base64.{encoding};
ghost use Rattle.picky_base64.specs.declared.Form.TheVariants.{Url};
ghost use Rattle.picky_contract.specs.Refusals.{Meets};
ghost use Rattle.picky_der.specs.Length.{without_zeros};
ghost use Rattle.picky_key_der.specs.Ecdsa.{padded};
ghost use Rattle.picky_key_der.specs.Public.{field_size as size_of_field};
ghost use Rattle.picky_jwk_key.specs.Keys.{curve_of};
ghost use Rattle.picky_jwk_key.specs.Refusals.{fault, bytes_table, signed_table, with_sign};
ghost use Rattle.picky_jwk_key.specs.Made.{without_zero, in_field};

use crate::convert::known_curve;
use crate::error::JwkError;
use picky_asn1_bits::IntegerAsn1;
use picky_base64::Form;
use picky_jwk_names::JwkEcPublicKeyCurve;
use std::alloc::{AllocError, Global};

// The bytes that a text spells.
pub fn spelled(alloc: Global, text: &str) -> Result<Vec<u8>, JwkError>
    ensures { Meets (λ v. v.items) fault result (bytes_table text.now) }
{
    let Some(bytes) = picky_base64::decode(alloc, Form::Url, text)? else {
        return Err(JwkError::Base64Decoding);
    };
    Ok(bytes)
}

// The bytes, after a 00 where their top bit is set.
fn with_sign(bytes: Vec<u8>) -> Result<Vec<u8>, AllocError>
    ensures { IfOk result (λ v. v.items ≡ with_sign bytes.items) }
{
    let mut bytes = bytes;
    if let Some(first) = bytes.first()
        && *first >= 128
    {
        bytes.insert(0, 0)?;
    }
    Ok(bytes)
}

// The bytes that a text spells, after a 00 where their top bit is set.
#[tactic(auto, unfolding(crate::specs::Refusals::signed_table))]
pub fn signed(alloc: Global, text: &str) -> Result<Vec<u8>, JwkError>
    ensures { Meets (λ v. v.items) fault result (signed_table text.now) }
{
    let bytes = spelled(alloc, text)?;
    Ok(with_sign(bytes)?)
}

// The text of bytes.
pub fn of_bytes(alloc: Global, bytes: &[u8]) -> Result<String, AllocError>
    ensures { IfOk result (λ s. string_bytes s ≡ encoding Url bytes.now) }
{
    picky_base64::encode(alloc, Form::Url, bytes)
}

// The bytes without one leading 00 of a longer value.
pub fn without_zero(bytes: &[u8]) -> &[u8]
    ensures { result.now ≡ without_zero bytes.now }
{
    match bytes {
        [0, rest @ ..] if !rest.is_empty() => rest,
        _ => bytes,
    }
}

// The bytes without the 00 in front.
fn without_zeros(bytes: &[u8]) -> &[u8]
    ensures { result.now ≡ without_zeros bytes.now }
{
    match bytes {
        [0, rest @ ..] => without_zeros(rest),
        _ => bytes,
    }
}

// The number of the bytes in the size of the field, or as long as it is.
pub fn in_field(alloc: Global, size: usize, bytes: &[u8]) -> Result<Vec<u8>, AllocError>
    requires { size ≤ 66 }
    ensures { IfOk result (λ v. v.items ≡ in_field size bytes.now) }
{
    let number = without_zeros(bytes);
    let missing = size.saturating_sub(number.len());
    let mut out = vec![in alloc; 0u8; missing]?;
    out.extend_from_slice(number)?;
    Ok(out)
}

// The size of the field of a curve in bytes.
pub fn field_size(curve: JwkEcPublicKeyCurve) -> usize
    ensures value { result ≡ size_of_field (curve_of curve) }
    ensures small { result ≤ 66 }
{
    known_curve(curve).field_bytes_size()
}

// The number of big-endian bytes, in its shortest spelling; zero where there is no byte.
pub fn number(alloc: Global, bytes: Vec<u8>) -> Result<IntegerAsn1, AllocError>
    ensures { IfOk result (λ i. i.0 ≡ unsigned_spelling (some_bytes bytes.items)) }
{
    let mut bytes = bytes;
    if bytes.is_empty() {
        bytes.push(0)?;
    }
    IntegerAsn1::from_bytes_be_unsigned(alloc, bytes)
}
