// Writing public keys.
ghost use Rattle.std.specs.Prelude.{◌≡◌, ◌≢◌, ◌%◌, ◌++◌, ◌∷◌, IfOk};
ghost use Rattle.picky_contract.specs.Refusals.{Meets};
ghost use Rattle.picky_der.specs.Length.{value_of};
ghost use Rattle.picky_key_der.specs.Errors.{key_fault};
ghost use Rattle.picky_key_der.specs.declared.algorithm.TheConstants as constants;
ghost use Rattle.picky_key_der.specs.Writing.{curve_contents, ed_contents, information_der, integer_table, rsa_bits_table, rsa_der_table, public_der_table};

use crate::algorithm::{
    EC_PUBLIC_KEY, ED25519_ALGORITHM, RSA_ENCRYPTION, SECP256R1, SECP384R1, SECP521R1,
    X25519_ALGORITHM,
};
use crate::{EcCurve, EdAlgorithm, KeyError, NamedEcCurve, PublicKeyKind};
use picky_asn1_bits::IntegerAsn1;
use picky_asn1_tag::Tag;
use picky_der::{DerError, to_vec, write_value};
use std::alloc::{AllocError, Global};

// One value in a vector of its own.
fn value(alloc: Global, tag: Tag, contents: &[u8]) -> Result<Vec<u8>, AllocError>
    requires { tag.0 % 32 ≢ 31 }
    ensures { IfOk result (λ v. v.items ≡ value_of tag.0 contents.now) }
{
    let mut out = Vec::new(alloc);
    match write_value(&mut out, tag, contents) {
        Ok(()) => Ok(out),
        Err(_) => Err(AllocError),
    }
}

// The contents octets of a curve's identifier.
fn curve_contents(curve: &NamedEcCurve) -> &[u8]
    ensures { result.now ≡ curve_contents curve.now }
{
    match curve {
        NamedEcCurve::Known(EcCurve::NistP256) => &SECP256R1,
        NamedEcCurve::Known(EcCurve::NistP384) => &SECP384R1,
        NamedEcCurve::Known(EcCurve::NistP521) => &SECP521R1,
        NamedEcCurve::Unsupported(oid) => oid.contents(),
    }
}

// The contents octets of an Edwards algorithm's identifier.
fn ed_contents(algorithm: EdAlgorithm) -> &'static [u8]
    ensures { result.now ≡ ed_contents algorithm }
{
    match algorithm {
        EdAlgorithm::Ed25519 => &ED25519_ALGORITHM,
        EdAlgorithm::X25519 => &X25519_ALGORITHM,
    }
}

// The algorithm's identifier and its parameters.
fn algorithm(alloc: Global, oid: &[u8], parameters: &[u8]) -> Result<Vec<u8>, AllocError>
    ensures { IfOk result (λ v. v.items ≡ value_of 48 (value_of 6 oid.now ++ parameters.now)) }
{
    let mut fields = value(alloc, Tag::OID, oid)?;
    fields.extend_from_slice(parameters)?;
    value(alloc, Tag::SEQUENCE, &fields)
}

// A BIT STRING of these bytes, with no unused bits.
fn bit_string(alloc: Global, bytes: &[u8]) -> Result<Vec<u8>, AllocError>
    ensures { IfOk result (λ v. v.items ≡ value_of 3 (0 ∷ bytes.now)) }
{
    let mut contents = Vec::new(alloc);
    contents.push(0)?;
    contents.extend_from_slice(bytes)?;
    value(alloc, Tag::BIT_STRING, &contents)
}

// The outer value.
fn information(
    alloc: Global,
    oid: &[u8],
    parameters: &[u8],
    bits: &[u8],
) -> Result<Vec<u8>, AllocError>
    ensures { IfOk result (λ v. v.items ≡ information_der oid.now parameters.now bits.now) }
{
    let mut fields = algorithm(alloc, oid, parameters)?;
    let bits = bit_string(alloc, bits)?;
    fields.extend_from_slice(&bits)?;
    value(alloc, Tag::SEQUENCE, &fields)
}

// An INTEGER, which is in its shortest spelling.
#[tactic(auto, unfolding(crate::specs::Writing::integer_table))]
fn integer(alloc: Global, number: &IntegerAsn1) -> Result<Vec<u8>, KeyError>
    ensures { Meets (λ v. v.items) key_fault result (integer_table number.now.0) }
{
    match to_vec(alloc, number) {
        Ok(bytes) => Ok(bytes),
        Err(DerError::BadValue) => Err(KeyError::Der(DerError::BadValue)),
        Err(_) => Err(KeyError::OutOfMemory),
    }
}

// Modulus and exponent.
#[tactic(auto, unfolding(crate::specs::Writing::rsa_bits_table))]
fn rsa_bits(
    alloc: Global,
    modulus: &IntegerAsn1,
    public_exponent: &IntegerAsn1,
) -> Result<Vec<u8>, KeyError>
    ensures { Meets (λ v. v.items) key_fault result (rsa_bits_table modulus.now.0 public_exponent.now.0) }
{
    let mut fields = integer(alloc, modulus)?;
    let exponent = integer(alloc, public_exponent)?;
    fields.extend_from_slice(&exponent)?;
    Ok(value(alloc, Tag::SEQUENCE, &fields)?)
}

#[tactic(auto, unfolding(crate::specs::Writing::rsa_der_table))]
fn rsa_der(
    alloc: Global,
    modulus: &IntegerAsn1,
    public_exponent: &IntegerAsn1,
) -> Result<Vec<u8>, KeyError>
    ensures { Meets (λ v. v.items) key_fault result (rsa_der_table modulus.now.0 public_exponent.now.0) }
{
    let bits = rsa_bits(alloc, modulus, public_exponent)?;
    let null = value(alloc, Tag::NULL, &[])?;
    Ok(information(alloc, &RSA_ENCRYPTION, &null, &bits)?)
}

fn ec_der(alloc: Global, curve: &NamedEcCurve, point: &[u8]) -> Result<Vec<u8>, AllocError>
    ensures { IfOk result (λ v. v.items ≡ information_der constants.EC_PUBLIC_KEY (value_of 6 (curve_contents curve.now)) point.now) }
{
    let parameters = value(alloc, Tag::OID, curve_contents(curve))?;
    information(alloc, &EC_PUBLIC_KEY, &parameters, point)
}

// The SubjectPublicKeyInfo of a key.
pub fn public_der(alloc: Global, kind: &PublicKeyKind) -> Result<Vec<u8>, KeyError>
    ensures { Meets (λ v. v.items) key_fault result (public_der_table kind.now) }
{
    match kind {
        PublicKeyKind::Rsa {
            modulus,
            public_exponent,
        } => rsa_der(alloc, modulus, public_exponent),
        PublicKeyKind::Ec { curve, point } => Ok(ec_der(alloc, curve, point.as_slice())?),
        PublicKeyKind::Ed { algorithm, bytes } => Ok(information(
            alloc,
            ed_contents(*algorithm),
            &[],
            bytes.as_slice(),
        )?),
    }
}
