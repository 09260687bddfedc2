// Reading public keys.
ghost use Rattle.std.specs.Prelude.{◌≡◌, ◌≤◌, length, IfOk};
ghost use Rattle.picky_contract.specs.Refusals.{Meets};
ghost use Rattle.picky_der.specs.Form.{whole};
ghost use Rattle.picky_der.specs.Reading.{Gives, end_at};
ghost use Rattle.picky_fields.specs.Fields.{null_or_none};
ghost use Rattle.picky_key_der.specs.Errors.{key_fault, read};
ghost use Rattle.picky_key_der.specs.Public.{is_point, is_point_of, IsNamed, HasName, parameters_of, rsa_kind_table, ec_kind_table, ed_kind_table, told_table, kind_table, rsa_held_table, point_table, ed_held_table, held_table, public_table};

use crate::algorithm::{KeyAlgorithm, algorithm_of, curve_of};
use crate::information::{RsaPublicKey, SubjectPublicKeyInfo};
use crate::{EdAlgorithm, KeyError, NamedEcCurve, PrivateKeyKind, PublicKey, PublicKeyKind};
use picky_asn1_oid::ObjectIdentifier;
use picky_contract::Bytes;
use picky_der::{Asn1RawDer, DerError, DerRead, DerReader, from_bytes};
use picky_fields::{AlgorithmIdentifier, read_null_or_none};
use std::alloc::Global;

/// The one value that all the bytes spell.
///
/// `Der` with the fault at the first bad place.
pub fn read_whole<T: DerRead + Drop>(alloc: Global, bytes: &[u8]) -> Result<T, KeyError>
    ensures { Meets T.stands_for key_fault result (read (whole T.form.reading bytes.now)) }
{
    match from_bytes(alloc, bytes) {
        Ok(value) => Ok(value),
        Err(DerError::OutOfMemory) => Err(KeyError::OutOfMemory),
        Err(error) => Err(KeyError::Der(error)),
    }
}

#[tactic(auto, unfolding(picky_der::specs::Form::whole))]
fn null_in(alloc: Global, parameters: &[u8]) -> Result<(), DerError>
    ensures { Gives (λ x. x) result (whole null_or_none.reading parameters.now) }
{
    let mut reader = DerReader::new(parameters);
    read_null_or_none(alloc, &mut reader)?;
    reader.end()
}

// The parameters are NULL, or there are none.
fn null_parameters(alloc: Global, parameters: &[u8]) -> Result<(), KeyError>
    ensures { Meets (λ x. x) key_fault result (read (whole null_or_none.reading parameters.now)) }
{
    match null_in(alloc, parameters) {
        Ok(()) => Ok(()),
        Err(DerError::OutOfMemory) => Err(KeyError::OutOfMemory),
        Err(error) => Err(KeyError::Der(error)),
    }
}

// There are no parameters.
#[tactic(auto, unfolding(picky_der::specs::Reading::end_at))]
fn no_parameters(parameters: &[u8]) -> Result<(), KeyError>
    ensures { Meets (λ x. x) key_fault result (read (end_at parameters.now)) }
{
    if parameters.is_empty() {
        Ok(())
    } else {
        Err(KeyError::Der(DerError::TrailingBytes))
    }
}

// The bytes of the parameters, none where there are none.
fn parameters_of(parameters: &Option<Asn1RawDer>) -> &[u8]
    ensures { result.now ≡ parameters_of parameters.now }
{
    match parameters {
        Some(parameters) => parameters.as_bytes(),
        None => &[],
    }
}

#[tactic(auto, unfolding(crate::specs::Public::rsa_kind_table))]
fn rsa_kind(alloc: Global, parameters: &[u8]) -> Result<PrivateKeyKind, KeyError>
    ensures first { Meets (λ k. k) key_fault result (rsa_kind_table parameters.now) }
    ensures named { IfOk result HasName }
{
    null_parameters(alloc, parameters)?;
    Ok(PrivateKeyKind::Rsa)
}

#[tactic(auto, unfolding(crate::specs::Public::ec_kind_table))]
fn ec_kind(alloc: Global, parameters: &[u8]) -> Result<PrivateKeyKind, KeyError>
    ensures first { Meets (λ k. k) key_fault result (ec_kind_table parameters.now) }
    ensures named { IfOk result HasName }
{
    let oid: ObjectIdentifier = read_whole(alloc, parameters)?;
    let curve = curve_of(oid);
    Ok(PrivateKeyKind::Ec { curve })
}

#[tactic(auto, unfolding(crate::specs::Public::ed_kind_table))]
fn ed_kind(algorithm: EdAlgorithm, parameters: &[u8]) -> Result<PrivateKeyKind, KeyError>
    ensures first { Meets (λ k. k) key_fault result (ed_kind_table algorithm parameters.now) }
    ensures named { IfOk result HasName }
{
    no_parameters(parameters)?;
    Ok(PrivateKeyKind::Ed { algorithm })
}

fn told_kind(
    alloc: Global,
    algorithm: KeyAlgorithm,
    parameters: &[u8],
) -> Result<PrivateKeyKind, KeyError>
    ensures first { Meets (λ k. k) key_fault result (told_table algorithm parameters.now) }
    ensures named { IfOk result HasName }
{
    match algorithm {
        KeyAlgorithm::Rsa => rsa_kind(alloc, parameters),
        KeyAlgorithm::Ec => ec_kind(alloc, parameters),
        KeyAlgorithm::Ed(algorithm) => ed_kind(algorithm, parameters),
    }
}

/// What an algorithm and its parameters say of a key.
///
/// The first of: `UnsupportedAlgorithm`; `Der` where the parameters aren't of the algorithm, which are NULL or absent for
/// RSA, the identifier of a curve, or absent for an Edwards algorithm.
#[tactic(auto, unfolding(crate::specs::Public::kind_table))]
pub fn read_kind(alloc: Global, algorithm: AlgorithmIdentifier) -> Result<PrivateKeyKind, KeyError>
    ensures first { Meets (λ k. k) key_fault result (kind_table algorithm) }
    ensures named { IfOk result HasName }
{
    let Some(told) = algorithm_of(&algorithm.oid) else {
        return Err(KeyError::UnsupportedAlgorithm { oid: algorithm.oid });
    };
    told_kind(alloc, told, parameters_of(&algorithm.parameters))
}

// Whether this is 04 and two, or 02 or 03 and one, field sizes.
fn is_point(field: usize, point: &[u8]) -> bool
    requires { field ≤ 66 }
    ensures { result ≡ is_point field point.now }
{
    match point {
        [] => false,
        [first, rest @ ..] => {
            (*first == 4 && rest.len() == 2 * field)
                || ((*first == 2 || *first == 3) && rest.len() == field)
        }
    }
}

// The same of a known curve; any bytes of another.
fn is_point_of(curve: &NamedEcCurve, point: &[u8]) -> bool
    ensures { result ≡ is_point_of curve.now point.now }
{
    match curve {
        NamedEcCurve::Known(curve) => is_point(curve.field_bytes_size(), point),
        NamedEcCurve::Unsupported(_) => true,
    }
}

#[tactic(auto, unfolding(crate::specs::Public::rsa_held_table))]
fn rsa_held(alloc: Global, bits: &[u8]) -> Result<PublicKey, KeyError>
    ensures { Meets (λ k. k) key_fault result (rsa_held_table bits.now) }
{
    let key: RsaPublicKey = read_whole(alloc, bits)?;
    Ok(PublicKey::from_rsa_components(key.modulus, key.public_exponent))
}

#[tactic(auto, unfolding(crate::specs::Public::point_table))]
fn point_held(curve: NamedEcCurve, bits: Bytes) -> Result<PublicKey, KeyError>
    requires { IsNamed curve }
    ensures { Meets (λ k. k) key_fault result (point_table curve bits) }
{
    if !is_point_of(&curve, bits.as_slice()) {
        return Err(KeyError::BadPoint);
    }
    Ok(PublicKey::from_kind(PublicKeyKind::Ec { curve, point: bits }))
}

// The size of an Edwards key in bytes (RFC 8032 section 5.1.5; RFC 7748 section 6.1).
pub const ED_SIZE: usize = 32;

#[tactic(auto, unfolding(crate::specs::Public::ed_held_table))]
fn ed_held(algorithm: EdAlgorithm, bits: Bytes) -> Result<PublicKey, KeyError>
    ensures { Meets (λ k. k) key_fault result (ed_held_table algorithm bits) }
{
    if bits.len() != ED_SIZE {
        return Err(KeyError::BadSize {
            expected: ED_SIZE,
            got: bits.len(),
        });
    }
    Ok(PublicKey::from_kind(PublicKeyKind::Ed {
        algorithm,
        bytes: bits,
    }))
}

/// The public key of this kind whose bits these are: modulus and exponent, a point, or 32 bytes.
///
/// `Der` where the bits aren't the numbers of an RSA key; `BadPoint` where they are no point of a known curve; `BadSize`
/// where they aren't the 32 bytes of an Edwards key.
pub fn read_held(alloc: Global, kind: PrivateKeyKind, bits: Bytes) -> Result<PublicKey, KeyError>
    requires { HasName kind }
    ensures { Meets (λ k. k) key_fault result (held_table kind bits) }
{
    match kind {
        PrivateKeyKind::Rsa => rsa_held(alloc, bits.as_slice()),
        PrivateKeyKind::Ec { curve } => point_held(curve, bits),
        PrivateKeyKind::Ed { algorithm } => ed_held(algorithm, bits),
    }
}

// The key of a SubjectPublicKeyInfo.
#[tactic(auto, unfolding(crate::specs::Public::public_table))]
pub fn read_public(alloc: Global, bytes: &[u8]) -> Result<PublicKey, KeyError>
    ensures { Meets (λ k. k) key_fault result (public_table bytes.now) }
{
    let SubjectPublicKeyInfo { algorithm, bits } = read_whole(alloc, bytes)?;
    let kind = read_kind(alloc, algorithm)?;
    read_held(alloc, kind, bits)
}
