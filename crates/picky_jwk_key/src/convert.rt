// Public keys of what a JSON Web Key holds, and back.
ghost use Rattle.std.specs.Prelude.{◌≡◌, true, IfOk};
ghost use Rattle.picky_contract.specs.Refusals.{Meets, OkOrMemory, Finds};
ghost use Rattle.picky_key_der.specs.declared.public.PublicKeyKind.{PublicKeyKind};
ghost use Rattle.picky_key_der.specs.Public.{is_point, field_size};
ghost use Rattle.picky_jwk_key.specs.Keys.{curve_of, curve_named, ed_named, rsa_view, ec_view, ed_view, key_view};
ghost use Rattle.picky_jwk_key.specs.Public.{IsPointKey, KeyOfJwk};
ghost use Rattle.picky_jwk_key.specs.Refusals.{fault, rsa_table, ec_table, edwards_table, ed_table, public_table, point_table, jwk_table};

use crate::bytes::{number, spelled};
use crate::error::JwkError;
use crate::key::{JwkKeyType, JwkPublicEcKey, JwkPublicEdKey, JwkPublicRsaKey};
use picky_jwk_names::{JwkEcPublicKeyCurve, JwkEdPublicKeyAlgorithm};
use picky_key_der::{EcCurve, EdAlgorithm, KeyError, NamedEcCurve, PublicKey, PublicKeyKind};
use std::alloc::{AllocError, Global};

// The curve of this name.
pub fn known_curve(curve: JwkEcPublicKeyCurve) -> EcCurve
    ensures { result ≡ curve_of curve }
{
    match curve {
        JwkEcPublicKeyCurve::P256 => EcCurve::NistP256,
        JwkEcPublicKeyCurve::P384 => EcCurve::NistP384,
        JwkEcPublicKeyCurve::P521 => EcCurve::NistP521,
    }
}

// The name of a curve.
fn named_curve(curve: EcCurve) -> JwkEcPublicKeyCurve
    ensures { result ≡ curve_named curve }
{
    match curve {
        EcCurve::NistP256 => JwkEcPublicKeyCurve::P256,
        EcCurve::NistP384 => JwkEcPublicKeyCurve::P384,
        EcCurve::NistP521 => JwkEcPublicKeyCurve::P521,
    }
}

// The name of an Edwards curve's algorithm.
fn named_algorithm(algorithm: EdAlgorithm) -> JwkEdPublicKeyAlgorithm
    ensures { result ≡ ed_named algorithm }
{
    match algorithm {
        EdAlgorithm::Ed25519 => JwkEdPublicKeyAlgorithm::Ed25519,
        EdAlgorithm::X25519 => JwkEdPublicKeyAlgorithm::X25519,
    }
}

#[tactic(auto, unfolding(crate::specs::Refusals::rsa_table))]
fn rsa_key(alloc: Global, key: &JwkPublicRsaKey) -> Result<PublicKey, JwkError>
    ensures { Meets (λ p. p) fault result (rsa_table (rsa_view key.now)) }
{
    let n = spelled(alloc, &key.n)?;
    let e = spelled(alloc, &key.e)?;
    let modulus = number(alloc, n)?;
    let public_exponent = number(alloc, e)?;
    Ok(PublicKey::from_rsa_components(modulus, public_exponent))
}

// The key with the point of these coordinates, where both fit the field.
fn point_key(
    alloc: Global,
    curve: EcCurve,
    x: &[u8],
    y: &[u8],
) -> Result<Option<PublicKey>, AllocError>
    ensures { IfOk result (Finds (λ p. p) (IsPointKey curve x.now y.now)) }
{
    match PublicKey::from_ec_components(alloc, curve, x, y) {
        Ok(key) => Ok(Some(key)),
        Err(KeyError::OutOfMemory) => Err(AllocError),
        Err(_) => Ok(None),
    }
}

#[tactic(auto, unfolding(crate::specs::Refusals::ec_table))]
fn ec_key(alloc: Global, key: &JwkPublicEcKey) -> Result<PublicKey, JwkError>
    ensures { Meets (λ p. p) fault result (ec_table (ec_view key.now)) }
{
    let x = spelled(alloc, &key.x)?;
    let y = spelled(alloc, &key.y)?;
    let Some(key) = point_key(alloc, known_curve(key.crv), &x, &y)? else {
        return Err(JwkError::InvalidEcPointCoordinates);
    };
    Ok(key)
}

#[tactic(auto, unfolding(crate::specs::Refusals::edwards_table))]
fn edwards_key(alloc: Global, algorithm: EdAlgorithm, x: &str) -> Result<PublicKey, JwkError>
    ensures { Meets (λ p. p) fault result (edwards_table algorithm x.now) }
{
    let bytes = spelled(alloc, x)?;
    match PublicKey::from_ed_encoded_components(algorithm, bytes) {
        Ok(key) => Ok(key),
        Err(_) => Err(JwkError::InvalidEdPublicKey {
            cause: "the key isn't 32 bytes",
        }),
    }
}

fn ed_key(alloc: Global, key: &JwkPublicEdKey) -> Result<PublicKey, JwkError>
    ensures { Meets (λ p. p) fault result (ed_table (ed_view key.now)) }
{
    match key.crv {
        JwkEdPublicKeyAlgorithm::Ed25519 => edwards_key(alloc, EdAlgorithm::Ed25519, &key.x),
        JwkEdPublicKeyAlgorithm::X25519 => edwards_key(alloc, EdAlgorithm::X25519, &key.x),
        JwkEdPublicKeyAlgorithm::Ed448 => Err(JwkError::UnsupportedAlgorithm {
            algorithm: "ed448 algorithm",
        }),
        JwkEdPublicKeyAlgorithm::X448 => Err(JwkError::UnsupportedAlgorithm {
            algorithm: "x448 algorithm",
        }),
    }
}

fn public_key_of(alloc: Global, key: &JwkKeyType) -> Result<PublicKey, JwkError>
    ensures { Meets (λ p. p) fault result (public_table (key_view key.now)) }
{
    match key {
        JwkKeyType::Rsa(key) => rsa_key(alloc, key),
        JwkKeyType::Ec(key) => ec_key(alloc, key),
        JwkKeyType::Ed(key) => ed_key(alloc, key),
        JwkKeyType::Oct => Err(JwkError::UnsupportedAlgorithm {
            algorithm: "octet sequence",
        }),
    }
}

// The key of a point of a known curve.
#[tactic(auto, unfolding(crate::specs::Refusals::point_table))]
fn key_of_point(alloc: Global, curve: EcCurve, point: &[u8]) -> Result<JwkKeyType, JwkError>
    requires { is_point (field_size curve) point.now ≡ true }
    ensures { Meets key_view fault result (point_table curve point.now) }
{
    match point {
        [4, coordinates @ ..] => {
            let (x, y) = coordinates.split_at(curve.field_bytes_size());
            Ok(JwkKeyType::new_ec_key(alloc, named_curve(curve), x, y)?)
        }
        _ => Err(JwkError::InvalidEcPublicKey {
            cause: "the point isn't uncompressed",
        }),
    }
}

impl JwkKeyType {
    /// The public key.
    ///
    /// `UnsupportedAlgorithm` exactly for `oct` (`octet sequence`), Ed448 (`ed448 algorithm`) and X448 (`x448 algorithm`), whose
    /// texts aren't looked at; else `Base64Decoding` exactly where a text isn't strict unpadded base64url; then
    /// `InvalidEcPointCoordinates` exactly where the number of a coordinate needs more bytes than the field, and
    /// `InvalidEdPublicKey` exactly where an Edwards key hasn't 32 bytes. An empty modulus or exponent is zero.
    pub fn to_public_key(&self, alloc: Global) -> Result<PublicKey, JwkError>
        ensures found { IfOk result (KeyOfJwk (key_view self.now)) }
        ensures every { (p : PublicKeyKind) → KeyOfJwk (key_view self.now) p → OkOrMemory (λ p. p) fault result p }
        ensures first { Meets (λ p. p) fault result (public_table (key_view self.now)) }
    {
        public_key_of(alloc, self)
    }

    /// What holds the public key: RSA numbers by their bytes without one leading 00, the coordinates of an uncompressed point in
    /// the size of the field, the bytes of an Edwards curve key.
    ///
    /// `UnsupportedAlgorithm` (`Unsupported EC curve`) exactly for a key on an unsupported curve, `InvalidEcPublicKey` exactly for
    /// a compressed point.
    pub fn from_public_key(alloc: Global, public_key: &PublicKey) -> Result<JwkKeyType, JwkError>
        ensures { Meets key_view fault result (jwk_table public_key.now) }
    {
        match public_key.kind() {
            PublicKeyKind::Rsa {
                modulus,
                public_exponent,
            } => Ok(JwkKeyType::new_rsa_key(
                alloc,
                modulus.as_signed_bytes_be(),
                public_exponent.as_signed_bytes_be(),
            )?),
            PublicKeyKind::Ec {
                curve: NamedEcCurve::Known(curve),
                point,
            } => key_of_point(alloc, *curve, point.as_slice()),
            PublicKeyKind::Ec {
                curve: NamedEcCurve::Unsupported(_),
                ..
            } => Err(JwkError::UnsupportedAlgorithm {
                algorithm: "Unsupported EC curve",
            }),
            PublicKeyKind::Ed { algorithm, bytes } => Ok(JwkKeyType::new_ed_key(
                alloc,
                named_algorithm(*algorithm),
                bytes.as_slice(),
            )?),
        }
    }
}
