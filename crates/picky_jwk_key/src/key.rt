// Keys by their texts.
ghost use Rattle.std.specs.Prelude.{◌≡◌, ◌↔◌, IfOk, IsTrue, IsSome, IfSome, string_bytes};
ghost use Rattle.picky_contract.specs.Refusals.{Meets};
ghost use Rattle.picky_jwk_key.specs.Keys.{rsa, ec, ed, rsa_view, ec_view, ed_view, key_view, is_rsa_key, is_ec_key, is_ed_key};
ghost use Rattle.picky_jwk_key.specs.Refusals.{fault, bytes_table, signed_table};
ghost use Rattle.picky_jwk_key.specs.Made.{rsa_of, ec_of, ed_of};

use crate::bytes::{field_size, in_field, of_bytes, signed, spelled, without_zero};
use crate::error::JwkError;
use picky_jwk_names::{JwkEcPublicKeyCurve, JwkEdPublicKeyAlgorithm};
use std::alloc::{AllocError, Global};

/// An RSA public key (RFC 7518 section 6.3.1): modulus and exponent, big-endian, each as base64url.
#[derive(Debug, Drop, PartialEq, Eq, Hash)]
pub struct JwkPublicRsaKey {
    /// The text of the modulus.
    pub n: String,
    /// The text of the exponent.
    pub e: String,
}

/// A public key on a curve over a prime field (RFC 7518 section 6.2.1): its curve and the coordinates of its point,
/// big-endian, each as base64url.
#[derive(Debug, Drop, PartialEq, Eq, Hash)]
pub struct JwkPublicEcKey {
    /// The curve.
    pub crv: JwkEcPublicKeyCurve,
    /// The text of the first coordinate.
    pub x: String,
    /// The text of the second coordinate.
    pub y: String,
}

/// A public key on an Edwards curve, or of its agreement (RFC 8037 section 2): its algorithm and its bytes as base64url.
#[derive(Debug, Drop, PartialEq, Eq, Hash)]
pub struct JwkPublicEdKey {
    /// The algorithm, the member `crv`.
    pub crv: JwkEdPublicKeyAlgorithm,
    /// The text of the bytes.
    pub x: String,
}

/// What a key holds, by its member `kty` (RFC 7517 section 4.1).
#[derive(Debug, Drop, PartialEq, Eq, Hash)]
pub enum JwkKeyType {
    /// `OKP`.
    Ed(JwkPublicEdKey),
    /// `EC`.
    Ec(JwkPublicEcKey),
    /// `RSA`.
    Rsa(JwkPublicRsaKey),
    /// `oct`, of which nothing is kept.
    Oct,
}

impl JwkPublicRsaKey {
    /// The bytes of the modulus. `Base64Decoding` exactly where its text isn't strict unpadded base64url.
    pub fn modulus_unsigned_bytes_be(&self, alloc: Global) -> Result<Vec<u8>, JwkError>
        ensures { Meets (λ v. v.items) fault result (bytes_table (string_bytes self.now.n)) }
    {
        spelled(alloc, &self.n)
    }

    /// The bytes of the modulus, after a 00 where their top bit is set. `Base64Decoding` exactly where its text isn't strict
    /// unpadded base64url.
    pub fn modulus_signed_bytes_be(&self, alloc: Global) -> Result<Vec<u8>, JwkError>
        ensures { Meets (λ v. v.items) fault result (signed_table (string_bytes self.now.n)) }
    {
        signed(alloc, &self.n)
    }

    /// The bytes of the exponent. `Base64Decoding` exactly where its text isn't strict unpadded base64url.
    pub fn public_exponent_unsigned_bytes_be(&self, alloc: Global) -> Result<Vec<u8>, JwkError>
        ensures { Meets (λ v. v.items) fault result (bytes_table (string_bytes self.now.e)) }
    {
        spelled(alloc, &self.e)
    }

    /// The bytes of the exponent, after a 00 where their top bit is set. `Base64Decoding` exactly where its text isn't strict
    /// unpadded base64url.
    pub fn public_exponent_signed_bytes_be(&self, alloc: Global) -> Result<Vec<u8>, JwkError>
        ensures { Meets (λ v. v.items) fault result (signed_table (string_bytes self.now.e)) }
    {
        signed(alloc, &self.e)
    }

    /// A copy, in memory of its own.
    pub fn clone(&self, alloc: Global) -> Result<JwkPublicRsaKey, AllocError>
        ensures { IfOk result (λ copy. rsa_view copy ≡ rsa_view self.now) }
    {
        Ok(JwkPublicRsaKey {
            n: String::from_str(alloc, &self.n)?,
            e: String::from_str(alloc, &self.e)?,
        })
    }
}

impl JwkPublicEcKey {
    /// The bytes of the first coordinate, after a 00 where their top bit is set. `Base64Decoding` exactly where its text isn't
    /// strict unpadded base64url.
    pub fn x_signed_bytes_be(&self, alloc: Global) -> Result<Vec<u8>, JwkError>
        ensures { Meets (λ v. v.items) fault result (signed_table (string_bytes self.now.x)) }
    {
        signed(alloc, &self.x)
    }

    /// The same of the second coordinate.
    pub fn y_signed_bytes_be(&self, alloc: Global) -> Result<Vec<u8>, JwkError>
        ensures { Meets (λ v. v.items) fault result (signed_table (string_bytes self.now.y)) }
    {
        signed(alloc, &self.y)
    }

    /// A copy, in memory of its own.
    pub fn clone(&self, alloc: Global) -> Result<JwkPublicEcKey, AllocError>
        ensures { IfOk result (λ copy. ec_view copy ≡ ec_view self.now) }
    {
        Ok(JwkPublicEcKey {
            crv: self.crv,
            x: String::from_str(alloc, &self.x)?,
            y: String::from_str(alloc, &self.y)?,
        })
    }
}

impl JwkPublicEdKey {
    /// The bytes of the key. `Base64Decoding` exactly where its text isn't strict unpadded base64url.
    pub fn public_key_bytes(&self, alloc: Global) -> Result<Vec<u8>, JwkError>
        ensures { Meets (λ v. v.items) fault result (bytes_table (string_bytes self.now.x)) }
    {
        spelled(alloc, &self.x)
    }

    /// A copy, in memory of its own.
    pub fn clone(&self, alloc: Global) -> Result<JwkPublicEdKey, AllocError>
        ensures { IfOk result (λ copy. ed_view copy ≡ ed_view self.now) }
    {
        Ok(JwkPublicEdKey {
            crv: self.crv,
            x: String::from_str(alloc, &self.x)?,
        })
    }
}

impl JwkKeyType {
    /// The RSA key of these big-endian bytes, each without one leading 00 of a longer value. Refused for want of memory alone.
    pub fn new_rsa_key(
        alloc: Global,
        modulus: &[u8],
        public_exponent: &[u8],
    ) -> Result<JwkKeyType, AllocError>
        ensures { IfOk result (λ k. key_view k ≡ rsa_of modulus.now public_exponent.now) }
    {
        Ok(JwkKeyType::Rsa(JwkPublicRsaKey {
            n: of_bytes(alloc, without_zero(modulus))?,
            e: of_bytes(alloc, without_zero(public_exponent))?,
        }))
    }

    /// The key of these big-endian coordinates, each brought to the size of the field: leading 00 beyond it are dropped, a shorter
    /// value is padded with 00, and a longer number stays as long as it is. Refused for want of memory alone.
    pub fn new_ec_key(
        alloc: Global,
        curve: JwkEcPublicKeyCurve,
        x: &[u8],
        y: &[u8],
    ) -> Result<JwkKeyType, AllocError>
        ensures { IfOk result (λ k. key_view k ≡ ec_of curve x.now y.now) }
    {
        let size = field_size(curve);
        let x = in_field(alloc, size, x)?;
        let y = in_field(alloc, size, y)?;
        Ok(JwkKeyType::Ec(JwkPublicEcKey {
            crv: curve,
            x: of_bytes(alloc, &x)?,
            y: of_bytes(alloc, &y)?,
        }))
    }

    /// The key of these bytes as they stand. Refused for want of memory alone.
    pub fn new_ed_key(
        alloc: Global,
        crv: JwkEdPublicKeyAlgorithm,
        x: &[u8],
    ) -> Result<JwkKeyType, AllocError>
        ensures { IfOk result (λ k. key_view k ≡ ed_of crv x.now) }
    {
        Ok(JwkKeyType::Ed(JwkPublicEdKey {
            crv,
            x: of_bytes(alloc, x)?,
        }))
    }

    /// The RSA key of these texts as they stand, without taking memory.
    pub fn new_rsa_key_from_base64_url(modulus: String, public_exponent: String) -> JwkKeyType
        ensures { key_view result ≡ rsa (record { n = string_bytes modulus; e = string_bytes public_exponent }) }
    {
        JwkKeyType::Rsa(JwkPublicRsaKey {
            n: modulus,
            e: public_exponent,
        })
    }

    /// The RSA key; `None` exactly where it is another.
    pub fn as_rsa(&self) -> Option<&JwkPublicRsaKey>
        ensures there { IsSome result ↔ IsTrue (is_rsa_key (key_view self.now)) }
        ensures value { IfSome result (λ k. key_view self.now ≡ rsa (rsa_view k.now)) }
    {
        match self {
            JwkKeyType::Rsa(key) => Some(key),
            JwkKeyType::Ec(_) | JwkKeyType::Ed(_) | JwkKeyType::Oct => None,
        }
    }

    /// The key on a curve over a prime field; `None` exactly where it is another.
    pub fn as_ec(&self) -> Option<&JwkPublicEcKey>
        ensures there { IsSome result ↔ IsTrue (is_ec_key (key_view self.now)) }
        ensures value { IfSome result (λ k. key_view self.now ≡ ec (ec_view k.now)) }
    {
        match self {
            JwkKeyType::Ec(key) => Some(key),
            JwkKeyType::Rsa(_) | JwkKeyType::Ed(_) | JwkKeyType::Oct => None,
        }
    }

    /// The Edwards curve key; `None` exactly where it is another.
    pub fn as_ed(&self) -> Option<&JwkPublicEdKey>
        ensures there { IsSome result ↔ IsTrue (is_ed_key (key_view self.now)) }
        ensures value { IfSome result (λ k. key_view self.now ≡ ed (ed_view k.now)) }
    {
        match self {
            JwkKeyType::Ed(key) => Some(key),
            JwkKeyType::Rsa(_) | JwkKeyType::Ec(_) | JwkKeyType::Oct => None,
        }
    }

    /// Whether it is an RSA key.
    pub fn is_rsa(&self) -> bool
        ensures { result ≡ is_rsa_key (key_view self.now) }
    {
        self.as_rsa().is_some()
    }

    /// Whether it is a key on a curve over a prime field.
    pub fn is_ec(&self) -> bool
        ensures { result ≡ is_ec_key (key_view self.now) }
    {
        self.as_ec().is_some()
    }

    /// Whether it is an Edwards curve key.
    pub fn is_ed(&self) -> bool
        ensures { result ≡ is_ed_key (key_view self.now) }
    {
        self.as_ed().is_some()
    }

    /// A copy, in memory of its own.
    pub fn clone(&self, alloc: Global) -> Result<JwkKeyType, AllocError>
        ensures { IfOk result (λ copy. key_view copy ≡ key_view self.now) }
    {
        match self {
            JwkKeyType::Ed(key) => Ok(JwkKeyType::Ed(key.clone(alloc)?)),
            JwkKeyType::Ec(key) => Ok(JwkKeyType::Ec(key.clone(alloc)?)),
            JwkKeyType::Rsa(key) => Ok(JwkKeyType::Rsa(key.clone(alloc)?)),
            JwkKeyType::Oct => Ok(JwkKeyType::Oct),
        }
    }
}
