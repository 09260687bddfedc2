// Public keys.
ghost use Rattle.std.specs.Prelude.{◌≡◌, ◌≢◌, ◌≤◌, ◌↔◌, ◌++◌, ◌∷◌, true, length, Ok, Err, IfOk, IsTrue};
ghost use Rattle.picky_contract.specs.Refusals.{Meets, OkOrMemory};
ghost use Rattle.picky_key_der.specs.Errors.{key_fault};
ghost use Rattle.picky_key_der.specs.Grammar.{IsPublicKey};
ghost use Rattle.picky_key_der.specs.declared.public.PublicKeyKind.{PublicKeyKind as Kind};
ghost use Rattle.picky_key_der.specs.declared.error.KeyError.TheVariants.{BadSize};
ghost use Rattle.picky_key_der.specs.declared.public.PublicKeyKind.TheVariants.{Rsa, Ed};
ghost use Rattle.picky_der.specs.Length.{without_zeros};
ghost use Rattle.picky_key_der.specs.Kinds.{same_public};
ghost use Rattle.picky_key_der.specs.Writing.{coordinate_table, components_table, public_der_table, public_der_of, HasNumbers, FitsField, of_coordinates};
ghost use Rattle.picky_key_der.specs.Public.{is_point, IsKept, public_table, family_of};

use crate::ecdsa::padded;
use crate::reading::{ED_SIZE, read_public};
use crate::writing::public_der;
use crate::{EcCurve, EdAlgorithm, KeyError, KeyFamily, NamedEcCurve};
use picky_asn1_bits::IntegerAsn1;
use picky_contract::Bytes;
use std::alloc::{AllocError, Global};
use std::marker::Model;

/// What a public key is.
#[derive(Debug, Drop, PartialEq, Eq)]
pub enum PublicKeyKind {
    /// An RSA key (RFC 8017 section 3.1).
    Rsa {
        /// The modulus n.
        modulus: IntegerAsn1,
        /// The exponent e.
        public_exponent: IntegerAsn1,
    },
    /// A key on a curve over a prime field.
    Ec {
        /// The curve.
        curve: NamedEcCurve,
        /// The point, as octets (SEC 1 section 2.3.3).
        point: Bytes,
    },
    /// A key on an Edwards curve, or of X25519.
    Ed {
        /// The algorithm.
        algorithm: EdAlgorithm,
        /// The 32 bytes of the key.
        bytes: Bytes,
    },
}

impl PublicKeyKind {
    /// Whether both are one key, by contents.
    fn same(&self, other: &PublicKeyKind) -> bool
        ensures { result ≡ same_public self.now other.now }
    {
        match (self, other) {
            (
                PublicKeyKind::Rsa {
                    modulus,
                    public_exponent,
                },
                PublicKeyKind::Rsa {
                    modulus: other,
                    public_exponent: exponent,
                },
            ) => modulus.0.same(&other.0) && public_exponent.0.same(&exponent.0),
            (
                PublicKeyKind::Ec { curve, point },
                PublicKeyKind::Ec {
                    curve: other,
                    point: at,
                },
            ) => curve.same(other) && point.same(at),
            (
                PublicKeyKind::Ed { algorithm, bytes },
                PublicKeyKind::Ed {
                    algorithm: other,
                    bytes: at,
                },
            ) => algorithm.same(*other) && bytes.same(at),
            _ => false,
        }
    }

    /// A copy, in memory of its own.
    pub fn clone(&self, alloc: Global) -> Result<PublicKeyKind, AllocError>
        ensures { IfOk result (λ copy. copy ≡ self.now) }
    {
        match self {
            PublicKeyKind::Rsa {
                modulus,
                public_exponent,
            } => Ok(PublicKeyKind::Rsa {
                modulus: modulus.clone(alloc)?,
                public_exponent: public_exponent.clone(alloc)?,
            }),
            PublicKeyKind::Ec { curve, point } => Ok(PublicKeyKind::Ec {
                curve: curve.clone(alloc)?,
                point: point.clone(alloc)?,
            }),
            PublicKeyKind::Ed { algorithm, bytes } => Ok(PublicKeyKind::Ed {
                algorithm: *algorithm,
                bytes: bytes.clone(alloc)?,
            }),
        }
    }
}

/// A public key, which contracts see as its kind. The point of a known curve is of the curve's size, and an Edwards key has
/// 32 bytes.
#[derive(Debug, Drop, PartialEq, Eq)]
pub struct PublicKey {
    kind: PublicKeyKind,
}

impl Model for PublicKey {
    ghost use Rattle.std.specs.Prelude.{◌≡◌};
    ghost use Rattle.picky_key_der.specs.declared.public.PublicKeyKind.{PublicKeyKind};
    ghost use Rattle.picky_key_der.specs.Public.{IsKept};

    ghost Value = { PublicKeyKind };

    ghost view = { λ k. k.kind };

    ghost invariant = { λ k. IsKept k.kind };

    ghost inverse = { λ kind. record { kind = kind } };
}

// The bytes without the 00 in front.
fn without_zeros(bytes: &[u8]) -> &[u8]
    ensures { result.now ≡ without_zeros bytes.now }
{
    match bytes {
        [0, rest @ ..] => without_zeros(rest),
        _ => bytes,
    }
}

// A coordinate in the size of the field.
#[tactic(auto, unfolding(crate::specs::Writing::coordinate_table))]
fn coordinate(alloc: Global, bytes: &[u8], size: usize) -> Result<Vec<u8>, KeyError>
    ensures value { Meets (λ v. v.items) key_fault result (coordinate_table size bytes.now) }
    ensures sized { IfOk result (λ v. length v.items ≡ size) }
{
    let number = without_zeros(bytes);
    if number.len() > size {
        return Err(KeyError::BadSize {
            expected: size,
            got: number.len(),
        });
    }
    Ok(padded(alloc, number, size)?)
}

// The uncompressed point (SEC 1 section 2.3.3).
#[tactic(auto, using(crate::specs::laws::Public::uncompressed_is_point))]
fn uncompressed(alloc: Global, size: usize, x: &[u8], y: &[u8]) -> Result<Vec<u8>, AllocError>
    requires x { length x.now ≡ size }
    requires y { length y.now ≡ size }
    ensures value { IfOk result (λ v. v.items ≡ 4 ∷ x.now ++ y.now) }
    ensures point { IfOk result (λ v. is_point size v.items ≡ true) }
{
    let mut point = Vec::new(alloc);
    point.push(4)?;
    point.extend_from_slice(x)?;
    point.extend_from_slice(y)?;
    Ok(point)
}

// The key with the point of these coordinates.
#[tactic(auto, unfolding(crate::specs::Writing::components_table))]
fn key_of_coordinates(
    alloc: Global,
    curve: EcCurve,
    x: &[u8],
    y: &[u8],
) -> Result<PublicKey, KeyError>
    ensures { Meets (λ k. k) key_fault result (components_table curve x.now y.now) }
{
    let size = curve.field_bytes_size();
    let first = coordinate(alloc, x, size)?;
    let second = coordinate(alloc, y, size)?;
    let point = uncompressed(alloc, size, &first, &second)?;
    let kind = PublicKeyKind::Ec {
        curve: NamedEcCurve::Known(curve),
        point: Bytes::new(point),
    };
    Ok(PublicKey { kind })
}

// The encoding of a key.
fn der_of(alloc: Global, key: &PublicKey) -> Result<Vec<u8>, KeyError>
    ensures { Meets (λ v. v.items) key_fault result (public_der_table key.now) }
{
    public_der(alloc, &key.kind)
}

impl PublicKey {
    /// The key that the bytes spell, a SubjectPublicKeyInfo and nothing after it (RFC 5280 section 4.1.2.7).
    ///
    /// The first of: `Der` where the outer value isn't one; `UnsupportedAlgorithm`; `Der` where the parameters, and then
    /// what the bits hold, aren't of the algorithm; `BadSize` where an Edwards key hasn't 32 bytes; `BadPoint` where the
    /// point of a known curve isn't 04 and two, or 02 or 03 and one, sizes of its field.
    pub fn from_der(alloc: Global, bytes: &[u8]) -> Result<PublicKey, KeyError>
        ensures found { IfOk result (λ k. IsPublicKey bytes.now k) }
        ensures every { (key : Kind) → IsPublicKey bytes.now key → OkOrMemory (λ k. k) key_fault result key }
        ensures first { Meets (λ k. k) key_fault result (public_table bytes.now) }
    {
        read_public(alloc, bytes)
    }

    /// The RSA key of these numbers, without taking memory.
    pub fn from_rsa_components(modulus: IntegerAsn1, public_exponent: IntegerAsn1) -> PublicKey
        ensures { result ≡ Rsa modulus public_exponent }
    {
        let kind = PublicKeyKind::Rsa {
            modulus,
            public_exponent,
        };
        PublicKey { kind }
    }

    /// The key of an Edwards algorithm with these 32 bytes, without taking memory.
    ///
    /// `BadSize` exactly where the bytes aren't 32.
    pub fn from_ed_encoded_components(
        algorithm: EdAlgorithm,
        bytes: Vec<u8>,
    ) -> Result<PublicKey, KeyError>
        ensures ok { length bytes.items ≡ 32 → result ≡ Ok (Ed algorithm bytes.items) }
        ensures err { length bytes.items ≢ 32 → result ≡ Err (BadSize 32 (length bytes.items)) }
    {
        if bytes.len() != ED_SIZE {
            return Err(KeyError::BadSize {
                expected: ED_SIZE,
                got: bytes.len(),
            });
        }
        let kind = PublicKeyKind::Ed {
            algorithm,
            bytes: Bytes::new(bytes),
        };
        Ok(PublicKey { kind })
    }

    /// The key with the uncompressed point of these coordinates, unsigned and big-endian, each padded to the field.
    ///
    /// `BadSize` exactly where the number of x, or else that of y, needs more bytes than the field.
    pub fn from_ec_components(
        alloc: Global,
        curve: EcCurve,
        x: &[u8],
        y: &[u8],
    ) -> Result<PublicKey, KeyError>
        ensures found { IfOk result (λ k. (FitsField curve x.now × FitsField curve y.now) × (k ≡ of_coordinates curve x.now y.now)) }
        ensures every { FitsField curve x.now → FitsField curve y.now → OkOrMemory (λ k. k) key_fault result (of_coordinates curve x.now y.now) }
        ensures first { Meets (λ k. k) key_fault result (components_table curve x.now y.now) }
    {
        key_of_coordinates(alloc, curve, x, y)
    }

    /// The encoding of the key, a SubjectPublicKeyInfo (RFC 5280 section 4.1.2.7): RSA keys with NULL parameters, keys on a
    /// curve with its identifier, Edwards keys with none.
    ///
    /// `Der` with `BadValue` exactly where a number of an RSA key isn't in its shortest spelling.
    pub fn to_der(&self, alloc: Global) -> Result<Vec<u8>, KeyError>
        ensures found { IfOk result (λ v. HasNumbers self.now × (v.items ≡ public_der_of self.now)) }
        ensures every { HasNumbers self.now → OkOrMemory (λ v. v.items) key_fault result (public_der_of self.now) }
        ensures first { Meets (λ v. v.items) key_fault result (public_der_table self.now) }
    {
        der_of(alloc, self)
    }

    /// The family of the key, without taking memory.
    pub fn family(&self) -> KeyFamily
        ensures { result ≡ family_of self.now }
    {
        match &self.kind {
            PublicKeyKind::Rsa { .. } => KeyFamily::Rsa,
            PublicKeyKind::Ec { .. } => KeyFamily::Ec,
            PublicKeyKind::Ed {
                algorithm: EdAlgorithm::Ed25519,
                ..
            } => KeyFamily::Ed25519,
            PublicKeyKind::Ed {
                algorithm: EdAlgorithm::X25519,
                ..
            } => KeyFamily::X25519,
        }
    }

    /// The key that these parts make, which fit each other; without taking memory.
    pub fn from_kind(kind: PublicKeyKind) -> PublicKey
        requires { IsKept kind }
        ensures { result ≡ kind }
    {
        PublicKey { kind }
    }

    /// Whether both are one key, by contents.
    #[tactic(auto, using(crate::specs::laws::Kinds::same_public_decides))]
    pub fn same(&self, other: &PublicKey) -> bool
        ensures means { IsTrue result ↔ (self.now ≡ other.now) }
        ensures value { result ≡ same_public self.now other.now }
    {
        self.kind.same(&other.kind)
    }

    /// A copy, in memory of its own.
    pub fn clone(&self, alloc: Global) -> Result<PublicKey, AllocError>
        ensures { IfOk result (λ copy. copy ≡ self.now) }
    {
        let kind = self.kind.clone(alloc)?;
        Ok(PublicKey { kind })
    }

    /// What the key is, without taking memory.
    pub fn kind(&self) -> &PublicKeyKind
        ensures value { result.now ≡ self.now }
        ensures kept { IsKept result.now }
    {
        &self.kind
    }
}
