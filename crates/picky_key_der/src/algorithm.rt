// Algorithms and curves of keys, by their identifiers.
ghost use Rattle.std.specs.Prelude.{◌≡◌, ◌↔◌, IsTrue, IfOk};
ghost use Rattle.picky_key_der.specs.Identifiers.{algorithm_of, curve_of};
ghost use Rattle.picky_key_der.specs.Kinds.{same_known, same_curve, same_edwards};
ghost use Rattle.picky_key_der.specs.Public.{field_size, IsNamed};

use picky_asn1_oid::ObjectIdentifier;
use std::alloc::{AllocError, Global};

/// A curve on which ECDSA has names here (SP 800-186 section 3.2.1).
#[derive(Clone, Copy, Debug, PartialEq, Eq, Hash)]
pub enum EcCurve {
    /// P-256, also secp256r1 and prime256v1.
    NistP256,
    /// P-384, also secp384r1.
    NistP384,
    /// P-521, also secp521r1.
    NistP521,
}

impl EcCurve {
    /// The size of the field in bytes: 32, 48 or 66.
    pub fn field_bytes_size(self) -> usize
        ensures { result ≡ field_size self }
    {
        match self {
            EcCurve::NistP256 => 32,
            EcCurve::NistP384 => 48,
            EcCurve::NistP521 => 66,
        }
    }

    // Whether both are one curve.
    fn same(self, other: EcCurve) -> bool
        ensures { result ≡ same_known self other }
    {
        match (self, other) {
            (EcCurve::NistP256, EcCurve::NistP256) => true,
            (EcCurve::NistP384, EcCurve::NistP384) => true,
            (EcCurve::NistP521, EcCurve::NistP521) => true,
            _ => false,
        }
    }
}

/// The curve of a key: a known one, or the identifier of another.
#[derive(Debug, Drop, PartialEq, Eq)]
pub enum NamedEcCurve {
    /// A known curve.
    Known(EcCurve),
    /// The identifier of another curve.
    Unsupported(ObjectIdentifier),
}

impl NamedEcCurve {
    /// A copy, in memory of its own.
    pub fn clone(&self, alloc: Global) -> Result<NamedEcCurve, AllocError>
        ensures { IfOk result (λ copy. copy ≡ self.now) }
    {
        match self {
            NamedEcCurve::Known(curve) => Ok(NamedEcCurve::Known(*curve)),
            NamedEcCurve::Unsupported(oid) => Ok(NamedEcCurve::Unsupported(oid.clone(alloc)?)),
        }
    }

    /// Whether both are one curve: two curves that aren't known are one where their identifiers are.
    #[tactic(auto, using(crate::specs::laws::Kinds::same_curve_decides))]
    pub fn same(&self, other: &NamedEcCurve) -> bool
        ensures means { IsTrue result ↔ (self.now ≡ other.now) }
        ensures value { result ≡ same_curve self.now other.now }
    {
        match (self, other) {
            (NamedEcCurve::Known(curve), NamedEcCurve::Known(other)) => curve.same(*other),
            (NamedEcCurve::Unsupported(oid), NamedEcCurve::Unsupported(other)) => *oid == *other,
            _ => false,
        }
    }
}

/// An algorithm of an Edwards curve key.
#[derive(Clone, Copy, Debug, PartialEq, Eq, Hash)]
pub enum EdAlgorithm {
    /// Signatures (RFC 8032).
    Ed25519,
    /// Agreement (RFC 7748).
    X25519,
}

impl EdAlgorithm {
    /// Whether both are one algorithm.
    #[tactic(auto, using(crate::specs::laws::Kinds::same_edwards_decides))]
    pub fn same(self, other: EdAlgorithm) -> bool
        ensures means { IsTrue result ↔ (self ≡ other) }
        ensures value { result ≡ same_edwards self other }
    {
        match (self, other) {
            (EdAlgorithm::Ed25519, EdAlgorithm::Ed25519) => true,
            (EdAlgorithm::X25519, EdAlgorithm::X25519) => true,
            _ => false,
        }
    }
}

/// A family of keys.
#[derive(Clone, Copy, Debug, PartialEq, Eq, Hash)]
pub enum KeyFamily {
    /// RSA keys (RFC 8017).
    Rsa,
    /// Keys on a curve over a prime field (SEC 1).
    Ec,
    /// Edwards keys that sign (RFC 8032).
    Ed25519,
    /// Keys of the agreement X25519 (RFC 7748), which has no signatures.
    X25519,
}

// The algorithm of a key.
#[derive(Clone, Copy, Debug, PartialEq, Eq)]
pub enum KeyAlgorithm {
    Rsa,
    Ec,
    Ed(EdAlgorithm),
}

// rsaEncryption, 1.2.840.113549.1.1.1.
pub const RSA_ENCRYPTION: [u8; 9] = [0x2a, 0x86, 0x48, 0x86, 0xf7, 0x0d, 0x01, 0x01, 0x01];

// id-ecPublicKey, 1.2.840.10045.2.1.
pub const EC_PUBLIC_KEY: [u8; 7] = [0x2a, 0x86, 0x48, 0xce, 0x3d, 0x02, 0x01];

// id-X25519, 1.3.101.110.
pub const X25519_ALGORITHM: [u8; 3] = [0x2b, 0x65, 0x6e];

// id-Ed25519, 1.3.101.112.
pub const ED25519_ALGORITHM: [u8; 3] = [0x2b, 0x65, 0x70];

// secp256r1, 1.2.840.10045.3.1.7.
pub const SECP256R1: [u8; 8] = [0x2a, 0x86, 0x48, 0xce, 0x3d, 0x03, 0x01, 0x07];

// secp384r1, 1.3.132.0.34.
pub const SECP384R1: [u8; 5] = [0x2b, 0x81, 0x04, 0x00, 0x22];

// secp521r1, 1.3.132.0.35.
pub const SECP521R1: [u8; 5] = [0x2b, 0x81, 0x04, 0x00, 0x23];

// The algorithm with this identifier.
pub fn algorithm_of(oid: &ObjectIdentifier) -> Option<KeyAlgorithm>
    ensures { result ≡ algorithm_of oid.now }
{
    if oid.contents() == RSA_ENCRYPTION.as_slice() {
        return Some(KeyAlgorithm::Rsa);
    }
    if oid.contents() == EC_PUBLIC_KEY.as_slice() {
        return Some(KeyAlgorithm::Ec);
    }
    if oid.contents() == ED25519_ALGORITHM.as_slice() {
        return Some(KeyAlgorithm::Ed(EdAlgorithm::Ed25519));
    }
    if oid.contents() == X25519_ALGORITHM.as_slice() {
        return Some(KeyAlgorithm::Ed(EdAlgorithm::X25519));
    }
    None
}

// The curve with this identifier; any other is kept.
pub fn curve_of(oid: ObjectIdentifier) -> NamedEcCurve
    ensures value { result ≡ curve_of oid }
    ensures named { IsNamed result }
{
    if oid.contents() == SECP256R1.as_slice() {
        return NamedEcCurve::Known(EcCurve::NistP256);
    }
    if oid.contents() == SECP384R1.as_slice() {
        return NamedEcCurve::Known(EcCurve::NistP384);
    }
    if oid.contents() == SECP521R1.as_slice() {
        return NamedEcCurve::Known(EcCurve::NistP521);
    }
    NamedEcCurve::Unsupported(oid)
}
